// The result tables of the run as it starts with them, and all seven as a conflict or a refusal leaves them.
#![tactic(auto)]

ghost use Rattle.std.specs.Prelude.{◌≡◌, map, suc, ◌≤◌, ◌*◌, pos, length, replicate};
ghost use Rattle.rows.specs.Row.{unit_row};
ghost use Rattle.rows.specs.Table.{flat};
ghost use Rattle.rules.specs.Elimination.{counted, identity};
ghost use Rattle.rules.specs.Lent.{SameTables, SameLengths, SameRows};
ghost use Rattle.filling.specs.Zeros.{Zeros};

use rules::{RowTables, StateTables};

// Row i of the table is 1 at column i, else 0.
pub fn units(table: &mut [i64], count: usize, w: usize)
    requires { (length table.old ≡ count * w) × (count ≤ w) }
    ensures { table.new ≡ flat (map (unit_row w) (counted 0 count)) }
{
    copying::fill(table, 0);
    for r in 0..count {
        table[r * w + r] = 1;
    }
}

// The start: each x is its y, all columns are open, no reasons.
pub fn begin(state: &mut StateTables, n: usize)
    requires { (length state.old.substitution.now ≡ n * suc n) × (length state.old.way_back.now ≡ n * suc n) × (n ≤ 32) }
    ensures substitution { state.new.substitution.now ≡ flat (identity n) }
    ensures marks { state.new.marks.now ≡ replicate (length state.old.marks.now) 1 }
    ensures way_back { state.new.way_back.now ≡ flat (identity n) }
    ensures reasons { state.new.reasons.now ≡ replicate (length state.old.reasons.now) (pos 0) }
    ensures same { SameTables state.old state.new × SameLengths state.old state.new }
{
    let w = n + 1;
    units(state.substitution, n, w);
    state.marks.fill(1);
    units(state.way_back, n, w);
    state.reasons.fill(0);
}

// All seven result tables full of zeros.
pub fn clear(state: &mut StateTables, conflict: &mut [i64], rows: &mut RowTables)
    ensures same { SameTables state.old state.new × SameLengths state.old state.new × SameRows rows.old rows.new }
    ensures state { Zeros state.old state.new }
    ensures conflict { conflict.new ≡ replicate (length conflict.old) (pos 0) }
    ensures rows { (rows.new.tightened.now ≡ replicate (length rows.old.tightened.now) (pos 0)) × (rows.new.used.now ≡ replicate (length rows.old.used.now) 0) }
{
    clear_run(state);
    conflict.fill(0);
    rows.tightened.fill(0);
    rows.used.fill(0);
}

// The four result tables of the run full of zeros.
pub fn clear_run(state: &mut StateTables)
    ensures zeros { Zeros state.old state.new }
    ensures same { SameTables state.old state.new × SameLengths state.old state.new }
{
    state.substitution.fill(0);
    state.marks.fill(0);
    state.way_back.fill(0);
    state.reasons.fill(0);
}
