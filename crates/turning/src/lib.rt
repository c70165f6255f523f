// Step (c): the substitution of one step put into the rows, the substitution and the way back.
#![tactic(auto)]

ghost use Rattle.std.specs.Prelude.{◌≡◌, true, suc, ◌≤◌, ◌<◌, ◌*◌, pos, length, take};
ghost use Rattle.rows.specs.Row.{at, gcd_of, smallest, all_within};
ghost use Rattle.rows.specs.Table.{rows_of};
ghost use Rattle.rules.specs.Lent.{SameTables, SameLengths};
ghost use Rattle.steps.specs.Shown.{tried};
ghost use Rattle.turning.specs.Turned.{turned_state, turn_state, return_of};

use rules::StateTables;

// (c) for the way back: row k gains each row i as often as q says, and q's constant. It is worked on in place: q has 0 at column k, and
// beyond the limit the table is not asked for.
fn way_back(table: &mut [i64], n: usize, k: usize, q: &[i64]) -> bool
    requires { (length table.old ≡ n * suc n) × (n ≤ 32) × (k < n) × (length q.now ≡ suc n) × (all_within table.old ≡ true) ×
        (all_within q.now ≡ true) × (at q.now k ≡ pos 0) }
    ensures { tried result (rows_of (suc n) n table.new) ≡ return_of n k q.now table.old }
{
    let w = n + 1;
    in_place::gather_in(table, w, k, &q[..n]);
    let start = k * w;
    let end = start + w;
    let last = start + n;
    let z = table[last];
    let c = q[n];
    table[last] = z + c;
    rows::all_within(&table[start..end])
}

// (c): the substitution for column k, where the smallest coefficient of the first row stands, put into all rows, the substitution and the way
// back. It answers whether every listed number is within the limit; once one is not, nothing more is put in.
pub fn turn(rows: &mut [i64], count: usize, state: &mut StateTables, n: usize, k: usize) -> bool
    requires rows_len { (length rows.old ≡ count * suc n) × (1 ≤ count) × (n ≤ 32) }
    requires state_len { (length state.old.substitution.now ≡ n * suc n) × (length state.old.way_back.now ≡ n * suc n) }
    requires rows_value { (all_within rows.old ≡ true) × (0 < gcd_of (take n rows.old)) × (k ≡ smallest (take n rows.old)) }
    requires state_value { (all_within state.old.substitution.now ≡ true) × (all_within state.old.way_back.now ≡ true) }
    ensures made { tried result (turned_state n count rows.new state.new) ≡ turn_state n count rows.old state.old }
    ensures rest { (state.new.marks.now ≡ state.old.marks.now) × (state.new.reasons.now ≡ state.old.reasons.now) }
    ensures same { SameTables state.old state.new × SameLengths state.old state.new }
{
    let w = n + 1;
    let mut q = [0i64; 33];
    let a = rows[k];
    coefficients::quotients(&mut q[..w], &rows[..w], a);
    q[k] = 0;
    if !tables::put_in(rows, count, w, k, &q[..w]) {
        return false;
    }
    if !tables::put_in(state.substitution, n, w, k, &q[..w]) {
        return false;
    }
    way_back(state.way_back, n, k, &q[..w])
}
