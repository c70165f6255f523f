// The inequalities worked, one after the other: a tightened row and the set used for each.
#![tactic(auto)]

ghost use Rattle.std.specs.Prelude.{◌≡◌, true, suc, ◌≤◌, ◌*◌, length};
ghost use Rattle.rows.specs.Row.{all_within};
ghost use Rattle.rows.specs.Table.{rows_of};
ghost use Rattle.inequalities.specs.Worked.{row_shown, row_worked, rows_shown, rows_worked};
ghost use Rattle.used.specs.Shown.{state_in};
ghost use Rattle.rules.specs.Lent.{SameRows};

use rules::{RowTables, StateTables};

// One inequality worked into its row of the tightened table: the set that it used, or nothing where one of its sums is beyond the limit.
fn work_row(
    row: &mut [i64],
    inequality: &[i64],
    state: &StateTables,
    n: usize,
    m: usize,
) -> Option<u64>
    requires row_len { (length row.old ≡ suc n) × (length inequality.now ≡ suc n) × (length state.now.substitution.now ≡ n * suc n) ×
        (length state.now.marks.now ≡ n) × (length state.now.reasons.now ≡ n * suc m) }
    requires n_bound { (n ≤ 32) × (m ≤ 32) × (all_within inequality.now ≡ true) × (all_within state.now.substitution.now ≡ true) }
    ensures { row_shown result row.new ≡ row_worked n m (state_in n m state.now) inequality.now }
{
    tightening::sums_into(row, inequality, state.substitution, n);
    if !rows::all_within(row) {
        return None;
    }
    let set = used::used_by(state.marks, state.reasons, row, n, m);
    tightening::only_open(row, state.marks);
    tightening::tighten(row, n);
    Some(set)
}

// All inequalities worked. The error is the number of the first with a sum beyond the limit, counting from 1.
pub fn work_rows(
    rows: &mut RowTables,
    inequalities: &[i64],
    state: &StateTables,
    n: usize,
    m: usize,
) -> Result<(), usize>
    requires tightened_len { (length rows.old.tightened.now ≡ length rows.old.used.now * suc n) ×
        (length inequalities.now ≡ length rows.old.used.now * suc n) × (length state.now.substitution.now ≡ n * suc n) ×
        (length state.now.marks.now ≡ n) × (length state.now.reasons.now ≡ n * suc m) }
    requires n_bound { (n ≤ 32) × (m ≤ 32) × (length rows.old.used.now ≤ 64) × (all_within inequalities.now ≡ true) ×
        (all_within state.now.substitution.now ≡ true) }
    ensures same { SameRows rows.old rows.new }
    ensures worked { rows_shown n (length rows.old.used.now) result rows.new.tightened.now rows.new.used.now ≡
        rows_worked n m (state_in n m state.now) (rows_of (suc n) (length rows.old.used.now) inequalities.now) }
{
    let w = n + 1;
    let tightened = &mut *rows.tightened;
    let used = &mut *rows.used;
    for (i, set) in used.iter_mut().enumerate() {
        let a = i * w;
        let e = a + w;
        *set = work_row(&mut tightened[a..e], &inequalities[a..e], state, n, m).ok_or(i + 1)?;
    }
    Ok(())
}
