// The checks of the input: refusals 1 to 3.
#![tactic(auto)]

ghost use Rattle.std.specs.Prelude.{◌≡◌, ◌≤◌};
ghost use Rattle.rules.specs.Outcomes.{in_range};
ghost use Rattle.limits.specs.Checked.{lengths_right, entries_checked, table_checked};

use rules::{Refusal, RowTables, StateTables, System, Table};

// Whether n, m and k are in range.
#[tactic(auto, unfolding(rules::specs::Outcomes::in_range))]
pub fn in_range(n: usize, m: usize, k: usize) -> bool
    ensures { result ≡ in_range n m k }
{
    1 <= n && n <= 32 && m <= 32 && k <= 64
}

// Whether all entries of this table, whose rows have width w, are within the limit; else the refusal of the first that is not.
pub fn check_table(w: usize, which: Table, table: &[i64]) -> Result<(), Refusal>
    requires { (1 ≤ w) × (w ≤ 33) }
    ensures { result ≡ table_checked w which table.now }
{
    match rows::first_beyond(table) {
        Some(i) => Err(Refusal::BadEntry {
            table: which,
            row: i / w + 1,
            column: i % w + 1,
        }),
        None => Ok(()),
    }
}

// Whether the nine tables have their lengths.
pub fn right_lengths(
    system: System,
    equations: &[i64],
    inequalities: &[i64],
    state: &StateTables,
    conflict: &[i64],
    rows: &RowTables,
) -> bool
    requires { (system.n ≤ 32) × (system.m ≤ 32) × (system.k ≤ 64) }
    ensures { result ≡ lengths_right system.n system.m system.k equations.now inequalities.now state.now conflict.now rows.now }
{
    let System { n, m, k } = system;
    let w = n + 1;
    if equations.len() != m * w || inequalities.len() != k * w {
        return false;
    }
    state.substitution.len() == n * w
        && state.marks.len() == n
        && state.way_back.len() == n * w
        && state.reasons.len() == n * (m + 1)
        && conflict.len() == m + 1
        && rows.tightened.len() == k * w
        && rows.used.len() == k
}

// Refusal 3: the whole table of the equations before that of the inequalities.
pub fn check_entries(n: usize, equations: &[i64], inequalities: &[i64]) -> Result<(), Refusal>
    requires { n ≤ 32 }
    ensures { result ≡ entries_checked n equations.now inequalities.now }
{
    check_table(n + 1, Table::Equations, equations)?;
    check_table(n + 1, Table::Inequalities, inequalities)
}
