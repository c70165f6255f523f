// The run over the equations and then the work on the inequalities, where the checks of the input let them.
#![tactic(auto)]

ghost use Rattle.std.specs.Prelude.{◌≡◌, true, suc, ◌≤◌, ◌*◌, pos, length, replicate};
ghost use Rattle.rows.specs.Row.{all_within};
ghost use Rattle.rows.specs.Table.{rows_of};
ghost use Rattle.rules.specs.Elimination.{elimination as elimination_of};
ghost use Rattle.rules.specs.Lent.{SameTables, SameLengths, SameRows, CallLengths};
ghost use Rattle.rules.specs.Outcomes.{after_run};
ghost use Rattle.outcomes.specs.Answered.{answer_in};

use all_rows::Ran;
use rules::{Outcome, Refusal, RowTables, StateTables, System};

// The tables of the inequalities full of zeros, where none is worked.
fn clear_rows(rows: &mut RowTables)
    ensures same { SameRows rows.old rows.new }
    ensures zeros { (rows.new.tightened.now ≡ replicate (length rows.old.tightened.now) (pos 0)) ×
        (rows.new.used.now ≡ replicate (length rows.old.used.now) 0) }
{
    rows.tightened.fill(0);
    rows.used.fill(0);
}

// The run and the inequalities, on tables of the right lengths with all entries within the limit.
pub fn solve_good(
    system: System,
    equations: &[i64],
    inequalities: &[i64],
    state: &mut StateTables,
    conflict: &mut [i64],
    rows: &mut RowTables,
) -> Outcome
    requires size { (1 ≤ system.n) × (system.n ≤ 32) × (system.m ≤ 32) × (system.k ≤ 64) }
    requires lengths { CallLengths system equations.now inequalities.now state.old conflict.old rows.old }
    requires within { (all_within equations.now ≡ true) × (all_within inequalities.now ≡ true) }
    ensures same { SameTables state.old state.new × SameLengths state.old state.new × SameRows rows.old rows.new }
    ensures answer { answer_in result state.new conflict.new rows.new ≡
        after_run system.n system.m system.k (rows_of (suc system.n) system.k inequalities.now)
        (elimination_of system.n system.m (rows_of (suc system.n) system.m equations.now)) }
{
    match elimination::eliminate(equations, state, conflict, system.n, system.m) {
        Ran::Finished(steps) => {
            outcomes::with_inequalities(system, steps, inequalities, state, conflict, rows)
        }
        Ran::Conflict { row, steps } => {
            clear_rows(rows);
            Outcome::EquationConflict { row, steps }
        }
        Ran::Grown { row, steps } => {
            clear_rows(rows);
            Outcome::Refused(Refusal::TooLarge { row, steps })
        }
    }
}
