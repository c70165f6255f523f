// One call over lent tables: nothing has to be checked before it.
#![tactic(auto)]

ghost use Rattle.std.specs.Prelude.{◌≡◌, suc, ◌≤◌, ◌*◌, length};
ghost use Rattle.rules.specs.Lent.{SameTables, SameLengths, SameRows, CallLengths};
ghost use Rattle.rules.specs.Outcomes.{from_entries, solve as solve_of};
ghost use Rattle.solver.specs.Answered.{answer, answer_in, tables as tables_of, tables_in};

use rules::{Outcome, Refusal, RowTables, StateTables, System};

// Refusal 3 or the run, on tables of the right lengths.
fn solve_long(
    system: System,
    equations: &[i64],
    inequalities: &[i64],
    state: &mut StateTables,
    conflict: &mut [i64],
    rows: &mut RowTables,
) -> Outcome
    requires size { (1 ≤ system.n) × (system.n ≤ 32) × (system.m ≤ 32) × (system.k ≤ 64) }
    requires lengths { CallLengths system equations.now inequalities.now state.old conflict.old rows.old }
    ensures same { SameTables state.old state.new × SameLengths state.old state.new × SameRows rows.old rows.new }
    ensures answer { answer_in result state.new conflict.new rows.new ≡ from_entries system.n system.m system.k equations.now inequalities.now }
{
    match limits::check_entries(system.n, equations, inequalities) {
        Ok(()) => runs::solve_good(system, equations, inequalities, state, conflict, rows),
        Err(refusal) => {
            filling::clear(state, conflict, rows);
            Outcome::Refused(refusal)
        }
    }
}

// What document 01 answers, and the result tables as it fills them: on every input whatsoever.
pub fn solve_in(
    system: System,
    equations: &[i64],
    inequalities: &[i64],
    state: &mut StateTables,
    conflict: &mut [i64],
    rows: &mut RowTables,
) -> Outcome
    ensures same { SameTables state.old state.new × SameLengths state.old state.new × SameRows rows.old rows.new }
    ensures answer { answer_in result state.new conflict.new rows.new ≡
        solve_of system.n system.m system.k equations.now inequalities.now (tables_in state.old conflict.old rows.old) }
{
    if !limits::in_range(system.n, system.m, system.k) {
        return Outcome::Refused(Refusal::OutOfRange);
    }
    if !limits::right_lengths(system, equations, inequalities, state, conflict, rows) {
        return Outcome::Refused(Refusal::WrongLength);
    }
    solve_long(system, equations, inequalities, state, conflict, rows)
}

// The same, each number and table by itself.
pub fn solve(
    n: usize,
    m: usize,
    k: usize,
    equations: &[i64],
    inequalities: &[i64],
    substitution: &mut [i64],
    marks: &mut [u8],
    back: &mut [i64],
    reasons: &mut [i64],
    conflict: &mut [i64],
    tightened: &mut [i64],
    used: &mut [u64],
) -> Outcome
    ensures { answer result substitution.new marks.new back.new reasons.new conflict.new tightened.new used.new ≡
        solve_of n m k equations.now inequalities.now
        (tables_of substitution.old marks.old back.old reasons.old conflict.old tightened.old used.old) }
{
    let system = System { n, m, k };
    let mut state = StateTables {
        substitution,
        marks,
        way_back: back,
        reasons,
    };
    let mut rows = RowTables { tightened, used };
    solve_in(
        system,
        equations,
        inequalities,
        &mut state,
        conflict,
        &mut rows,
    )
}
