// The outcome after a run that finished: the inequalities worked, then the two looks.
#![tactic(auto)]

ghost use Rattle.std.specs.Prelude.{◌≡◌, true, suc, ◌≤◌, ◌*◌, ◌/◌, pos, length, replicate};
ghost use Rattle.rows.specs.Row.{all_within};
ghost use Rattle.rows.specs.Table.{rows_of};
ghost use Rattle.rules.specs.Outcomes.{looked_at, with_inequalities as with_inequalities_of};
ghost use Rattle.rules.specs.Lent.{SameTables, SameLengths, SameRows, StateLengths, RowLengths};
ghost use Rattle.outcomes.specs.Answered.{answer_in};
ghost use Rattle.stepping.specs.Worked.{state_now};

use rules::{Outcome, Refusal, RowTables, StateTables, System};

// The two looks for a conflict among the tightened rows.
fn look(tightened: &[i64], n: usize, steps: usize) -> Outcome
    requires { (n ≤ 32) × (all_within tightened.now ≡ true) }
    ensures { let k = length tightened.now / suc n in result ≡ looked_at n 0 k steps (rows_of (suc n) k tightened.now) }
{
    if let Some(i) = looks::first_alone(tightened, n) {
        return Outcome::OneRowConflict { i, steps };
    }
    if let Some(pair) = looks::first_pair(tightened, n) {
        return Outcome::TwoRowConflict {
            i: pair.i,
            j: pair.j,
            steps,
        };
    }
    Outcome::Open { steps }
}

// The inequalities after a run that finished: all rows are worked before a conflict is looked for.
pub fn with_inequalities(
    system: System,
    steps: usize,
    inequalities: &[i64],
    state: &mut StateTables,
    conflict: &mut [i64],
    rows: &mut RowTables,
) -> Outcome
    requires size { (system.n ≤ 32) × (system.m ≤ 32) × (system.k ≤ 64) × (length inequalities.now ≡ system.k * suc system.n) }
    requires lengths { StateLengths system.n system.m state.old × RowLengths system.n system.k rows.old }
    requires values { (all_within inequalities.now ≡ true) × (all_within state.old.substitution.now ≡ true) ×
        (conflict.old ≡ replicate (suc system.m) (pos 0)) }
    ensures same { SameTables state.old state.new × SameLengths state.old state.new × SameRows rows.old rows.new }
    ensures answer { answer_in result state.new conflict.new rows.new ≡
        with_inequalities_of system.n system.m system.k (rows_of (suc system.n) system.k inequalities.now)
        (state_now system.n system.m state.old steps) }
{
    match inequalities::work_rows(rows, inequalities, state, system.n, system.m) {
        Ok(()) => {
            let tightened = &mut *rows.tightened;
            look(tightened, system.n, steps)
        }
        Err(inequality) => {
            filling::clear(state, conflict, rows);
            Outcome::Refused(Refusal::LargeSum { inequality })
        }
    }
}
