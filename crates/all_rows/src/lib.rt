// The rows in order, up to the first that is in conflict or grows too large.
#![tactic(auto)]

ghost use Rattle.std.specs.Prelude.{◌≡◌, suc, ◌≤◌, length};
ghost use Rattle.rows.specs.Row.{all_within};
ghost use Rattle.rules.specs.Elimination.{in_order, work};
ghost use Rattle.rules.specs.Lent.{SameTables, SameLengths};
ghost use Rattle.all_rows.specs.Ran.{answer_over, ran_now, carried_now, EndsWithD};
ghost use Rattle.stepping.specs.Worked.{in_hand, state_now, Working3, WorkReady, StateReady};
ghost use Rattle.steps.specs.Shown.{SameWork, later_of};

use rules::StateTables;
use stepping::Working;
use steps::WorkTables;

// The answer of the run: finished with its steps, a conflict in a row, or a number that has grown too large.
#[derive(Clone, Copy)]
pub enum Ran {
    Finished(usize),
    Conflict { row: usize, steps: usize },
    Grown { row: usize, steps: usize },
}

// The work on the first row of these tables. What a value made of parts of slices leaves in them is not known to a proof, so that they become
// one value here, where each is a whole slice.
fn from_row(
    rows: &mut [i64],
    multipliers: &mut [i64],
    divisors: &mut [u64],
    state: &mut StateTables,
    n: usize,
    m: usize,
    before: usize,
) -> Working
    requires ready { Working3 n m rows.old multipliers.old divisors.old × StateReady n m state.old }
    requires in_bounds { (1 ≤ length divisors.old) × (before ≤ 1000000) }
    ensures made { answer_over result n m rows.new multipliers.new divisors.new state.new ≡
        work all_within n (in_hand n m rows.old multipliers.old divisors.old) (later_of n m rows.old multipliers.old divisors.old)
        (state_now n m state.old before) }
    ensures same { SameTables state.old state.new × SameLengths state.old state.new }
{
    let mut tables = WorkTables {
        rows,
        multipliers,
        divisors,
    };
    one_row::work(&mut tables, state, n, m, before)
}

// The rows in order, 1 to m. A conflict is written into its table.
pub fn in_order(
    work: &mut WorkTables,
    state: &mut StateTables,
    conflict: &mut [i64],
    n: usize,
    m: usize,
) -> Ran
    requires ready { WorkReady n m work.old × StateReady n m state.old }
    requires divisors_len { (length work.old.divisors.now ≡ m) × (length conflict.old ≡ suc m) }
    ensures run { ran_now result n m state.new conflict.new ≡ in_order all_within n m 1 (carried_now n m work.old) (state_now n m state.old 0) }
    ensures d { EndsWithD result m conflict.new }
    ensures same { SameTables state.old state.new × SameLengths state.old state.new × SameWork work.old work.new }
{
    let w = n + 1;
    let rows = &mut *work.rows;
    let multipliers = &mut *work.multipliers;
    let divisors = &mut *work.divisors;
    let mut steps = 0;
    for j in 0..m {
        let a = j * w;
        let b = j * m;
        let found = from_row(
            &mut rows[a..],
            &mut multipliers[b..],
            &mut divisors[j..],
            state,
            n,
            m,
            steps,
        );
        match found {
            Working::Passed(next) => {
                steps = next;
            }
            Working::Unmet { d, steps: done } => {
                let of_row = &mut multipliers[b..b + m];
                copying::copy(&mut conflict[..m], of_row);
                conflict[m] = whole::signed(d);
                return Ran::Conflict {
                    row: j + 1,
                    steps: done,
                };
            }
            Working::Large(done) => {
                return Ran::Grown {
                    row: j + 1,
                    steps: done,
                };
            }
        }
    }
    Ran::Finished(steps)
}
