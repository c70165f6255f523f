// The work on one row: (a) and (b), then its steps.
#![tactic(auto)]

ghost use Rattle.std.specs.Prelude.{◌≡◌, ◌≤◌, length};
ghost use Rattle.rows.specs.Row.{all_within};
ghost use Rattle.rules.specs.Elimination.{work as work_of};
ghost use Rattle.rules.specs.Lent.{SameTables, SameLengths};
ghost use Rattle.stepping.specs.Worked.{WorkReady, StateReady, hand_now, later_now, state_now, answer_now};
ghost use Rattle.steps.specs.Shown.{SameWork};

use rules::StateTables;
use stepping::Working;
use steps::WorkTables;

// (a) to (d) for the first row of the working tables.
pub fn work(
    work: &mut WorkTables,
    state: &mut StateTables,
    n: usize,
    m: usize,
    before: usize,
) -> Working
    requires ready { WorkReady n m work.old × StateReady n m state.old }
    requires in_bounds { (1 ≤ length work.old.divisors.now) × (before ≤ 1000000) }
    ensures made { answer_now result n m work.new state.new ≡
        work_of all_within n (hand_now n m work.old) (later_now n m work.old) (state_now n m state.old before) }
    ensures same { SameWork work.old work.new × SameTables state.old state.new × SameLengths state.old state.new }
{
    let rows = &mut *work.rows;
    let c = rows::gcd_of(&rows[..n]);
    let z = rows[n];
    let g = whole::gcd(whole::magnitude(z), c);
    if g == 0 {
        return Working::Passed(before);
    }
    if 1 < g {
        let w = n + 1;
        let rows = &mut *work.rows;
        let multipliers = &mut *work.multipliers;
        let divisors = &mut *work.divisors;
        let Some(d) = steps::reduce(&mut rows[..w], &mut multipliers[..m], divisors[0], g) else {
            return Working::Large(before);
        };
        divisors[0] = d;
    }
    // (a) has divided the gcd of the coefficients with them
    let left = whole::over(c, g);
    if left != 1 {
        return Working::Unmet {
            d: work.divisors[0] * left,
            steps: before,
        };
    }
    stepping::stepping(work, state, n, m, before)
}
