// The steps of one row: (c) and (d), again and again, for at most as many steps as its bound allows.
#![tactic(auto)]

ghost use Rattle.std.specs.Prelude.{◌≡◌, ◌≤◌, ◌<◌, nat_abs, length, take};
ghost use Rattle.whole.specs.Limit.{W};
ghost use Rattle.rows.specs.Row.{gcd_of};
ghost use Rattle.rules.specs.Elimination.{step_bound};
ghost use Rattle.rules.specs.Lent.{SameTables, SameLengths};
ghost use Rattle.stepping.specs.Worked.{steps_from, WorkReady, StateReady, hand_now, later_now, state_now, answer_now};
ghost use Rattle.steps.specs.Shown.{SameWork};

use rules::StateTables;
use steps::WorkTables;

// The answer of the work on a row: passed, with the steps so far; a conflict with its D; a listed number too large.
#[derive(Clone, Copy)]
pub enum Working {
    Passed(usize),
    Unmet { d: u64, steps: usize },
    Large(usize),
}

// The most steps that one row can take, from the bit length of its smallest coefficient.
fn most_steps(least: i64) -> usize
    requires { (0 < nat_abs least) × (nat_abs least ≤ W) }
    ensures { result ≡ step_bound (nat_abs least) }
{
    let bits = whole::bit_length(whole::magnitude(least));
    2 * (bits as usize) - 1
}

// (c) and (d), again and again.
pub fn stepping(
    work: &mut WorkTables,
    state: &mut StateTables,
    n: usize,
    m: usize,
    before: usize,
) -> Working
    requires ready { WorkReady n m work.old × StateReady n m state.old }
    requires in_bounds { (1 ≤ length work.old.divisors.now) × (0 < gcd_of (take n work.old.rows.now)) × (before ≤ 1000000) }
    ensures made { answer_now result n m work.new state.new ≡ steps_from n (hand_now n m work.old) (later_now n m work.old) (state_now n m state.old before) }
    ensures same { SameWork work.old work.new × SameTables state.old state.new × SameLengths state.old state.new }
{
    let rows = &mut *work.rows;
    let mut k = coefficients::smallest(&rows[..n]);
    let mut lead = rows[k];
    let mut count = before;
    for _ in 0..most_steps(lead) {
        let height = work.divisors.len();
        if !turning::turn(work.rows, height, state, n, k) {
            return Working::Large(count);
        }
        if whole::magnitude(lead) == 1 {
            if closing::close(work, state, n, m, k, lead) {
                return Working::Passed(count + 1);
            }
            return Working::Large(count);
        }
        let rows = &mut *work.rows;
        k = coefficients::smallest(&rows[..n]);
        lead = rows[k];
        count += 1;
    }
    Working::Large(count)
}
