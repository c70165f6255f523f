// Step (d): a column closes, and every later row loses it.
#![tactic(auto)]

ghost use Rattle.std.specs.Prelude.{◌≡◌, true, suc, ◌≤◌, ◌<◌, ◌*◌, nat_abs, length};
ghost use Rattle.rows.specs.Row.{all_within};
ghost use Rattle.rules.specs.Lent.{SameTables, SameLengths};
ghost use Rattle.closing.specs.Shut.{corrected_of, shut_shown, shut_made};
ghost use Rattle.steps.specs.Shown.{tried, carried_of, Divisor, Divisors, SameWork};

use rules::StateTables;
use steps::WorkTables;

// (d) for all later rows, up to the first that is refused.
fn correct_later(
    rows: &mut [i64],
    multipliers: &mut [i64],
    divisors: &mut [u64],
    w: usize,
    k: usize,
    d: u64,
    reason: &[i64],
) -> bool
    requires rows_len { (length rows.old ≡ length divisors.old * w) × (length multipliers.old ≡ length divisors.old * length reason.now) ×
        (k < w) × Divisors divisors.old × Divisor d }
    requires rows_value { (all_within rows.old ≡ true) × (all_within multipliers.old ≡ true) × (all_within reason.now ≡ true) }
    ensures { tried result (carried_of w (length reason.now) rows.new multipliers.new divisors.new) ≡
        corrected_of k d reason.now (carried_of w (length reason.now) rows.old multipliers.old divisors.old) }
{
    let m = reason.len();
    for (r, h) in divisors.iter_mut().enumerate() {
        let a = r * w;
        let b = r * m;
        let row = &mut rows[a..a + w];
        let Some(next) = steps::correct(row, &mut multipliers[b..b + m], *h, k, d, reason) else {
            return false;
        };
        *h = next;
    }
    true
}

// (d) where the coefficient a of the first row at k is 1 or -1: the column closes, and every later row loses it.
pub fn close(
    work: &mut WorkTables,
    state: &mut StateTables,
    n: usize,
    m: usize,
    k: usize,
    a: i64,
) -> bool
    requires work_len { (length work.old.rows.now ≡ length work.old.divisors.now * suc n) ×
        (length work.old.multipliers.now ≡ length work.old.divisors.now * m) × (1 ≤ length work.old.divisors.now) }
    requires state_len { (length state.old.marks.now ≡ n) × (length state.old.reasons.now ≡ n * suc m) }
    requires n_bound { (n ≤ 32) × (m ≤ 32) × (k < n) × (nat_abs a ≤ 1) × Divisors work.old.divisors.now }
    requires work_value { (all_within work.old.rows.now ≡ true) × (all_within work.old.multipliers.now ≡ true) }
    ensures made { tried result (shut_shown n m work.new state.new) ≡ shut_made n m k a work.old state.old }
    ensures rest { (state.new.substitution.now ≡ state.old.substitution.now) × (state.new.way_back.now ≡ state.old.way_back.now) }
    ensures same { SameWork work.old work.new × SameTables state.old state.new × SameLengths state.old state.new }
{
    let w = n + 1;
    let rows = &mut *work.rows;
    let multipliers = &mut *work.multipliers;
    let divisors = &mut *work.divisors;
    let d = divisors[0];
    let mut reason = [0i64; 32];
    reasons::scale_into(&mut reason[..m], &multipliers[..m], a);
    if !correct_later(
        &mut rows[w..],
        &mut multipliers[m..],
        &mut divisors[1..],
        w,
        k,
        d,
        &reason[..m],
    ) {
        return false;
    }
    let marks = &mut *state.marks;
    let reasons = &mut *state.reasons;
    reasons::note_reason(marks, reasons, &reason[..m], k, d);
    true
}
