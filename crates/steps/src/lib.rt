// Steps (a) and (d) on one row, with its multipliers and its divisor.
#![tactic(auto)]

ghost use Rattle.std.specs.Prelude.{◌≡◌, true, ◌≤◌, ◌<◌, ◌/◌, pos, length};
ghost use Rattle.whole.specs.Limit.{W};
ghost use Rattle.rows.specs.Row.{divided, all_within};
ghost use Rattle.rules.specs.Elimination.{shared, reduced, listed_a, corrected, listed_d};
ghost use Rattle.steps.specs.Shown.{tried, carry, kept_row, Divisor};

// The working tables of a run from the row in hand on: the rows, their multipliers and their divisors.
#[derive(Drop)]
pub struct WorkTables<'a> {
    pub rows: &'a mut [i64],
    pub multipliers: &'a mut [i64],
    pub divisors: &'a mut [u64],
}

// Multipliers and divisor brought to lowest terms together; the new divisor.
fn lowest_terms(multipliers: &mut [i64], d: u64) -> u64
    requires { (all_within multipliers.old ≡ true) × Divisor d }
    ensures { (result ≡ d / shared multipliers.old d) × (multipliers.new ≡ divided (pos (shared multipliers.old d)) multipliers.old) }
{
    // most divisors of a run are 1, and a 1 has nothing to share
    if d == 1 {
        return 1;
    }
    let g = whole::gcd(rows::gcd_of(multipliers), d);
    if g != 1 {
        rows::divide(multipliers, whole::signed(g));
    }
    whole::over(d, g)
}

// (a) where g is 2 or more: the row divided by g, its gcd; the divisor multiplied by g; lowest terms. The new divisor, or none where a listed
// number is beyond the limit.
pub fn reduce(row: &mut [i64], multipliers: &mut [i64], d: u64, g: u64) -> Option<u64>
    requires { (all_within row.old ≡ true) × (all_within multipliers.old ≡ true) × Divisor d × (2 ≤ g) × (g ≤ W) }
    ensures { kept_row result row.new multipliers.new ≡
        tried (all_within (listed_a g (carry row.old multipliers.old d))) (reduced g (carry row.old multipliers.old d)) }
{
    let product = d * g;
    if 268435455 < product {
        return None;
    }
    rows::divide(row, whole::signed(g));
    Some(lowest_terms(multipliers, product))
}

// (d) for one later row with divisor h: the coefficient at k is lost. The answer is as of (a).
pub fn correct(
    row: &mut [i64],
    multipliers: &mut [i64],
    h: u64,
    k: usize,
    d: u64,
    reason: &[i64],
) -> Option<u64>
    requires k_in_bounds { (k < length row.old) × (length reason.now ≡ length multipliers.old) × Divisor h × Divisor d }
    requires row_value { (all_within row.old ≡ true) × (all_within multipliers.old ≡ true) × (all_within reason.now ≡ true) }
    ensures { kept_row result row.new multipliers.new ≡
        tried (all_within (listed_d k d reason.now (carry row.old multipliers.old h))) (corrected k d reason.now (carry row.old multipliers.old h)) }
{
    let b = row[k];
    if b == 0 {
        return Some(h);
    }
    let e = whole::gcd(h, d);
    let share = whole::over(d, e);
    let f = multiples::product(b, whole::signed(whole::over(h, e)));
    let product = h * share;
    if 268435455 < product || !whole::within(f) {
        return None;
    }
    row[k] = 0;
    if !multiples::blend(multipliers, whole::signed(share), reason, f) {
        return None;
    }
    Some(lowest_terms(multipliers, product))
}
