// A row and a multiple of another: what is left of it, and whether that is within the limit.
#![tactic(auto)]

ghost use Rattle.std.specs.Prelude.{◌≡◌, true, ◌+◌, ◌*◌, ◌≤◌, ◌^◌, nat_abs, ◌*ℤ◌, ◌-ℤ◌, length};
ghost use Rattle.std.specs.Int.Signed.{non_neg};
ghost use Rattle.whole.specs.Limit.{W, within};
ghost use Rattle.rows.specs.Row.{less, scaled, all_within, bounded};

// p * a.
pub fn product(p: i64, a: i64) -> i64
    requires { (nat_abs p ≤ W) × (nat_abs a ≤ W) }
    ensures { result ≡ p *ℤ a }
{
    p * a
}

// a - q * b.
fn less_product(a: i64, q: i64, b: i64) -> i64
    requires { (nat_abs a ≤ 2 ^ 62) × (nat_abs q ≤ W) × (nat_abs b ≤ W) }
    ensures { result ≡ a -ℤ q *ℤ b }
{
    a - q * b
}

// A number that is negative just where z is beyond the limit: one of the two here is then, and the | of both.
fn sides(z: i64) -> i64
    requires { nat_abs z ≤ 2 ^ 62 + W * W }
    ensures { non_neg result ≡ within z }
{
    (z + 268435455) | (268435455 - z)
}

// The row less q times another; whether all of it is then within the limit. Sums of up to 33 products pass through here. A
// comparison for each number is what takes long, so that their signs are collected and only the sign of them all is tested.
pub fn less_multiple(row: &mut [i64], other: &[i64], q: i64) -> bool
    requires { (length other.now ≡ length row.old) × (nat_abs q ≤ W) × (bounded (2 ^ 62) row.old ≡ true) × (all_within other.now ≡ true) }
    ensures row { row.new ≡ less row.old q other.now }
    ensures fits { result ≡ all_within (less row.old q other.now) }
{
    let mut signs: i64 = 0;
    for (i, a) in row.iter_mut().enumerate() {
        let z = less_product(*a, q, other[i]);
        signs |= sides(z);
        *a = z;
    }
    signs >= 0
}

// p times the row less q times another; whether all of it is then within the limit.
pub fn blend(row: &mut [i64], p: i64, other: &[i64], q: i64) -> bool
    requires { (length other.now ≡ length row.old) × (nat_abs p ≤ W) × (nat_abs q ≤ W) × (all_within row.old ≡ true) × (all_within other.now ≡ true) }
    ensures row { row.new ≡ less (scaled p row.old) q other.now }
    ensures fits { result ≡ all_within (less (scaled p row.old) q other.now) }
{
    let mut fits = true;
    for (i, a) in row.iter_mut().enumerate() {
        let z = less_product(product(p, *a), q, other[i]);
        fits &= whole::within(z);
        *a = z;
    }
    fits
}
