// The coefficients of a row: the smallest, the quotients by it, and whether two rows are opposites.
#![tactic(auto)]

ghost use Rattle.std.specs.Prelude.{◌≡◌, ◌≤◌, true, length, pos, ◌≢◌, unsigned_abs};
ghost use Rattle.whole.specs.Limit.{W};
ghost use Rattle.rows.specs.Row.{smallest as smallest_of, quotients as quotients_of, opposite, all_within};

// The column of the non-zero number of smallest magnitude, the lowest on a tie: found from the last column to the first.
pub fn smallest(row: &[i64]) -> usize
    requires { all_within row.now ≡ true }
    ensures { result ≡ smallest_of row.now }
{
    let mut best = row.len();
    // the size of the number there less one: of a 0 that is the largest of all, so that a 0 is never taken
    let mut least: u64 = 268435455;
    for (i, z) in row.iter().enumerate().rev() {
        let less_one = whole::magnitude(*z).wrapping_sub(1);
        if less_one <= least {
            best = i;
            least = less_one;
        }
    }
    best
}

// The quotients of the row's numbers by a.
pub fn quotients(into: &mut [i64], row: &[i64], a: i64)
    requires { (length into.old ≡ length row.now) × (all_within row.now ≡ true) × (unsigned_abs a ≤ W) × (a ≢ pos 0) }
    ensures { into.new ≡ quotients_of a row.now }
{
    for (i, z) in row.iter().enumerate() {
        into[i] = whole::quotient(*z, a);
    }
}

// Whether two rows are exact opposites.
pub fn opposites(row: &[i64], other: &[i64]) -> bool
    requires { (all_within row.now ≡ true) × (all_within other.now ≡ true) }
    ensures { result ≡ opposite row.now other.now }
{
    row.len() == other.len() && row.iter().zip(other).all(|(a, b)| *a + *b == 0)
}
