// Rows: one loop over the numbers of a row each.
#![tactic(auto)]

ghost use Rattle.std.specs.Prelude.{◌≡◌, true, pos, length};
ghost use Rattle.rows.specs.Row.{gcd_of, divided, all_within, first_beyond, found};

// The greatest common divisor of all numbers of the row.
pub fn gcd_of(row: &[i64]) -> u64
    requires { all_within row.now ≡ true }
    ensures { result ≡ gcd_of row.now }
{
    let mut g: u64 = 0;
    for z in row {
        g = whole::gcd(whole::magnitude(*z), g);
    }
    g
}

// The column of the first number beyond the limit.
pub fn first_beyond(row: &[i64]) -> Option<usize>
    ensures { result ≡ found (length row.now) (first_beyond row.now) }
{
    for (i, z) in row.iter().enumerate() {
        if !whole::within(*z) {
            return Some(i);
        }
    }
    None
}

// Whether all numbers of the row are within the limit.
pub fn all_within(row: &[i64]) -> bool
    ensures { result ≡ all_within row.now }
{
    row.iter().all(|z| whole::within(*z))
}

// The row divided by a number that divides all of it.
pub fn divide(row: &mut [i64], g: i64)
    requires { (all_within row.old ≡ true) × (g ≡ pos 0 → ⊥) }
    ensures { row.new ≡ divided g row.old }
{
    for z in row {
        *z = whole::exactly(*z, g);
    }
}
