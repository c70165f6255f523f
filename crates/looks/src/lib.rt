// The two looks for a conflict among rows: one row that no numbers satisfy, two rows that stand against each other.
#![tactic(auto)]

ghost use Rattle.std.specs.Prelude.{◌≡◌, true, suc, ◌≤◌, ◌/◌, length};
ghost use Rattle.rows.specs.Row.{all_within};
ghost use Rattle.rows.specs.Table.{rows_of};
ghost use Rattle.rules.specs.Inequalities.{first_row, alone, against, first_pair};
ghost use Rattle.looks.specs.Found.{row_found, pair_found};

// Two rows in conflict, counting from 1.
#[derive(Clone, Copy)]
pub struct Pair {
    pub i: usize,
    pub j: usize,
}

// Whether a row has no coefficients and a constant above 0.
fn is_alone(row: &[i64], n: usize) -> bool
    requires { length row.now ≡ suc n }
    ensures { result ≡ alone n row.now }
{
    row[..n].iter().all(|z| *z == 0) && 0 < row[n]
}

// The lowest row that no numbers satisfy.
pub fn first_alone(table: &[i64], n: usize) -> Option<usize>
    requires { n ≤ 32 }
    ensures { result ≡ row_found (first_row (alone n) (rows_of (suc n) (length table.now / suc n) table.now)) }
{
    for (i, row) in table.chunks_exact(n + 1).enumerate() {
        if is_alone(row, n) {
            return Some(i + 1);
        }
    }
    None
}

// Whether two rows have opposite coefficients, not all zero, and constants that sum to more than 0.
fn are_against(row: &[i64], other: &[i64], n: usize) -> bool
    requires { (length row.now ≡ suc n) × (length other.now ≡ suc n) × (all_within row.now ≡ true) × (all_within other.now ≡ true) }
    ensures { result ≡ against n row.now other.now }
{
    row[n] + other[n] > 0
        && coefficients::opposites(&row[..n], &other[..n])
        && rows::gcd_of(&row[..n]) != 0
}

// The lowest row of the table that stands against the row.
fn first_against(row: &[i64], table: &[i64], n: usize) -> Option<usize>
    requires { (length row.now ≡ suc n) × (n ≤ 32) × (all_within row.now ≡ true) × (all_within table.now ≡ true) }
    ensures { result ≡ row_found (first_row (against n row.now) (rows_of (suc n) (length table.now / suc n) table.now)) }
{
    for (j, other) in table.chunks_exact(n + 1).enumerate() {
        if are_against(row, other, n) {
            return Some(j + 1);
        }
    }
    None
}

// The lowest pair of rows in conflict.
pub fn first_pair(table: &[i64], n: usize) -> Option<Pair>
    requires { (n ≤ 32) × (all_within table.now ≡ true) }
    ensures { result ≡ pair_found (first_pair n 1 (rows_of (suc n) (length table.now / suc n) table.now)) }
{
    let w = n + 1;
    for (i, row) in table.chunks_exact(w).enumerate() {
        if let Some(after) = first_against(row, &table[(i + 1) * w..], n) {
            return Some(Pair {
                i: i + 1,
                j: i + 1 + after,
            });
        }
    }
    None
}
