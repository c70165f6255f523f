// The multiplier checker: whether the multipliers show that no whole numbers satisfy the equations, whoever made them.
#![tactic(auto)]

ghost use Rattle.std.specs.Prelude.{◌≡◌, true, suc, ◌≤◌, ◌*◌, nat_abs, length};
ghost use Rattle.whole.specs.Gcd.{divides as divides_of};
ghost use Rattle.rows.specs.Row.{bounded, all_within};
ghost use Rattle.rows.specs.Table.{rows_of};
ghost use Rattle.rules.specs.declared.Refusal.TheVariants.{BadEntry};
ghost use Rattle.rules.specs.declared.Table.TheVariants.{Multipliers};
ghost use Rattle.rules.specs.Checker.{divides_all, refutes as refutes_of, judged, check as check_of};

use rules::{Refusal, Table};

// 2 ^ 56
const LARGEST_D: i64 = 72057594037927936;

// Whether d divides z; 0 divides only 0.
fn divides(d: u64, z: i64) -> bool
    requires { nat_abs z ≤ 9223372036854775807 }
    ensures { result ≡ divides_of d z }
{
    let size = whole::magnitude(z);
    if d == 0 {
        return size == 0;
    }
    size % d == 0
}

// Whether d divides every number of the row.
fn divides_all(d: u64, row: &[i64]) -> bool
    requires { bounded 9223372036854775807 row.now ≡ true }
    ensures { result ≡ divides_all d row.now }
{
    for z in row {
        if !divides(d, *z) {
            return false;
        }
    }
    true
}

// Refusal 3 for a multiplier, or for D.
fn bad_multiplier(column: usize) -> Refusal
    ensures { result ≡ BadEntry Multipliers 1 column }
{
    Refusal::BadEntry {
        table: Table::Multipliers,
        row: 1,
        column,
    }
}

// Whether D divides each combined coefficient, and not the combined constant.
fn refutes(n: usize, m: usize, multipliers: &[i64], d: u64, equations: &[i64]) -> bool
    requires m { (n ≤ 32) × (m ≤ 32) × (length multipliers.now ≡ m) × (length equations.now ≡ m * suc n) }
    requires within { (all_within multipliers.now ≡ true) × (all_within equations.now ≡ true) }
    ensures { result ≡ refutes_of n multipliers.now d (rows_of (suc n) m equations.now) }
{
    let w = n + 1;
    let mut room = [0i64; 33];
    let row = &mut room[..w];
    tables::gather(row, multipliers, equations);
    let constant = row[n];
    !divides(d, constant) && divides_all(d, &row[..n])
}

// The judgement on tables of the right lengths and equations within the limit.
fn judge(n: usize, m: usize, equations: &[i64], table: &[i64]) -> Result<bool, Refusal>
    requires le_n { (1 ≤ n) × (n ≤ 32) × (m ≤ 32) × (length equations.now ≡ m * suc n) × (length table.now ≡ suc m) }
    requires equations_value { all_within equations.now ≡ true }
    ensures { result ≡ judged n m equations.now table.now }
{
    let multipliers = &table[..m];
    if let Some(bad) = rows::first_beyond(multipliers) {
        return Err(bad_multiplier(bad + 1));
    }
    let d = table[m];
    if d < 0 || LARGEST_D < d {
        return Err(bad_multiplier(m + 1));
    }
    Ok(refutes(n, m, multipliers, whole::magnitude(d), equations))
}

// Yes, no, or a refusal, on every input.
pub fn check(n: usize, m: usize, equations: &[i64], table: &[i64]) -> Result<bool, Refusal>
    ensures { result ≡ check_of n m equations.now table.now }
{
    if !limits::in_range(n, m, 0) {
        return Err(Refusal::OutOfRange);
    }
    let w = n + 1;
    if equations.len() != m * w || table.len() != m + 1 {
        return Err(Refusal::WrongLength);
    }
    limits::check_table(w, Table::Equations, equations)?;
    judge(n, m, equations, table)
}
