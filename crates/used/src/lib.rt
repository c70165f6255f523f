// The set of the equations that an inequality used: those that the reasons of its closed columns name.
#![tactic(auto)]

ghost use Rattle.std.specs.Prelude.{◌≡◌, [], ℕ, suc, ◌≤◌, ◌<◌, ◌*◌, length, get_or};
ghost use Rattle.rules.specs.Inequalities.{used_by};
ghost use Rattle.used.specs.Carrying.{carries as carries_of, carrying as carrying_of, among};
ghost use Rattle.used.specs.Shown.{shown_state};

fn carries(mark: u8, sum: i64) -> bool
    ensures { result ≡ carries_of mark sum }
{
    mark == 0 && sum != 0
}

// The closed columns with a sum that is not 0, noted in the front of the lent buffer.
fn carrying<'a>(marks: &[u8], sums: &[i64], columns: &'a mut [usize; 32]) -> &'a [usize]
    requires { (length sums.now ≡ suc (length marks.now)) × (length marks.now ≤ 32) }
    ensures { result.now ≡ carrying_of 0 marks.now sums.now }
{
    let mut count = 0;
    for (p, mark) in marks.iter().enumerate() {
        if carries(*mark, sums[p]) {
            columns[count] = p;
            count += 1;
        }
    }
    &columns[..count]
}

// Whether one of the columns has equation j in its reason.
fn rests_on(columns: &[usize], reasons: &[i64], n: usize, m: usize, j: usize) -> bool
    requires { (length reasons.now ≡ n * suc m) × (j < m) × (m ≤ 32) × (n ≤ 32) × ((i : ℕ) → i < length columns.now → get_or columns.now i 0 < n) }
    ensures { result ≡ among (suc m) j reasons.now columns.now }
{
    let w = m + 1;
    for p in columns {
        if reasons[*p * w + j] != 0 {
            return true;
        }
    }
    false
}

// The equations used, bit j-1 for equation j.
pub fn used_by(marks: &[u8], reasons: &[i64], sums: &[i64], n: usize, m: usize) -> u64
    requires { (length marks.now ≡ n) × (length sums.now ≡ suc n) × (length reasons.now ≡ n * suc m) × (m ≤ 32) × (n ≤ 32) }
    ensures { result ≡ used_by m (shown_state n m [] marks.now reasons.now) sums.now }
{
    let mut buffer = [0usize; 32];
    let columns = carrying(marks, sums, &mut buffer);
    let mut set: u64 = 0;
    for j in (0..m).rev() {
        set *= 2;
        if rests_on(columns, reasons, n, m, j) {
            set += 1;
        }
    }
    set
}
