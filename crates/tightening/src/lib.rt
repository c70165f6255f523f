// The parts of the work on one inequality: the substitution put in, open columns, tightening.
#![tactic(auto)]

ghost use Rattle.std.specs.Prelude.{◌≡◌, true, suc, ◌≤◌, ◌*◌, length};
ghost use Rattle.rows.specs.Row.{all_within};
ghost use Rattle.rows.specs.Table.{rows_of};
ghost use Rattle.rules.specs.Inequalities.{sums as sums_of, only_open, tighten as tighten_of};

// The n+1 sums of an inequality.
pub fn sums_into(into: &mut [i64], inequality: &[i64], substitution: &[i64], n: usize)
    requires into_len { (length into.old ≡ suc n) × (length inequality.now ≡ suc n) × (length substitution.now ≡ n * suc n) × (n ≤ 32) }
    requires inequality_value { (all_within inequality.now ≡ true) × (all_within substitution.now ≡ true) }
    ensures { into.new ≡ sums_of n (rows_of (suc n) n substitution.now) inequality.now }
{
    copying::fill(into, 0);
    into[n] = inequality[n];
    tables::gather(into, &inequality[..n], substitution);
}

// Closed columns set to zero.
pub fn only_open(row: &mut [i64], marks: &[u8])
    requires { length row.old ≡ suc (length marks.now) }
    ensures { row.new ≡ only_open marks.now row.old }
{
    for (k, mark) in marks.iter().enumerate() {
        if *mark == 0 {
            row[k] = 0;
        }
    }
}

// The tightening of one row.
pub fn tighten(row: &mut [i64], n: usize)
    requires { (length row.old ≡ suc n) × (all_within row.old ≡ true) }
    ensures { row.new ≡ tighten_of n row.old }
{
    let g = rows::gcd_of(&row[..n]);
    let c = row[n];
    if g < 2 || whole::magnitude(c) % g == 0 {
        return;
    }
    let by = whole::signed(g);
    rows::divide(&mut row[..n], by);
    row[n] = whole::ceiling(c, by);
}
