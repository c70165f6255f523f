// One row of a table worked on in place, with the others.
#![tactic(auto)]

ghost use Rattle.std.specs.Prelude.{◌≡◌, true, ◌+◌, ◌≤◌, ◌<◌, ◌*◌, ◌^◌, pos, neg_ℤ, nat_abs, ◌+ℤ◌, ◌*ℤ◌, length};
ghost use Rattle.whole.specs.Limit.{W};
ghost use Rattle.rows.specs.Row.{at, less, gathered, bounded, all_within};
ghost use Rattle.rows.specs.Table.{rows_of, row_at, set_row};

// a + c * b.
fn more_product(a: i64, c: i64, b: i64) -> i64
    requires { (nat_abs a ≤ 2 ^ 62) × (nat_abs c ≤ W) × (nat_abs b ≤ W) }
    ensures { result ≡ a +ℤ c *ℤ b }
{
    a + c * b
}

// The row gains c times another.
fn gain(row: &mut [i64], other: &[i64], c: i64)
    requires { (length other.now ≡ length row.old) × (nat_abs c ≤ W) × (bounded (2 ^ 62) row.old ≡ true) × (all_within other.now ≡ true) }
    ensures { row.new ≡ less row.old (neg_ℤ c) other.now }
{
    for (j, x) in row.iter_mut().enumerate() {
        *x = more_product(*x, c, other[j]);
    }
}

// Row k of the table gains c times row i, another row of it: the table is split in front of the later of the two, so that both are
// lent at once. Sums of up to 33 products pass through here.
fn add_row(table: &mut [i64], w: usize, k: usize, i: usize, c: i64)
    requires w_in_bounds { (k * w + w ≤ length table.old) × (i * w + w ≤ length table.old) × (i ≡ k → ⊥) }
    requires c_bound { (nat_abs c ≤ W) × (bounded (2 ^ 62) (row_at w k table.old) ≡ true) × (all_within (row_at w i table.old) ≡ true) }
    ensures { table.new ≡ set_row w k (less (row_at w k table.old) (neg_ℤ c) (row_at w i table.old)) table.old }
{
    let own = k * w;
    let another = i * w;
    if i < k {
        let (before, behind) = table.split_at_mut(own);
        gain(&mut behind[..w], &before[another..another + w], c);
    } else {
        let (before, behind) = table.split_at_mut(another);
        gain(&mut before[own..own + w], &behind[..w], c);
    }
}

// Each row of the table added to row k of it as often as its number in cs says, in place. A row with 0 there is left out, and row k is
// one of these: it changes on the way, so that it cannot be added to itself.
pub fn gather_in(table: &mut [i64], w: usize, k: usize, cs: &[i64])
    requires { (length table.old ≡ length cs.now * w) × (length cs.now ≤ 33) × (k < length cs.now) × (at cs.now k ≡ pos 0) ×
        (all_within cs.now ≡ true) × (all_within table.old ≡ true) }
    ensures { table.new ≡ set_row w k (gathered (row_at w k table.old) cs.now (rows_of w (length cs.now) table.old)) table.old }
{
    for (r, often) in cs.iter().enumerate() {
        if *often != 0 {
            add_row(table, w, k, r, *often);
        }
    }
}
