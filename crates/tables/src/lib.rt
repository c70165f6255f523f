// Tables of rows: one loop over the rows of a table each.
#![tactic(auto)]

ghost use Rattle.std.specs.Prelude.{◌≡◌, true, map, ◌≤◌, ◌<◌, ◌*◌, length};
ghost use Rattle.rows.specs.Row.{at, less, gathered, all_within};
ghost use Rattle.rows.specs.Table.{rows_of, flat};

// Each row of the table less q as often as its number at column k says; whether all of the table is then within the limit.
// A row with 0 there is left alone.
pub fn put_in(table: &mut [i64], count: usize, w: usize, k: usize, q: &[i64]) -> bool
    requires { (length table.old ≡ count * w) × (length q.now ≡ w) × (k < w) × (all_within table.old ≡ true) × (all_within q.now ≡ true) }
    ensures rows { table.new ≡ flat (map (λ row. less row (at row k) q.now) (rows_of w count table.old)) }
    ensures fits { result ≡ all_within (flat (map (λ row. less row (at row k) q.now) (rows_of w count table.old))) }
{
    let mut fits = true;
    for r in 0..count {
        let start = r * w;
        let row = &mut table[start..start + w];
        let b = row[k];
        if b != 0 {
            fits &= multiples::less_multiple(row, q, b);
        }
    }
    fits
}

// Each row of the table added to the row as often as its number in cs says. A row with 0 there is left out.
pub fn gather(row: &mut [i64], cs: &[i64], table: &[i64])
    requires { (length table.now ≡ length cs.now * length row.old) × (length cs.now ≤ 33) × (all_within row.old ≡ true) ×
        (all_within cs.now ≡ true) × (all_within table.now ≡ true) }
    ensures { row.new ≡ gathered row.old cs.now (rows_of (length row.old) (length cs.now) table.now) }
{
    let w = row.len();
    for (r, c) in cs.iter().enumerate() {
        if *c != 0 {
            let start = r * w;
            let _ = multiples::less_multiple(row, &table[start..start + w], -*c);
        }
    }
}
