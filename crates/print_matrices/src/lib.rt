// The two PolyLib matrices.
#![tactic(auto)]

ghost use Rattle.std.specs.Prelude.{◌≡◌, map, suc, ◌*◌, ◌≤◌, pos, neg_ℤ, length, set};
ghost use Rattle.rows.specs.Row.{zeros};
ghost use Rattle.matrix.specs.Printed.{turned, spaced, opened, open_columns, header_line, solved_line, tightened_line, solved_matrix, tightened_matrix};
ghost use Rattle.print_numbers.specs.Shown.{Prints};

use print_numbers::Page;

fn open_columns(marks: &[u8]) -> usize
    ensures count { result ≡ open_columns marks.now }
    ensures at_most { result ≤ length marks.now }
{
    marks.iter().filter(|mark| **mark != 0).count()
}

fn header_line(page: &mut Page, rows: usize, columns: usize)
    ensures { Prints page.old page.new (header_line rows columns) }
{
    page.put_number(rows as u64);
    page.put_field(columns);
    page.put_byte(b'\n');
}

// The entries of a row at open columns and its constant, or their opposites.
fn put_open(page: &mut Page, marks: &[u8], row: &[i64], opposite: bool)
    requires { length row.now ≡ suc (length marks.now) }
    ensures { Prints page.old page.new (spaced (map (turned opposite) (opened marks.now row.now))) }
{
    for (mark, z) in marks.iter().zip(row) {
        if *mark != 0 {
            page.put_spaced(*z, opposite);
        }
    }
    page.put_spaced(row[marks.len()], opposite);
}

// -x_i among n columns.
fn put_minus_x(page: &mut Page, n: usize, i: usize)
    ensures { Prints page.old page.new (spaced (set (zeros n) i (neg_ℤ (pos 1)))) }
{
    for c in 0..n {
        let z = if c == i { -1 } else { 0 };
        page.put_spaced(z, false);
    }
}

// -x_i + row = 0.
fn solved_line(page: &mut Page, n: usize, i: usize, marks: &[u8], row: &[i64])
    requires { length row.now ≡ suc (length marks.now) }
    ensures { Prints page.old page.new (solved_line n marks.now i row.now) }
{
    page.put_byte(b'0');
    put_minus_x(page, n, i);
    put_open(page, marks, row, false);
    page.put_byte(b'\n');
}

// -x_i + substitution = 0, for every i.
pub fn solved_matrix(page: &mut Page, n: usize, marks: &[u8], substitution: &[i64])
    requires { (n ≤ 32) × (length marks.now ≡ n) × (length substitution.now ≡ n * suc n) }
    ensures { Prints page.old page.new (solved_matrix n marks.now substitution.now) }
{
    header_line(page, n, n + open_columns(marks) + 2);
    for (i, row) in substitution.chunks_exact(n + 1).enumerate() {
        solved_line(page, n, i, marks, row);
    }
}

// A tightened row, negated back.
fn tightened_line(page: &mut Page, marks: &[u8], row: &[i64])
    requires { length row.now ≡ suc (length marks.now) }
    ensures { Prints page.old page.new (tightened_line marks.now row.now) }
{
    page.put_byte(b'1');
    put_open(page, marks, row, true);
    page.put_byte(b'\n');
}

// The tightened rows, negated back.
pub fn tightened_matrix(page: &mut Page, n: usize, k: usize, marks: &[u8], tightened: &[i64])
    requires { (n ≤ 32) × (length marks.now ≡ n) × (length tightened.now ≡ k * suc n) }
    ensures { Prints page.old page.new (tightened_matrix n k marks.now tightened.now) }
{
    header_line(page, k, open_columns(marks) + 2);
    for row in tightened.chunks_exact(n + 1) {
        tightened_line(page, marks, row);
    }
}
