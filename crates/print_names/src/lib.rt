// The line after `unsat`: the names in use.
#![tactic(auto)]

ghost use Rattle.std.specs.Prelude.{◌≡◌, ◌∷◌};
ghost use Rattle.matrix.specs.Printed.{decimal, used_names, names_of_multipliers, names_of_row, names_of_rows};
ghost use Rattle.print_numbers.specs.Shown.{Prints};

use print_numbers::Page;

// A letter and a number.
fn put_name(page: &mut Page, letter: u8, number: usize)
    ensures { Prints page.old page.new (letter ∷ decimal number) }
{
    page.put_byte(letter);
    page.put_number(number as u64);
}

// The equations with non-zero multipliers.
pub fn names_of_multipliers(page: &mut Page, multipliers: &[i64])
    ensures { Prints page.old page.new (names_of_multipliers multipliers.now) }
{
    let mut before = b'(';
    for (i, z) in multipliers.iter().enumerate() {
        if *z != 0 {
            page.put_byte(before);
            put_name(page, b'e', i + 1);
            before = b' ';
        }
    }
    page.put_bytes(b")\n");
}

// The equations in either set, each with a space behind it.
fn used_names(page: &mut Page, m: usize, mut one: u64, mut other: u64)
    ensures { Prints page.old page.new (used_names 1 m one other) }
{
    for i in 0..m {
        if one % 2 == 1 || other % 2 == 1 {
            put_name(page, b'e', i + 1);
            page.put_byte(b' ');
        }
        one /= 2;
        other /= 2;
    }
}

// What one row in conflict uses, and the row.
pub fn names_of_row(page: &mut Page, m: usize, i: usize, used: u64)
    ensures { Prints page.old page.new (names_of_row m i used) }
{
    page.put_byte(b'(');
    used_names(page, m, used, 0);
    put_name(page, b'i', i);
    page.put_bytes(b")\n");
}

// What two rows in conflict use, and the rows.
pub fn names_of_rows(page: &mut Page, m: usize, i: usize, j: usize, one: u64, other: u64)
    ensures { Prints page.old page.new (names_of_rows m i j one other) }
{
    page.put_byte(b'(');
    used_names(page, m, one, other);
    put_name(page, b'i', i);
    page.put_byte(b' ');
    put_name(page, b'i', j);
    page.put_bytes(b")\n");
}
