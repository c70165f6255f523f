// Bytes and numbers, printed on a lent page.
#![tactic(auto)]

ghost use Rattle.std.specs.Prelude.{◌≡◌, [], ◌∷◌, pos};
ghost use Rattle.std.specs.Int.Signed.{lt_z};
ghost use Rattle.matrix.specs.Printed.{decimal_in, decimal, turned, spaced, spaced_fields};
ghost use Rattle.print_numbers.specs.Shown.{Prints};

// A lent page and the place of the next byte. What finds no room is left out.
#[derive(Drop)]
pub struct Page<'a> {
    pub cells: &'a mut [u8],
    pub place: usize,
}

impl Page<'_> {
    pub fn put_byte(&mut self, b: u8)
        ensures { Prints self.old self.new (b ∷ []) }
    {
        if self.place < self.cells.len() {
            self.cells[self.place] = b;
            self.place += 1;
        }
    }

    pub fn put_bytes(&mut self, bytes: &[u8])
        ensures { Prints self.old self.new bytes.now }
    {
        for b in bytes {
            self.put_byte(*b);
        }
    }

    // In so many places at most.
    fn put_digits(&mut self, x: u64, places: usize)
        ensures { Prints self.old self.new (decimal_in places x) }
    {
        if places == 0 {
            return;
        }
        if 10 <= x {
            self.put_digits(x / 10, places - 1);
        }
        self.put_byte(b'0' + (x % 10) as u8);
    }

    pub fn put_number(&mut self, x: u64)
        ensures { Prints self.old self.new (decimal x) }
    {
        self.put_digits(x, 20);
    }

    // A number, or its opposite, behind a space.
    pub fn put_spaced(&mut self, z: i64, opposite: bool)
        ensures { Prints self.old self.new (spaced (turned opposite z ∷ [])) }
    {
        self.put_byte(b' ');
        if below_zero(z, opposite) {
            self.put_byte(b'-');
        }
        self.put_number(z.unsigned_abs());
    }

    // A count behind a space.
    pub fn put_field(&mut self, x: usize)
        ensures { Prints self.old self.new (spaced_fields (x ∷ [])) }
    {
        self.put_byte(b' ');
        self.put_number(x as u64);
    }

    pub fn put_two_fields(&mut self, x: usize, y: usize)
        ensures { Prints self.old self.new (spaced_fields (x ∷ y ∷ [])) }
    {
        self.put_field(x);
        self.put_field(y);
    }
}

// Whether z, or its opposite, is below 0.
fn below_zero(z: i64, opposite: bool) -> bool
    ensures { result ≡ lt_z (turned opposite z) (pos 0) }
{
    if opposite { 0 < z } else { z < 0 }
}
