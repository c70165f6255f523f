// The line of a refusal, over a page.
#![tactic(auto)]

ghost use Rattle.std.specs.Prelude.{◌≡◌};
ghost use Rattle.matrix.specs.Poured.{page as page_of, written};
ghost use Rattle.matrix.specs.Printed.{listed, error as error_of};
ghost use Rattle.print_numbers.specs.Shown.{Prints};

use numbers::Carried;
use print_numbers::Page;
use rules::Refusal;

// Numbers, a space between them.
fn put_listed(page: &mut Page, numbers: &[usize])
    ensures { Prints page.old page.new (listed numbers.now) }
{
    if let Some((number, fields)) = numbers.split_first() {
        page.put_number(*number as u64);
        for field in fields {
            page.put_field(*field);
        }
    }
}

// The line of a refusal.
pub fn put_error(page: &mut Page, refusal: Refusal)
    ensures { Prints page.old page.new (error_of refusal) }
{
    page.put_bytes(b"(error \"");
    let carried = Carried::from(refusal);
    put_listed(page, carried.as_slice());
    page.put_bytes(b"\")\n");
}

// The same from a place of a lent page on; the answer is the place behind it.
pub fn error(out: &mut [u8], place: usize, refusal: Refusal) -> usize
    ensures { page_of out.new result ≡ written (error_of refusal) (page_of out.old place) }
{
    let mut page = Page { cells: out, place };
    put_error(&mut page, refusal);
    page.place
}
