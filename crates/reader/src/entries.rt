// The second pass, over a text that is a system: the numbers of the rows of one kind into their table.
ghost use Rattle.std.specs.Prelude.{cond, ◌≡◌, ◌≤◌, length};
ghost use Rattle.matrix.specs.Poured.{poured, page, put};
ghost use Rattle.matrix.specs.Reader.{entry_of, ends as ends_of, numbers_of};

use machine::step;
use matrix::{Machine, Phase};
use scanning::begin;

// A number of a row of this kind is in hand before a byte, and no number is after it.
#[tactic(auto, unfolding(matrix::specs::Reader::ends))]
fn ends(inequality: bool, m: Machine, next: Machine) -> bool
    ensures { result ≡ ends_of inequality m next }
{
    m.phase == Phase::Digits && next.phase != Phase::Digits && m.body && m.inequality == inequality
}

// The number in hand, as it enters its table.
fn entry_of(m: Machine) -> i64
    requires { m.value ≤ 10000000000 }
    ensures { result ≡ entry_of m }
{
    if m.negative == m.inequality {
        m.value as i64
    } else {
        -(m.value as i64)
    }
}

// A number of a row of this kind that ends before a byte enters the table. What is answered is the place of the next one.
#[tactic(auto, unfolding(matrix::specs::Poured::put, matrix::specs::Poured::page))]
fn enter(table: &mut [i64], place: usize, inequality: bool, m: Machine, next: Machine) -> usize
    requires { m.value ≤ 10000000000 }
    ensures { page table.new result ≡ cond (ends_of inequality m next) (put (entry_of m) (page table.old place)) (page table.old place) }
{
    if ends(inequality, m, next) && place < table.len() {
        table[place] = entry_of(m);
        return place + 1;
    }
    place
}

pub fn fill_rows(text: &[u8], table: &mut [i64], inequality: bool)
    requires { length text.now ≤ 65536 }
    ensures { table.new ≡ poured (numbers_of inequality text.now) table.old }
{
    let mut m = begin();
    let mut place = 0;
    for b in text {
        let next = step(m, *b);
        place = enter(table, place, inequality, m, next);
        m = next;
    }
    // the line feed that ends the last line
    enter(table, place, inequality, m, step(m, b'\n'));
}
