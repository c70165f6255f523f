// The reader of PolyLib texts: every text and every pair of tables gets a reply.
#![tactic(auto)]

ghost use Rattle.std.specs.Prelude.{◌≡◌, ◌≤◌, length};
ghost use Rattle.rows.specs.Row.{zeros};
ghost use Rattle.matrix.specs.Machine.{begin};
ghost use Rattle.matrix.specs.Reader.{scan as scan_of, filled, reply, read as read_of};

mod entries;

use rules::{Refusal, System};

// A text that is not too long, into tables of zeros.
#[tactic(auto, unfolding(matrix::specs::Reader::filled))]
fn read_short(
    text: &[u8],
    equations: &mut [i64],
    inequalities: &mut [i64],
) -> Result<System, Refusal>
    requires { (length text.now ≤ 65536) × (equations.old ≡ zeros 1056) × (inequalities.old ≡ zeros 2112) }
    ensures { reply result equations.new inequalities.new ≡ filled (scan_of begin 0 text.now) text.now }
{
    let system = scanning::scan(text)?;
    entries::fill_rows(text, equations, false);
    entries::fill_rows(text, inequalities, true);
    Ok(system)
}

// The system that a text says, its rows at the front of the two tables, or why there is none.
#[tactic(auto, unfolding(matrix::specs::Reader::read))]
pub fn read(text: &[u8], equations: &mut [i64], inequalities: &mut [i64]) -> Result<System, Refusal>
    ensures { reply result equations.new inequalities.new ≡ read_of text.now equations.old inequalities.old }
{
    if equations.len() != 1056 || inequalities.len() != 2112 {
        return Err(Refusal::WrongLength);
    }
    copying::fill(equations, 0);
    copying::fill(inequalities, 0);
    if 65536 < text.len() {
        return Err(Refusal::LongText);
    }
    read_short(text, equations, inequalities)
}
