// The first pass: whether the text is a system, or where it stops being one.
#![tactic(auto)]

ghost use Rattle.std.specs.Prelude.{◌≡◌, ◌≤◌, ◌⊎◌, length, true, false, IfOk, IfErr};
ghost use Rattle.matrix.specs.Machine.{begin as begin_of};
ghost use Rattle.matrix.specs.Reader.{is_dead, counts_fit, beyond as beyond_of, counted as counted_of, closed as closed_of, at_end, scan as scan_of};
ghost use Rattle.rules.specs.declared.Refusal.TheVariants.{OutOfRange, Malformed};
ghost use Rattle.machine.specs.Sound.{Sound};

use machine::step;
use matrix::{Machine, Phase};
use rules::{Refusal, System};

#[tactic(auto, unfolding(matrix::specs::Machine::begin))]
pub fn begin() -> Machine
    ensures { result ≡ begin_of }
{
    Machine {
        phase: Phase::Start,
        body: false,
        rows: 0,
        columns: 0,
        left: 0,
        digits: 0,
        value: 0,
        negative: false,
        inequality: false,
        equations: 0,
        inequalities: 0,
    }
}

fn counts_fit(rows: usize, columns: usize) -> bool
    ensures { result ≡ counts_fit rows columns }
{
    rows <= 96 && 3 <= columns && columns <= 34
}

// The header has just been read, or was read before, and its counts do not fit.
#[tactic(auto, unfolding(matrix::specs::Reader::beyond))]
fn beyond(m: Machine) -> bool
    ensures { result ≡ beyond_of m }
{
    m.phase == Phase::Start && m.body && !counts_fit(m.rows, m.columns)
}

// The system that a whole text says, if it has not too many rows of a kind.
#[tactic(auto, unfolding(matrix::specs::Reader::counted))]
fn counted(m: Machine) -> Result<System, Refusal>
    ensures { result ≡ counted_of m }
{
    if m.equations <= 32 && m.inequalities <= 64 {
        // the columns but the mark's and the constant's
        return Ok(System {
            n: m.columns.saturating_sub(2),
            m: m.equations,
            k: m.inequalities,
        });
    }
    Err(Refusal::OutOfRange)
}

// Refuses a text that is not well formed up to here, or whose header says counts that do not fit.
fn allowed(m: Machine, place: usize) -> Result<(), Refusal>
    ensures fits { IfOk result (λ _. (is_dead m.phase ≡ false) × (beyond_of m ≡ false)) }
    ensures refused { IfErr result (λ refusal.
        ((is_dead m.phase ≡ true) × (refusal ≡ Malformed place))
        ⊎ ((is_dead m.phase ≡ false) × (beyond_of m ≡ true) × (refusal ≡ OutOfRange))) }
{
    if m.phase == Phase::Dead {
        return Err(Refusal::Malformed { place });
    }
    if beyond(m) {
        return Err(Refusal::OutOfRange);
    }
    Ok(())
}

// The whole text is read and its last line ended.
#[tactic(auto, unfolding(matrix::specs::Reader::closed))]
fn closed(m: Machine, place: usize) -> Result<System, Refusal>
    ensures { result ≡ closed_of m place }
{
    allowed(m, place)?;
    if m.body && m.rows == 0 {
        return counted(m);
    }
    Err(Refusal::Malformed { place })
}

// The end of the text ends a line, but not one whose line feed is missing.
#[tactic(auto, using(machine::proofs::Kept::asked), unfolding(matrix::specs::Reader::at_end))]
fn at_end(m: Machine, place: usize) -> Result<System, Refusal>
    requires { Sound m place × (place ≤ 65536) }
    ensures { result ≡ at_end m place }
{
    if m.phase == Phase::Return {
        return Err(Refusal::Malformed { place });
    }
    closed(step(m, b'\n'), place)
}

#[tactic(auto, using(crate::proofs::Scanned::scanned))]
pub fn scan(text: &[u8]) -> Result<System, Refusal>
    requires { length text.now ≤ 65536 }
    ensures { result ≡ scan_of begin_of 0 text.now }
{
    let mut m = begin();
    for (place, b) in text.iter().enumerate() {
        m = step(m, *b);
        allowed(m, place)?;
    }
    at_end(m, text.len())
}
