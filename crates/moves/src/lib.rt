// What a byte can make of the machine.
#![tactic(auto)]

ghost use Rattle.std.specs.Prelude.{◌≡◌, ◌≤◌};
ghost use Rattle.matrix.specs.Machine.{in_phase, marked as marked_of, mark_of, first_number, next_number, after_minus, next_digit, minus_begins, line_ends};

use matrix::{Machine, Phase};

// The same but for the phase.
#[tactic(auto, unfolding(matrix::specs::Machine::in_phase))]
pub fn in_phase(m: Machine, phase: Phase) -> Machine
    ensures { result ≡ in_phase phase m }
{
    Machine { phase, ..m }
}

#[tactic(auto, unfolding(matrix::specs::Machine::marked))]
fn marked(m: Machine, inequality: bool) -> Machine
    requires { (m.equations ≤ 65536) × (m.inequalities ≤ 65536) }
    ensures { result ≡ marked_of inequality m }
{
    Machine {
        phase: Phase::Marked,
        rows: m.rows.saturating_sub(1),
        left: m.columns.saturating_sub(1),
        inequality,
        equations: m.equations + usize::from(!inequality),
        inequalities: m.inequalities + usize::from(inequality),
        ..m
    }
}

// A row begins by its mark: one byte, 0 or 1.
#[tactic(auto, unfolding(matrix::specs::Machine::mark_of))]
fn mark_of(m: Machine, d: usize) -> Machine
    requires { (m.equations ≤ 65536) × (m.inequalities ≤ 65536) }
    ensures { result ≡ mark_of d m }
{
    match d {
        0 => marked(m, false),
        1 => marked(m, true),
        _ => in_phase(m, Phase::Dead),
    }
}

// The first number of a line: a count of the header, or a mark.
#[tactic(auto, unfolding(matrix::specs::Machine::first_number, matrix::specs::Machine::first_count))]
pub fn first_number(m: Machine, d: usize) -> Machine
    requires { (m.equations ≤ 65536) × (m.inequalities ≤ 65536) }
    ensures { result ≡ first_number d m }
{
    if m.body {
        if m.rows == 0 {
            return in_phase(m, Phase::Dead);
        }
        return mark_of(m, d);
    }
    Machine {
        phase: Phase::Digits,
        left: 1,
        digits: 1,
        value: d,
        negative: false,
        ..m
    }
}

// A further number begins by a digit.
#[tactic(auto, unfolding(matrix::specs::Machine::next_number))]
pub fn next_number(m: Machine, d: usize) -> Machine
    ensures { result ≡ next_number d m }
{
    if m.left == 0 {
        return in_phase(m, Phase::Dead);
    }
    Machine {
        phase: Phase::Digits,
        rows: if m.body { m.rows } else { m.value },
        left: m.left - 1,
        digits: 1,
        value: d,
        negative: false,
        ..m
    }
}

#[tactic(auto, unfolding(matrix::specs::Machine::after_minus))]
pub fn after_minus(m: Machine, d: usize) -> Machine
    ensures { result ≡ after_minus d m }
{
    Machine {
        phase: Phase::Digits,
        digits: 1,
        value: d,
        ..m
    }
}

#[tactic(auto, unfolding(matrix::specs::Machine::next_digit))]
pub fn next_digit(m: Machine, d: usize) -> Machine
    requires { (m.value ≤ 10000000000) × (d ≤ 9) }
    ensures { result ≡ next_digit d m }
{
    if m.digits < 10 {
        return Machine {
            phase: Phase::Digits,
            digits: m.digits + 1,
            value: m.value * 10 + d,
            ..m
        };
    }
    in_phase(m, Phase::Dead)
}

// A minus begins a number of a row.
#[tactic(auto, unfolding(matrix::specs::Machine::minus_begins))]
pub fn minus_begins(m: Machine) -> Machine
    ensures { result ≡ minus_begins m }
{
    if !m.body || m.left == 0 {
        return in_phase(m, Phase::Dead);
    }
    Machine {
        phase: Phase::Signed,
        left: m.left - 1,
        negative: true,
        ..m
    }
}

// A header or row line ends, if none of its numbers is missing.
#[tactic(auto, unfolding(matrix::specs::Machine::line_ends))]
pub fn line_ends(m: Machine, phase: Phase) -> Machine
    ensures { result ≡ line_ends phase m }
{
    if m.left != 0 {
        return in_phase(m, Phase::Dead);
    }
    Machine {
        phase,
        body: true,
        columns: if m.body { m.columns } else { m.value },
        ..m
    }
}
