// One byte: its class, and what it makes of the machine in each phase.
#![tactic(auto)]

ghost use Rattle.std.specs.Prelude.{◌≡◌, ◌≤◌};
ghost use Rattle.matrix.specs.Bytes.{class_of};
ghost use Rattle.matrix.specs.Machine.{on_digit, on_minus, on_blank, on_carriage_return, on_line_feed, on_comment_mark, on_other, step as step_of};

use matrix::{Class, Machine, Phase};
use moves::{
    after_minus, first_number, in_phase, line_ends, minus_begins, next_digit, next_number,
};

#[tactic(auto, unfolding(matrix::specs::Bytes::class_of))]
fn class_of(b: u8) -> Class
    ensures { result ≡ class_of b }
{
    match b {
        b'0'..=b'9' => Class::Digit(b - b'0'),
        b'-' => Class::Minus,
        b' ' | b'\t' => Class::Blank,
        b'\r' => Class::CarriageReturn,
        b'\n' => Class::LineFeed,
        b'#' => Class::CommentMark,
        _ => Class::Other,
    }
}

#[tactic(auto, unfolding(matrix::specs::Machine::on_digit))]
fn on_digit(m: Machine, d: usize) -> Machine
    requires { (m.equations ≤ 65536) × (m.inequalities ≤ 65536) × (m.value ≤ 10000000000) × (d ≤ 9) }
    ensures { result ≡ on_digit m.phase d m }
{
    match m.phase {
        Phase::Start | Phase::Lead => first_number(m, d),
        Phase::Signed => after_minus(m, d),
        Phase::Digits => next_digit(m, d),
        Phase::Gap => next_number(m, d),
        Phase::Comment | Phase::Dead => m,
        Phase::Marked | Phase::Return => in_phase(m, Phase::Dead),
    }
}

#[tactic(auto, unfolding(matrix::specs::Machine::on_minus))]
fn on_minus(m: Machine) -> Machine
    ensures { result ≡ on_minus m.phase m }
{
    match m.phase {
        Phase::Gap => minus_begins(m),
        Phase::Comment | Phase::Dead => m,
        _ => in_phase(m, Phase::Dead),
    }
}

#[tactic(auto, unfolding(matrix::specs::Machine::on_blank))]
fn on_blank(m: Machine) -> Machine
    ensures { result ≡ on_blank m.phase m }
{
    match m.phase {
        Phase::Start => in_phase(m, Phase::Lead),
        Phase::Marked | Phase::Digits => in_phase(m, Phase::Gap),
        Phase::Lead | Phase::Gap | Phase::Comment | Phase::Dead => m,
        Phase::Signed | Phase::Return => in_phase(m, Phase::Dead),
    }
}

#[tactic(auto, unfolding(matrix::specs::Machine::on_carriage_return))]
fn on_carriage_return(m: Machine) -> Machine
    ensures { result ≡ on_carriage_return m.phase m }
{
    match m.phase {
        Phase::Start | Phase::Lead => in_phase(m, Phase::Return),
        Phase::Marked | Phase::Digits | Phase::Gap => line_ends(m, Phase::Return),
        Phase::Comment | Phase::Dead => m,
        Phase::Signed | Phase::Return => in_phase(m, Phase::Dead),
    }
}

#[tactic(auto, unfolding(matrix::specs::Machine::on_line_feed))]
fn on_line_feed(m: Machine) -> Machine
    ensures { result ≡ on_line_feed m.phase m }
{
    match m.phase {
        Phase::Marked | Phase::Digits | Phase::Gap => line_ends(m, Phase::Start),
        Phase::Lead | Phase::Return | Phase::Comment => in_phase(m, Phase::Start),
        Phase::Start | Phase::Dead => m,
        Phase::Signed => in_phase(m, Phase::Dead),
    }
}

#[tactic(auto, unfolding(matrix::specs::Machine::on_comment_mark))]
fn on_comment_mark(m: Machine) -> Machine
    ensures { result ≡ on_comment_mark m.phase m }
{
    match m.phase {
        Phase::Start => in_phase(m, Phase::Comment),
        Phase::Comment | Phase::Dead => m,
        _ => in_phase(m, Phase::Dead),
    }
}

#[tactic(auto, unfolding(matrix::specs::Machine::on_other))]
fn on_other(m: Machine) -> Machine
    ensures { result ≡ on_other m.phase m }
{
    match m.phase {
        Phase::Comment | Phase::Dead => m,
        _ => in_phase(m, Phase::Dead),
    }
}

#[tactic(auto, unfolding(matrix::specs::Machine::step, matrix::specs::Machine::on_class))]
pub fn step(m: Machine, b: u8) -> Machine
    requires { (m.equations ≤ 65536) × (m.inequalities ≤ 65536) × (m.value ≤ 10000000000) }
    ensures { result ≡ step_of m b }
{
    match class_of(b) {
        Class::Digit(d) => on_digit(m, usize::from(d)),
        Class::Minus => on_minus(m),
        Class::Blank => on_blank(m),
        Class::CarriageReturn => on_carriage_return(m),
        Class::LineFeed => on_line_feed(m),
        Class::CommentMark => on_comment_mark(m),
        Class::Other => on_other(m),
    }
}
