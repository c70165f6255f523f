// An answer as five numbers in a lent array: its kind, then its values, zeros behind.
#![tactic(auto)]

ghost use Rattle.std.specs.Prelude.{◌≡◌, ◌≤◌, ℕ, List, [], ◌∷◌, length, take};
ghost use Rattle.numbers.specs.Numbers.{five};
ghost use Rattle.rules.specs.Numbers.{table_number, of_refusal, of_outcome, of_verdict, of_reading};

use rules::{Outcome, Refusal, System, Table};
use std::marker::Model;

// What a refusal carries: its number, then its fields, and zeros behind.
#[derive(Clone, Copy)]
pub struct Carried {
    numbers: [usize; 4],
    count: usize,
}

impl Model for Carried {
    ghost use Rattle.std.specs.Prelude.{◌≡◌, ◌≤◌, ◌-◌, ◌++◌, ℕ, List, length, take, drop, replicate};
    ghost use Rattle.std.proofs.Common.{ap, sym, ◌∙◌, take-append-drop, length-take-le};

    ghost Value = { List ℕ };

    ghost view = { λ carried. take carried.count carried.numbers };

    ghost invariant = { λ carried. (carried.count ≤ length carried.numbers) × (length carried.numbers ≡ 4) ×
        (drop carried.count carried.numbers ≡ replicate (4 - carried.count) 0) };

    ghost inverse = { λ l. record { numbers = l ++ replicate (4 - length l) 0; count = length l } };

    ghost inverse_ok = { λ carried holds i.
        let counted = length-take-le carried.count carried.numbers holds.0 in
        let behind = ap (λ k. replicate (4 - k) 0) counted ∙ sym holds.2 in
        let whole = ap (λ l. take carried.count carried.numbers ++ l) behind ∙ take-append-drop carried.count carried.numbers in
        record { numbers = whole i; count = counted i } };
}

impl Carried {
    fn new(numbers: &[usize]) -> Carried
        requires { length numbers.now ≤ 4 }
        ensures { result ≡ numbers.now }
    {
        let mut four = [0; 4];
        four[..numbers.len()].copy_from_slice(numbers);
        Carried {
            numbers: four,
            count: numbers.len(),
        }
    }

    pub fn as_slice(&self) -> &[usize]
        ensures value { result.now ≡ self.now }
        ensures few { length result.now ≤ 4 }
    {
        &self.numbers[..self.count]
    }
}

// The number of a table.
fn table_number(table: Table) -> usize
    ensures { result ≡ table_number table }
{
    match table {
        Table::Equations => 0,
        Table::Inequalities => 1,
        Table::Multipliers => 2,
    }
}

// The one place where a refusal gets its number.
impl From<Refusal> for Carried {
    ghost from_gives = { λ refusal carried. carried ≡ of_refusal refusal };

    #[tactic(auto, unfolding(rules::specs::Numbers::of_refusal))]
    fn from(refusal: Refusal) -> Carried {
        match refusal {
            Refusal::OutOfRange => Carried::new(&[1]),
            Refusal::WrongLength => Carried::new(&[2]),
            Refusal::BadEntry { table, row, column } => Carried::new(&[
                3,
                table_number(table),
                row,
                column,
            ]),
            Refusal::TooLarge { row, steps } => Carried::new(&[4, row, steps]),
            Refusal::LargeSum { inequality } => Carried::new(&[5, inequality]),
            Refusal::Malformed { place } => Carried::new(&[6, place]),
            Refusal::LongText => Carried::new(&[7]),
        }
    }
}

// A kind, its values, and zeros behind.
fn put_values(into: &mut [u64], kind: u64, values: &[usize])
    requires { (length into.old ≡ 5) × (length values.now ≤ 4) }
    ensures { into.new ≡ five (kind ∷ values.now) }
{
    into.fill(0);
    into[0] = kind;
    for (i, value) in values.iter().enumerate() {
        into[i + 1] = *value as u64;
    }
}

fn put_refusal(into: &mut [u64], refusal: Refusal)
    requires { length into.old ≡ 5 }
    ensures { into.new ≡ five (4 ∷ of_refusal refusal) }
{
    put_values(into, 4, Carried::from(refusal).as_slice())
}

#[tactic(auto, unfolding(rules::specs::Numbers::of_outcome))]
pub fn put_outcome(into: &mut [u64], outcome: Outcome)
    requires { length into.old ≡ 5 }
    ensures { into.new ≡ five (of_outcome outcome) }
{
    match outcome {
        Outcome::Open { steps } => put_values(into, 0, &[steps]),
        Outcome::EquationConflict { row, steps } => put_values(into, 1, &[row, steps]),
        Outcome::OneRowConflict { i, steps } => put_values(into, 2, &[i, steps]),
        Outcome::TwoRowConflict { i, j, steps } => put_values(into, 3, &[i, j, steps]),
        Outcome::Refused(refusal) => put_refusal(into, refusal),
    }
}

#[tactic(auto, unfolding(rules::specs::Numbers::of_verdict))]
pub fn put_verdict(into: &mut [u64], verdict: Result<bool, Refusal>)
    requires { length into.old ≡ 5 }
    ensures { into.new ≡ five (of_verdict verdict) }
{
    match verdict {
        Ok(false) => put_values(into, 0, &[]),
        Ok(true) => put_values(into, 1, &[]),
        Err(refusal) => put_refusal(into, refusal),
    }
}

#[tactic(auto, unfolding(rules::specs::Numbers::of_reading))]
pub fn put_reading(into: &mut [u64], reading: Result<System, Refusal>)
    requires { length into.old ≡ 5 }
    ensures { into.new ≡ five (of_reading reading) }
{
    match reading {
        Ok(System { n, m, k }) => put_values(into, 0, &[n, m, k]),
        Err(refusal) => put_refusal(into, refusal),
    }
}
