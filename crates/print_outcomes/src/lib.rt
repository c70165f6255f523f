// An outcome and its tables, printed. The response words are fixed byte strings.
#![tactic(auto)]

ghost use Rattle.std.specs.Prelude.{◌≡◌, [], ◌++◌, suc, ◌-◌, ◌≤◌, ◌*◌, length, get_or, take};
ghost use Rattle.matrix.specs.Poured.{page as page_of, written};
ghost use Rattle.matrix.specs.Printed.{unsat, open_word, names_of_multipliers, names_of_row, names_of_rows, solved_matrix, tightened_matrix, printed};
ghost use Rattle.outcomes.specs.Answered.{tables as tables_of};
ghost use Rattle.print_numbers.specs.Shown.{Prints};

use print_errors::put_error;
use print_matrices::{solved_matrix, tightened_matrix};
use print_names::{names_of_multipliers, names_of_row, names_of_rows};
use print_numbers::Page;
use rules::{Outcome, System};

// The equations that row i used, i counted from 1.
fn used_by(used: &[u64], i: usize) -> u64
    ensures { result ≡ get_or used.now (i - 1) 0 }
{
    used.get(i.saturating_sub(1)).copied().unwrap_or(0)
}

// Nothing more is known of an open system if it has inequalities.
fn put_open(page: &mut Page, k: usize)
    ensures { Prints page.old page.new (open_word k) }
{
    if k == 0 {
        page.put_bytes(b"sat\n");
    } else {
        page.put_bytes(b"unknown\n");
    }
}

#[tactic(auto, using(print_numbers::proofs::Printing::both))]
fn print_open(
    page: &mut Page,
    n: usize,
    k: usize,
    substitution: &[i64],
    marks: &[u8],
    tightened: &[i64],
)
    requires { (n ≤ 32) × (k ≤ 64) × (length substitution.now ≡ n * suc n) × (length marks.now ≡ n) × (length tightened.now ≡ k * suc n) }
    ensures { Prints page.old page.new (open_word k ++ (solved_matrix n marks.now substitution.now ++ tightened_matrix n k marks.now tightened.now)) }
{
    put_open(page, k);
    solved_matrix(page, n, marks, substitution);
    tightened_matrix(page, n, k, marks, tightened);
}

fn print_equations(page: &mut Page, m: usize, conflict: &[i64])
    requires { length conflict.now ≡ suc m }
    ensures { Prints page.old page.new (unsat ++ names_of_multipliers (take m conflict.now)) }
{
    page.put_bytes(b"unsat\n");
    names_of_multipliers(page, &conflict[..m]);
}

fn print_row(page: &mut Page, m: usize, i: usize, used: &[u64])
    requires { m ≤ 32 }
    ensures { Prints page.old page.new (unsat ++ names_of_row m i (get_or used.now (i - 1) 0)) }
{
    page.put_bytes(b"unsat\n");
    names_of_row(page, m, i, used_by(used, i));
}

fn print_rows(page: &mut Page, m: usize, i: usize, j: usize, used: &[u64])
    requires { m ≤ 32 }
    ensures { Prints page.old page.new (unsat ++ names_of_rows m i j (get_or used.now (i - 1) 0) (get_or used.now (j - 1) 0)) }
{
    page.put_bytes(b"unsat\n");
    names_of_rows(page, m, i, j, used_by(used, i), used_by(used, j));
}

// What is printed of an outcome and the result tables.
pub fn print(
    system: System,
    outcome: Outcome,
    substitution: &[i64],
    marks: &[u8],
    conflict: &[i64],
    tightened: &[i64],
    used: &[u64],
    page: &mut [u8],
) -> usize
    requires size { (system.n ≤ 32) × (system.m ≤ 32) × (system.k ≤ 64) }
    requires lengths { (length substitution.now ≡ system.n * suc system.n) × (length marks.now ≡ system.n) ×
        (length conflict.now ≡ suc system.m) × (length tightened.now ≡ system.k * suc system.n) }
    ensures { page_of page.new result ≡
        written (printed system.n system.m system.k outcome
        (tables_of substitution.now marks.now [] [] conflict.now tightened.now used.now)) (page_of page.old 0) }
{
    let System { n, m, k } = system;
    let mut sheet = Page {
        cells: page,
        place: 0,
    };
    match outcome {
        Outcome::Open { .. } => print_open(&mut sheet, n, k, substitution, marks, tightened),
        Outcome::EquationConflict { .. } => print_equations(&mut sheet, m, conflict),
        Outcome::OneRowConflict { i, .. } => print_row(&mut sheet, m, i, used),
        Outcome::TwoRowConflict { i, j, .. } => print_rows(&mut sheet, m, i, j, used),
        Outcome::Refused(refusal) => put_error(&mut sheet, refusal),
    }
    sheet.place
}
