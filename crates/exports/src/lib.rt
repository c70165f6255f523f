// What other languages call, in numbers: `exports_c` hands these functions to C.
// Each function answers 1, or 0 where the array for the outcome does not hold five numbers: then nothing is written.
#![tactic(auto)]

ghost use Rattle.std.specs.Prelude.{◌≡◌};
ghost use Rattle.solver.specs.Answered.{tables as tables_of};
ghost use Rattle.exports.specs.Numbered.{returned, solved, checked, read_into};

pub fn plassobine_solve(
    n: usize,
    m: usize,
    k: usize,
    equations: &[i64],
    inequalities: &[i64],
    substitution: &mut [i64],
    marks: &mut [u8],
    back: &mut [i64],
    reasons: &mut [i64],
    conflict: &mut [i64],
    tightened: &mut [i64],
    used: &mut [u64],
    outcome: &mut [u64],
) -> u32
    ensures { returned result outcome.new (tables_of substitution.new marks.new back.new reasons.new conflict.new tightened.new used.new) ≡
        solved n m k equations.now inequalities.now
        (tables_of substitution.old marks.old back.old reasons.old conflict.old tightened.old used.old) outcome.old }
{
    if outcome.len() != 5 {
        return 0;
    }
    let answer = solver::solve(
        n,
        m,
        k,
        equations,
        inequalities,
        substitution,
        marks,
        back,
        reasons,
        conflict,
        tightened,
        used,
    );
    numbers::put_outcome(outcome, answer);
    1
}

pub fn plassobine_check(
    n: usize,
    m: usize,
    equations: &[i64],
    multipliers: &[i64],
    outcome: &mut [u64],
) -> u32
    ensures { returned result outcome.new tt ≡ checked n m equations.now multipliers.now outcome.old }
{
    if outcome.len() != 5 {
        return 0;
    }
    let verdict = checker::check(n, m, equations, multipliers);
    numbers::put_verdict(outcome, verdict);
    1
}

pub fn plassobine_read(
    text: &[u8],
    equations: &mut [i64],
    inequalities: &mut [i64],
    outcome: &mut [u64],
) -> u32
    ensures { returned result outcome.new (equations.new, inequalities.new) ≡ read_into text.now equations.old inequalities.old outcome.old }
{
    if outcome.len() != 5 {
        return 0;
    }
    let reading = reader::read(text, equations, inequalities);
    numbers::put_reading(outcome, reading);
    1
}
