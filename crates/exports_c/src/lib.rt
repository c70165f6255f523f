// The library for other languages. A slice crosses as a pointer and a length; include/plassobine.h says it in C.
// Each function is that of `exports`, with its contract, under a name that C can call.
#![tactic(auto)]

ghost use Rattle.std.specs.Prelude.{◌≡◌};
ghost use Rattle.solver.specs.Answered.{tables as tables_of};
ghost use Rattle.exports.specs.Numbered.{returned, solved, checked, read_into};

#[unsafe(no_mangle)]
pub extern "C" fn plassobine_solve(
    n: usize,
    m: usize,
    k: usize,
    equations: &[i64],
    inequalities: &[i64],
    substitution: &mut [i64],
    marks: &mut [u8],
    back: &mut [i64],
    reasons: &mut [i64],
    conflict: &mut [i64],
    tightened: &mut [i64],
    used: &mut [u64],
    outcome: &mut [u64],
) -> u32
    ensures { returned result outcome.new (tables_of substitution.new marks.new back.new reasons.new conflict.new tightened.new used.new) ≡
        solved n m k equations.now inequalities.now
        (tables_of substitution.old marks.old back.old reasons.old conflict.old tightened.old used.old) outcome.old }
{
    exports::plassobine_solve(
        n,
        m,
        k,
        equations,
        inequalities,
        substitution,
        marks,
        back,
        reasons,
        conflict,
        tightened,
        used,
        outcome,
    )
}

#[unsafe(no_mangle)]
pub extern "C" fn plassobine_check(
    n: usize,
    m: usize,
    equations: &[i64],
    multipliers: &[i64],
    outcome: &mut [u64],
) -> u32
    ensures { returned result outcome.new tt ≡ checked n m equations.now multipliers.now outcome.old }
{
    exports::plassobine_check(n, m, equations, multipliers, outcome)
}

#[unsafe(no_mangle)]
pub extern "C" fn plassobine_read(
    text: &[u8],
    equations: &mut [i64],
    inequalities: &mut [i64],
    outcome: &mut [u64],
) -> u32
    ensures { returned result outcome.new (equations.new, inequalities.new) ≡ read_into text.now equations.old inequalities.old outcome.old }
{
    exports::plassobine_read(text, equations, inequalities, outcome)
}
