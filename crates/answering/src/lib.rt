// The answer to a text: read, solved and printed.
#![tactic(auto)]

ghost use Rattle.std.specs.Prelude.{◌≡◌, suc, ◌≤◌, ◌*◌, length};
ghost use Rattle.matrix.specs.Poured.{page as page_of, written};
ghost use Rattle.matrix.specs.Program.{answered, program};

use print_outcomes::print;
use rules::{RowTables, StateTables, System};

// Room for a table. A call settles what the tables hold, so only how long it is matters.
fn room<T: Copy, const N: usize>(filling: T) -> [T; N]
    ensures { N ≡ length result }
{
    [filling; N]
}

// A system within the limits, into result tables of its own.
fn print_system(system: System, equations: &[i64], inequalities: &[i64], page: &mut [u8]) -> usize
    requires size { (1 ≤ system.n) × (system.n ≤ 32) × (system.m ≤ 32) × (system.k ≤ 64) }
    requires lengths { (length equations.now ≡ system.m * suc system.n) × (length inequalities.now ≡ system.k * suc system.n) }
    ensures { page_of page.new result ≡ written (answered system.n system.m system.k equations.now inequalities.now) (page_of page.old 0) }
{
    let System { n, m, k } = system;
    let square = n * (n + 1);
    let reasons_size = n * (m + 1);
    let rows_size = k * (n + 1);
    let mut substitution = room::<i64, 1056>(0);
    let mut marks = room::<u8, 32>(0);
    let mut way_back = room::<i64, 1056>(0);
    let mut reasons = room::<i64, 1056>(0);
    let mut conflict = room::<i64, 33>(0);
    let mut tightened = room::<i64, 2112>(0);
    let mut used = room::<u64, 64>(0);
    let mut state = StateTables {
        substitution: &mut substitution[..square],
        marks: &mut marks[..n],
        way_back: &mut way_back[..square],
        reasons: &mut reasons[..reasons_size],
    };
    let mut rows = RowTables {
        tightened: &mut tightened[..rows_size],
        used: &mut used[..k],
    };
    let conflict = &mut conflict[..m + 1];
    let outcome = solver::solve_in(
        system,
        equations,
        inequalities,
        &mut state,
        conflict,
        &mut rows,
    );
    let StateTables {
        substitution,
        marks,
        ..
    } = state;
    let RowTables { tightened, used } = rows;
    print(
        system,
        outcome,
        substitution,
        marks,
        conflict,
        tightened,
        used,
        page,
    )
}

// The whole reply from the front of the page on, and how long it is. What finds no room is left out.
pub fn answer(text: &[u8], page: &mut [u8]) -> usize
    ensures { page_of page.new result ≡ written (program text.now) (page_of page.old 0) }
{
    let mut equations = room::<i64, 1056>(0);
    let mut inequalities = room::<i64, 2112>(0);
    match reader::read(text, &mut equations, &mut inequalities) {
        Ok(system) => print_system(
            system,
            &equations[..system.m * (system.n + 1)],
            &inequalities[..system.k * (system.n + 1)],
            page,
        ),
        Err(refusal) => print_errors::error(page, 0, refusal),
    }
}
