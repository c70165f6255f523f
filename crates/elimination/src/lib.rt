// The elimination run over lent tables.
#![tactic(auto)]

ghost use Rattle.std.specs.Prelude.{◌≡◌, true, suc, ◌≤◌, ◌*◌, length};
ghost use Rattle.rows.specs.Row.{all_within};
ghost use Rattle.rules.specs.Lent.{SameTables, SameLengths, StateLengths};
ghost use Rattle.elimination.specs.Eliminated.{EliminatedAs};

use all_rows::Ran;
use rules::StateTables;
use steps::WorkTables;

// The whole run in working tables that are lent, whatever they hold.
fn eliminate_in(
    work: &mut WorkTables,
    equations: &[i64],
    state: &mut StateTables,
    conflict: &mut [i64],
    n: usize,
    m: usize,
) -> Ran
    requires work_len { (length work.old.rows.now ≡ m * suc n) × (length work.old.multipliers.now ≡ m * m) × (length work.old.divisors.now ≡ m) }
    requires le_n { (1 ≤ n) × (n ≤ 32) × (m ≤ 32) × (length equations.now ≡ m * suc n) × (all_within equations.now ≡ true) }
    requires lent { StateLengths n m state.old × (length conflict.old ≡ suc m) }
    ensures run { EliminatedAs result n m equations.now state.new conflict.new }
    ensures same { SameTables state.old state.new × SameLengths state.old state.new }
{
    copying::copy(work.rows, equations);
    filling::units(work.multipliers, m, m);
    work.divisors.fill(1);
    filling::begin(state, n);
    match all_rows::in_order(work, state, conflict, n, m) {
        Ran::Finished(steps) => {
            conflict.fill(0);
            Ran::Finished(steps)
        }
        Ran::Conflict { row, steps } => {
            filling::clear_run(state);
            Ran::Conflict { row, steps }
        }
        Ran::Grown { row, steps } => {
            filling::clear_run(state);
            conflict.fill(0);
            Ran::Grown { row, steps }
        }
    }
}

// The whole run in a room of N numbers for the rows, and one for their multipliers.
fn eliminate_within<const N: usize>(
    equations: &[i64],
    state: &mut StateTables,
    conflict: &mut [i64],
    n: usize,
    m: usize,
) -> Ran
    requires room { (m * suc n ≤ N) × (m * m ≤ N) × (N ≤ 1056) }
    requires le_n { (1 ≤ n) × (n ≤ 32) × (m ≤ 32) × (length equations.now ≡ m * suc n) × (all_within equations.now ≡ true) }
    requires lent { StateLengths n m state.old × (length conflict.old ≡ suc m) }
    ensures run { EliminatedAs result n m equations.now state.new conflict.new }
    ensures same { SameTables state.old state.new × SameLengths state.old state.new }
{
    let mut rows = [0i64; N];
    let mut multipliers = [0i64; N];
    let mut divisors = [1u64; 32];
    let mut work = WorkTables {
        rows: &mut rows[..m * (n + 1)],
        multipliers: &mut multipliers[..m * m],
        divisors: &mut divisors[..m],
    };
    eliminate_in(&mut work, equations, state, conflict, n, m)
}

// The whole run over the equations; its tables hold what document 01 says of each answer. At most 8 equations in 16 unknowns have a small
// room: zeros all over the large one would take longer than a small run.
pub fn eliminate(
    equations: &[i64],
    state: &mut StateTables,
    conflict: &mut [i64],
    n: usize,
    m: usize,
) -> Ran
    requires le_n { (1 ≤ n) × (n ≤ 32) × (m ≤ 32) × (length equations.now ≡ m * suc n) × (all_within equations.now ≡ true) }
    requires lent { StateLengths n m state.old × (length conflict.old ≡ suc m) }
    ensures run { EliminatedAs result n m equations.now state.new conflict.new }
    ensures same { SameTables state.old state.new × SameLengths state.old state.new }
{
    if m <= 8 && n <= 16 {
        return eliminate_within::<136>(equations, state, conflict, n, m);
    }
    eliminate_within::<1056>(equations, state, conflict, n, m)
}
