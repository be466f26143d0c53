#![tactic(auto)]
// How many entries of a state's lists are out of range: positions, open flags and counters. Counts, as the rules count them
// (`state_fits`); their callers ask whether there are any.
ghost use Rattle.std.specs.Prelude.{List, ℕ, ◌≡◌, ◌<◌, ltb, leb};
ghost use Rattle.loops.specs.Choice.{at, if, one_if};
ghost use Rattle.loops.specs.Sum.{sum};
ghost use Rattle.ranges.specs.Range.{out_of_range, Gives};

use plan::Plan;
use state::State;

// Entry k is out of range: at or above its limit, or not 0 past the count.
#[tactic(auto, using(loops::specs::Choice::ifs))]
fn is_bad(count: u16, limit: u32, entry: u32, k: usize) -> bool
    ensures { result ≡ if (ltb k count) (leb limit entry) (ltb 0 entry) }
{
    if k < usize::from(count) {
        limit <= entry
    } else {
        0 < entry
    }
}

// How many of 64 entries are out of range, each given by its place, as its limit is. A chain's sum would have to know beforehand
// what the two give, so this is a `for`.
fn entries_bad<L: Fn(usize) -> u32, E: Fn(usize) -> u32>(count: u16, limit: L, entry: E) -> u32
    requires limit_given { (k : ℕ) → k < 64 → L.pre limit k }
    requires entry_given { (k : ℕ) → k < 64 → E.pre entry k }
    ensures { (limits : ℕ → ℕ) (entries : List ℕ) → Gives (L.post limit) limits → Gives (E.post entry) (at entries) → result ≡ sum (λ k. one_if (out_of_range limits count entries k)) 64 }
{
    let mut bad = 0;
    for k in 0..64 {
        bad += u32::from(is_bad(count, limit(k), entry(k), k));
    }
    bad
}

// How many positions are out of range: at or above their process's length, or not 0 past the processes.
pub fn positions_bad(plan: &Plan, state: &State) -> u32
    ensures { result ≡ sum (λ p. one_if (out_of_range (at plan.now.lengths) plan.now.processes state.now.positions p)) 64 }
{
    entries_bad(
        plan.processes,
        |p| u32::from(plan.lengths[p]),
        |p| u32::from(state.positions[p]),
    )
}

// How many open flags are out of range: above 1, or not 0 past the processes.
pub fn flags_bad(plan: &Plan, state: &State) -> u32
    ensures { result ≡ sum (λ p. one_if (out_of_range (λ k. 2) plan.now.processes state.now.opened p)) 64 }
{
    entries_bad(plan.processes, |_| 2, |p| u32::from(state.opened[p]))
}

// How many counters are out of range: at or above N, or not 0 past the counters.
pub fn counters_bad(plan: &Plan, state: &State) -> u32
    ensures { result ≡ sum (λ c. one_if (out_of_range (λ k. plan.now.modulus) plan.now.counters state.now.counters c)) 64 }
{
    entries_bad(plan.counters, |_| plan.modulus, |c| state.counters[c])
}
