#![tactic(auto)]
// The test of an edge (000, formula 14) and the token reading (formula 15), on the counters.
// Bounds of counts stay in each `requires`: a type that held them all would ask more of a caller than each function asks.
// Chains go over 0, 1, .. n - 1 and not over a slice, as the rules are of a number (`loops/Chains`).
ghost use Rattle.std.specs.Prelude.{◌≡◌, ◌+◌, ◌%◌, ◌<◌};
ghost use Rattle.loops.specs.Choice.{at};
ghost use Rattle.counting.specs.Modular.{rounded_up, minus_modulo, finds, reading_printed};
ghost use Rattle.formula.specs.Lists.{SeatsOk, PlacedOk, CountedOk, FormulaOk, RaiseOk, raised_in, shares_in, earlier_in, b_in};

use plan::Plan;
use state::State;

// b(n) and b(m) of an edge from m to n.
#[derive(Clone, Copy)]
pub struct Ends {
    pub end: u32,
    pub source: u32,
}

// What the nodes of some order positions, from one on, add to a counter.
fn shares(plan: &Plan, c: usize, start: usize, seat: usize) -> u32
    requires { SeatsOk plan.now.order start seat }
    ensures { result ≡ shares_in plan.now.order plan.now.counter plan.now.increment c start seat }
{
    (0..seat)
        .map(|j| u32::from(plan.share_of(c, usize::from(plan.order[start + j]))))
        .sum()
}

// The increments to a node's counter by nodes earlier in its process round.
#[tactic(auto, unfolding(crate::specs::Lists::earlier_in, plan::specs::Tests::home_of), using(crate::specs::Placed::home_most, crate::specs::Placed::starts_before, crate::specs::Placed::seats_ok))]
fn earlier(plan: &Plan, x: usize) -> u32
    requires { PlacedOk plan.now.order plan.now.nodes plan.now.processes x }
    ensures { result ≡ earlier_in plan.now.order plan.now.lengths plan.now.counter plan.now.increment plan.now.nodes plan.now.processes x }
{
    let place = seats::order_position_of(plan, x);
    let start = plan.lengths_sum(plan.process_of_order_position(place));
    shares(plan, usize::from(plan.counter[x]), start, place - start)
}

// Addition modulo N.
fn plus_modulo(n: u32, a: u32, b: u32) -> u32
    requires { (0 < n) × (a + b < 4294967296) }
    ensures { result ≡ (a + b) % n }
{
    (a + b) % n
}

// Subtraction modulo N.
#[tactic(auto, unfolding(counting::specs::Modular::minus_modulo), using(std::proofs::lemmas::Nat::mod_below))]
fn minus_modulo(n: u32, a: u32, b: u32) -> u32
    requires { (0 < n) × (a + n < 4294967296) }
    ensures { (result ≡ minus_modulo n a b) × (result < n) }
{
    (a + (n - b % n)) % n
}

// Rounded up to a multiple of Q.
#[tactic(auto, unfolding(counting::specs::Modular::rounded_up), using(crate::proofs::Ceil::ceil_is))]
fn rounded_up(q: u32, i: u32) -> u32
    requires { (0 < q) × (i + q < 4294967296) }
    ensures { (result ≡ rounded_up q i) × (result < i + q) }
{
    q * i.div_ceil(q)
}

// b(x): the counter of x less the increments to that counter by nodes earlier in x's process round, modulo N.
#[tactic(auto, unfolding(crate::specs::Lists::b_in))]
pub fn b_of(plan: &Plan, state: &State, x: usize) -> u32
    requires { CountedOk plan.now.order plan.now.counter state.now.counters plan.now.nodes plan.now.processes plan.now.modulus x }
    ensures { (result ≡ b_in plan.now.order plan.now.lengths plan.now.counter plan.now.increment state.now.counters plan.now.nodes plan.now.processes plan.now.modulus x) × (result < plan.now.modulus) }
{
    let counter = usize::from(plan.counter[x]);
    minus_modulo(plan.modulus, state.counters[counter], earlier(plan, x))
}

// Found: rounded b(n) minus rounded b(m), modulo N, differs from Q times the starting tokens, modulo N.
#[tactic(auto, unfolding(counting::specs::Modular::finds))]
pub fn is_found(q: u32, n: u32, tokens: u32, b: Ends) -> bool
    requires { FormulaOk q n tokens b.end b.source }
    ensures { result ≡ finds q n tokens b.end b.source }
{
    minus_modulo(n, rounded_up(q, b.end), rounded_up(q, b.source)) != q * tokens % n
}

// The reading: rounded b(m) minus rounded b(n), modulo N, divided by Q and rounded down, plus the starting tokens, modulo N.
#[tactic(auto, unfolding(counting::specs::Modular::reading_printed, counting::specs::Modular::reading_sum))]
pub fn reading(q: u32, n: u32, tokens: u32, b: Ends) -> u32
    requires { FormulaOk q n tokens b.source b.end }
    ensures { result ≡ reading_printed q n tokens b.source b.end }
{
    (minus_modulo(n, rounded_up(q, b.source), rounded_up(q, b.end)) / q + tokens) % n
}

// Adds a node's increment to its counter modulo N.
#[tactic(auto, unfolding(crate::specs::Lists::raised_in))]
pub fn raise(plan: &Plan, counters: &mut [u32; 64], v: usize)
    requires { RaiseOk plan.now.counter plan.now.increment counters.old plan.now.modulus v }
    ensures { counters.new ≡ raised_in plan.now.counter plan.now.increment counters.old plan.now.modulus v }
{
    let c = usize::from(plan.counter[v]);
    counters[c] = plus_modulo(plan.modulus, counters[c], u32::from(plan.increment[v]));
}
