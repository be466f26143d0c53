#![tactic(auto)]
// Tests 9 to 12 of a plan, which is lent: process edges; each counter's nodes in one process; increments; sums of increments.
// Chains go over 0, 1, .. n - 1 and not over a slice, as the rules are of a number (`loops/Chains`); `crossing` goes beside
// a plan, as it carries no fact: a struct of both would be built for one call.
// Bounds of counts stay in each `requires`: a type that held them all would ask more of a caller than each function asks. So does
// that a position is one of a process (`i < base ..`), which is of a position and a plan.
ghost use Rattle.std.specs.Prelude.{◌≡◌, ◌<◌, ◌≤◌};
ghost use Rattle.loops.specs.Any.{any};
ghost use Rattle.loops.specs.Choice.{at};
ghost use Rattle.loops.specs.Values.{lowest};
ghost use Rattle.plan.specs.Value.{base};
ghost use Rattle.rounds.specs.Lent.{is_edge, is_last, fires_after, edge_tokens, lacks_edge, has_counter, strays_in, bad_counter_in, sends_in, bad_increment_in, bad_sum_in};

use plan::{Edge, Plan};

// An edge of the table is the wanted one: its ends and its tokens.
#[tactic(auto, using(loops::specs::Choice::ifs), unfolding(crate::specs::Lent::is_edge, loops::specs::Values::both))]
fn is_edge_at(plan: &Plan, wanted: Edge, e: usize) -> bool
    requires { e < 512 }
    ensures { result ≡ is_edge plan.now.source plan.now.destination plan.now.tokens wanted.source wanted.destination wanted.tokens e }
{
    plan.edge(e) == wanted
}

// The table has the wanted edge.
fn has_edge(plan: &Plan, wanted: Edge) -> bool
    requires { plan.now.edges ≤ 512 }
    ensures { result ≡ any (is_edge plan.now.source plan.now.destination plan.now.tokens wanted.source wanted.destination wanted.tokens) plan.now.edges }
{
    (0..usize::from(plan.edges)).any(|e| is_edge_at(plan, wanted, e))
}

// An order position is the last of its process.
#[tactic(auto, using(plan::specs::Seating::process_at_lt), unfolding(crate::specs::Lent::is_last))]
fn is_last_at(plan: &Plan, i: usize) -> bool
    requires { (plan.now.processes ≤ 64) × (i < 64) × (i < base plan.now.lengths plan.now.processes) }
    ensures { result ≡ is_last plan.now.lengths plan.now.processes i }
{
    i + 1 == plan.lengths_sum(plan.process_of_order_position(i) + 1)
}

// The order position that fires after position i: the next, or the first of the process.
#[tactic(auto, using(plan::specs::Seating::process_at_lt, loops::specs::Choice::ifs), unfolding(crate::specs::Lent::fires_after))]
fn fires_after(plan: &Plan, i: usize) -> usize
    requires { (plan.now.processes ≤ 64) × (i < 64) × (i < base plan.now.lengths plan.now.processes) }
    ensures { result ≡ fires_after plan.now.lengths plan.now.processes i }
{
    if is_last_at(plan, i) {
        plan.lengths_sum(plan.process_of_order_position(i))
    } else {
        i + 1
    }
}

// The process edge from position i: its ends, and its starting tokens, 1 on the edge from the last node to the first one and none on the others.
#[tactic(auto, using(crate::specs::Positions::fires_after_lt, loops::specs::Choice::ifs), unfolding(crate::specs::Lent::edge_tokens))]
fn process_edge(plan: &Plan, i: usize) -> Edge
    requires { (plan.now.processes ≤ 64) × (base plan.now.lengths plan.now.processes ≤ 64) × (i < base plan.now.lengths plan.now.processes) }
    ensures { result ≡ record { source = at plan.now.order i; destination = at plan.now.order (fires_after plan.now.lengths plan.now.processes i); tokens = edge_tokens plan.now.lengths plan.now.processes i } }
{
    Edge {
        source: plan.order[i],
        destination: plan.order[fires_after(plan, i)],
        tokens: u16::from(is_last_at(plan, i)),
    }
}

// The process edge from position i is missing or has wrong tokens.
#[tactic(auto, unfolding(crate::specs::Lent::lacks_edge))]
fn bad_order_position_at(plan: &Plan, i: usize) -> bool
    requires { (plan.now.edges ≤ 512) × (plan.now.processes ≤ 64) × (base plan.now.lengths plan.now.processes ≤ 64) × (i < base plan.now.lengths plan.now.processes) }
    ensures { result ≡ lacks_edge plan.now.source plan.now.destination plan.now.tokens plan.now.edges plan.now.order plan.now.lengths plan.now.processes i }
{
    !has_edge(plan, process_edge(plan, i))
}

// Number 9: the lowest order position whose process edge is missing or has wrong tokens.
pub fn first_bad_order_position(plan: &Plan) -> Option<usize>
    requires { (plan.now.edges ≤ 512) × (plan.now.processes ≤ 64) × (plan.now.nodes ≤ 64) × (base plan.now.lengths plan.now.processes ≡ plan.now.nodes) }
    ensures { result ≡ lowest (lacks_edge plan.now.source plan.now.destination plan.now.tokens plan.now.edges plan.now.order plan.now.lengths plan.now.processes) plan.now.nodes }
{
    (0..usize::from(plan.nodes)).find(|i| bad_order_position_at(plan, *i))
}

// A node has counter c.
#[tactic(auto, unfolding(crate::specs::Lent::has_counter))]
fn has_counter_at(plan: &Plan, c: usize, v: usize) -> bool
    requires { v < 64 }
    ensures { result ≡ has_counter plan.now.counter c v }
{
    usize::from(plan.counter[v]) == c
}

// The lowest node with counter c.
fn first_with_counter(plan: &Plan, c: usize) -> Option<usize>
    requires { plan.now.nodes ≤ 64 }
    ensures { result ≡ lowest (has_counter plan.now.counter c) plan.now.nodes }
{
    (0..usize::from(plan.nodes)).find(|v| has_counter_at(plan, c, *v))
}

// A node has counter c and is in another process than node f.
#[tactic(auto, using(loops::specs::Choice::ifs), unfolding(crate::specs::Lent::strays_in, loops::specs::Values::both))]
fn strays_at(plan: &Plan, homes: &[u16; 64], f: usize, c: usize, v: usize) -> bool
    requires { (f < 64) × (v < 64) }
    ensures { result ≡ strays_in homes.now plan.now.counter f c v }
{
    has_counter_at(plan, c, v) && seats::synchronising(homes, v, f)
}

// A node with counter c is in another process than node f.
fn any_strays(plan: &Plan, homes: &[u16; 64], f: usize, c: usize) -> bool
    requires { (plan.now.nodes ≤ 64) × (f < 64) }
    ensures { result ≡ any (strays_in homes.now plan.now.counter f c) plan.now.nodes }
{
    (0..usize::from(plan.nodes)).any(|v| strays_at(plan, homes, f, c, v))
}

// C1 broken at counter c: its nodes are not all in the process of the first of them.
#[tactic(auto, using(loops::specs::Chains::lowest_lt, loops::specs::Chains::lowest_some, loops::specs::Chains::lowest_none, loops::specs::Choice::ifs), unfolding(crate::specs::Lent::bad_counter_in, loops::specs::Values::both))]
fn bad_counter_at(plan: &Plan, homes: &[u16; 64], c: usize) -> bool
    requires { plan.now.nodes ≤ 64 }
    ensures { result ≡ bad_counter_in homes.now plan.now.counter plan.now.nodes c }
{
    first_with_counter(plan, c).is_some_and(|f| any_strays(plan, homes, f, c))
}

// Number 10: the lowest counter at which C1 is broken.
pub fn first_bad_counter(plan: &Plan, homes: &[u16; 64]) -> Option<usize>
    requires { (plan.now.nodes ≤ 64) × (plan.now.counters ≤ 64) }
    ensures { result ≡ lowest (bad_counter_in homes.now plan.now.counter plan.now.nodes) plan.now.counters }
{
    (0..usize::from(plan.counters)).find(|c| bad_counter_at(plan, homes, *c))
}

// An edge is synchronising and leaves node v.
#[tactic(auto, using(loops::specs::Choice::ifs), unfolding(crate::specs::Lent::sends_in, loops::specs::Values::both))]
fn sends_at(plan: &Plan, crossing: &[u8; 512], v: usize, e: usize) -> bool
    requires { e < 512 }
    ensures { result ≡ sends_in crossing.now plan.now.source v e }
{
    crossing[e] == 1 && usize::from(plan.source[e]) == v
}

// A synchronising edge leaves node v.
fn any_sends(plan: &Plan, crossing: &[u8; 512], v: usize) -> bool
    requires { plan.now.edges ≤ 512 }
    ensures { result ≡ any (sends_in crossing.now plan.now.source v) plan.now.edges }
{
    (0..usize::from(plan.edges)).any(|e| sends_at(plan, crossing, v, e))
}

// C2 broken at node v: it has a synchronising out-edge and increment 0.
#[tactic(auto, using(loops::specs::Choice::ifs), unfolding(crate::specs::Lent::bad_increment_in, loops::specs::Values::both))]
fn bad_increment_at(plan: &Plan, crossing: &[u8; 512], v: usize) -> bool
    requires { (v < 64) × (plan.now.edges ≤ 512) }
    ensures { result ≡ bad_increment_in crossing.now plan.now.source plan.now.edges plan.now.increment v }
{
    plan.increment[v] == 0 && any_sends(plan, crossing, v)
}

// Number 11: the lowest node at which C2 is broken.
pub fn first_bad_increment(plan: &Plan, crossing: &[u8; 512]) -> Option<usize>
    requires { (plan.now.nodes ≤ 64) × (plan.now.edges ≤ 512) }
    ensures { result ≡ lowest (bad_increment_in crossing.now plan.now.source plan.now.edges plan.now.increment) plan.now.nodes }
{
    (0..usize::from(plan.nodes)).find(|v| bad_increment_at(plan, crossing, *v))
}

// A counter's sum is 0 or differs from q, counter 0's.
#[tactic(auto, using(loops::specs::Choice::ifs), unfolding(crate::specs::Lent::bad_sum_in, loops::specs::Values::either))]
fn bad_sum_at(plan: &Plan, q: u32, c: usize) -> bool
    requires { plan.now.nodes ≤ 64 }
    ensures { result ≡ bad_sum_in plan.now.counter plan.now.increment plan.now.nodes q c }
{
    let sum = plan.counter_sum(c);
    sum == 0 || sum != q
}

// Number 12: the lowest counter whose sum is 0 or differs from q.
pub fn first_bad_sum(plan: &Plan, q: u32) -> Option<usize>
    requires { (plan.now.nodes ≤ 64) × (plan.now.counters ≤ 64) }
    ensures { result ≡ lowest (bad_sum_in plan.now.counter plan.now.increment plan.now.nodes q) plan.now.counters }
{
    (0..usize::from(plan.counters)).find(|c| bad_sum_at(plan, q, *c))
}
