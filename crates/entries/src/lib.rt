#![tactic(auto)]
// Tests 3 and 5 to 8 of a plan value, which is lent: bounds, lengths, order, nodes and edges.
// Chains go over 0, 1, .. n - 1 and not over a slice, as the rules are of a number (`loops/Chains`).
// Bounds of counts stay in each `requires`: a type that held them all would ask more of a caller than each function asks. A count that
// entries are compared with and that no table is indexed by (the counters of 7, the nodes of 8) is told beside the plan: any number is answered.
ghost use Rattle.std.specs.Prelude.{◌≡◌, ◌<◌, ◌≤◌};
ghost use Rattle.loops.specs.Values.{lowest};
ghost use Rattle.entries.specs.Answer.{checked, order_answer, tables_answer};
ghost use Rattle.plan.specs.Value.{with_counters};
ghost use Rattle.plan.specs.Tests.{outside, bad_counts, zero_length, bad_order, bad_node, not_rising, bad_edge};

use plan::{Counts, Plan, Refusal, Test};

// A number below its least value or above its greatest.
#[tactic(auto, using(loops::specs::Choice::ifs), unfolding(plan::specs::Tests::outside, loops::specs::Values::either))]
fn is_outside(low: u32, high: u32, x: u32) -> bool
    ensures { result ≡ outside low high x }
{
    x < low || high < x
}

// Number 3: a count or N outside its bounds.
#[tactic(auto, using(loops::specs::Choice::ifs), unfolding(plan::specs::Tests::bad_counts, loops::specs::Values::either))]
pub fn counts_bad(counts: Counts) -> bool
    ensures { result ≡ bad_counts counts.nodes counts.processes counts.edges counts.counters counts.modulus }
{
    is_outside(1, 64, u32::from(counts.nodes))
        || is_outside(1, 64, u32::from(counts.processes))
        || is_outside(1, 512, u32::from(counts.edges))
        || is_outside(1, 64, u32::from(counts.counters))
        || is_outside(1, 2000000000, counts.modulus)
}

// Number 5: the lowest process with length 0.
pub fn first_zero_length(plan: &Plan) -> Option<usize>
    requires { plan.now.processes ≤ 64 }
    ensures { result ≡ lowest (zero_length plan.now.lengths) plan.now.processes }
{
    (0..usize::from(plan.processes)).find(|p| plan.lengths[*p] == 0)
}

// Number 6: the lowest order position that has an entry not a node or a node seen before. One pass, with a row of the nodes seen.
#[tactic(auto, using(crate::specs::Seen::seeing))]
pub fn first_bad_order(plan: &Plan) -> Option<usize>
    requires { plan.now.nodes ≤ 64 }
    ensures { result ≡ lowest (bad_order plan.now.order plan.now.nodes) plan.now.nodes }
{
    let nodes = usize::from(plan.nodes);
    let mut seen = [false; 64];
    for i in 0..nodes {
        let v = usize::from(plan.order[i]);
        if nodes <= v || seen[v] {
            return Some(i);
        }
        seen[v] = true;
    }
    None
}

// Counter unknown, increment too large.
#[tactic(auto, using(loops::specs::Choice::ifs), unfolding(plan::specs::Tests::bad_node, loops::specs::Values::either))]
fn bad_node_at(plan: &Plan, counters: usize, v: usize) -> bool
    requires { v < 64 }
    ensures { result ≡ bad_node plan.now.counter plan.now.increment counters v }
{
    counters <= usize::from(plan.counter[v]) || 255 < plan.increment[v]
}

// Number 7: the lowest node whose counter is unknown or whose increment is too large.
pub fn first_bad_node(plan: &Plan, counters: usize) -> Option<usize>
    requires { plan.now.nodes ≤ 64 }
    ensures { result ≡ lowest (bad_node plan.now.counter plan.now.increment counters) plan.now.nodes }
{
    (0..usize::from(plan.nodes)).find(|v| bad_node_at(plan, counters, *v))
}

// An edge not above the one before it: by source, then destination. Compared one after the other: as a pair, a beginning takes a third more.
#[tactic(auto, using(loops::specs::Choice::ifs), unfolding(plan::specs::Tests::not_rising, plan::specs::Tests::not_above, loops::specs::Values::both, loops::specs::Values::either))]
fn not_rising_at(plan: &Plan, e: usize) -> bool
    requires { e < 512 }
    ensures { result ≡ not_rising plan.now.source plan.now.destination e }
{
    0 < e
        && (plan.source[e] < plan.source[e - 1]
            || (plan.source[e] == plan.source[e - 1]
                && plan.destination[e] <= plan.destination[e - 1]))
}

// An end unknown, too many tokens, edge not above the one before it.
#[tactic(auto, using(loops::specs::Choice::ifs), unfolding(plan::specs::Tests::bad_edge, loops::specs::Values::either))]
fn bad_edge_at(plan: &Plan, nodes: usize, e: usize) -> bool
    requires { e < 512 }
    ensures { result ≡ bad_edge plan.now.source plan.now.destination plan.now.tokens nodes e }
{
    nodes <= usize::from(plan.source[e])
        || nodes <= usize::from(plan.destination[e])
        || 1000 < plan.tokens[e]
        || not_rising_at(plan, e)
}

// Number 8: the lowest edge with an end unknown, too many tokens or not above the one before it.
pub fn first_bad_edge(plan: &Plan, nodes: usize) -> Option<usize>
    requires { plan.now.edges ≤ 512 }
    ensures { result ≡ lowest (bad_edge plan.now.source plan.now.destination plan.now.tokens nodes) plan.now.edges }
{
    (0..usize::from(plan.edges)).find(|e| bad_edge_at(plan, nodes, *e))
}

// Tests 6 to 8 in order.
#[tactic(auto, using(plan::specs::Refusing::refuses), unfolding(crate::specs::Answer::order_answer, plan::specs::Tests::order_then))]
fn order_on(plan: &Plan, counters: usize) -> Result<(), Refusal>
    requires { (plan.now.nodes ≤ 64) × (plan.now.edges ≤ 512) }
    ensures { checked result ≡ order_answer (with_counters plan.now counters) }
{
    Test::Order.refuse_lowest(first_bad_order(plan))?;
    Test::Nodes.refuse_lowest(first_bad_node(plan, counters))?;
    Test::Edges.refuse_lowest(first_bad_edge(plan, usize::from(plan.nodes)))
}

// Tests 5 to 8 in order, of a plan with so many counters.
#[tactic(auto, using(plan::specs::Refusing::refuses, loops::specs::Choice::ifs), unfolding(crate::specs::Answer::tables_answer, crate::specs::Answer::order_answer, plan::specs::Tests::tables_then, plan::specs::Tests::order_then))]
pub fn tables(plan: &Plan, counters: usize) -> Result<(), Refusal>
    requires { (plan.now.nodes ≤ 64) × (plan.now.processes ≤ 64) × (plan.now.edges ≤ 512) }
    ensures { checked result ≡ tables_answer (with_counters plan.now counters) }
{
    let processes = usize::from(plan.processes);
    Test::Lengths.refuse_lowest(first_zero_length(plan))?;
    if plan.lengths_sum(processes) != usize::from(plan.nodes) {
        return Err(Test::Lengths.at(processes));
    }
    order_on(plan, counters)
}
