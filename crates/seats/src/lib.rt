#![tactic(auto)]
// Where each node stands: its order position, its process, and whether an edge's ends are in different processes.
// Chains go over 0, 1, .. n - 1 and not over a slice, as the rules are of a number (`loops/Chains`).
// Bounds of counts stay in each `requires`: a type that held them all would ask more of a caller than each function asks.
// `as` stands where std has no `From`: for a number that is proved to fit the smaller type.
// A synchronising edge is 1 and another 0, bytes, as rows of these are stored as a state's marks, which are bytes for C.
ghost use Rattle.std.specs.Prelude.{◌≡◌, ◌<◌, ◌≤◌};
ghost use Rattle.loops.specs.Choice.{at};
ghost use Rattle.loops.specs.Table.{padded};
ghost use Rattle.plan.specs.Onto.{Once};
ghost use Rattle.plan.specs.Tests.{stands_at, order_position, home_of, different};
ghost use Rattle.seats.specs.Housed.{ended};
ghost use Rattle.seats.specs.Crossing.{crosses, EndsOk};

use plan::Plan;

// A node stands at an order position.
#[tactic(auto, unfolding(plan::specs::Tests::stands_at))]
fn stands_at(plan: &Plan, v: usize, i: usize) -> bool
    requires { i < 64 }
    ensures { result ≡ stands_at plan.now.order v i }
{
    usize::from(plan.order[i]) == v
}

// The order position of a node, or the number of nodes where it has none: a number in both cases, as the rule has it (`order_position`).
pub fn order_position_of(plan: &Plan, v: usize) -> usize
    requires { plan.now.nodes ≤ 64 }
    ensures { result ≡ order_position plan.now.order plan.now.nodes v }
{
    let nodes = usize::from(plan.nodes);
    (0..nodes).find(|i| stands_at(plan, v, *i)).unwrap_or(nodes)
}

// Process p, which begins at position `start`, is there and ends at or before position i.
#[tactic(auto, using(loops::specs::Choice::ifs), unfolding(crate::specs::Housed::ended, loops::specs::Values::both))]
fn ends_by(plan: &Plan, p: usize, start: usize, i: usize) -> bool
    requires { (plan.now.processes ≤ 64) × (start ≤ i) × (i < 64) }
    ensures { result ≡ ended plan.now.lengths plan.now.processes p start i }
{
    p < usize::from(plan.processes) && usize::from(plan.lengths[p]) <= i - start
}

// The process of each node, 0 past the count. One pass over positions and processes: each position goes past the processes that end
// by it and enters the process of its node. The inner `while` counts on from position to position: a `for` would look up the process
// of each position anew.
pub fn homes(plan: &Plan) -> [u16; 64]
    requires { (plan.now.nodes ≤ 64) × (plan.now.processes ≤ 64) × Once (at plan.now.order) plan.now.nodes }
    ensures { result ≡ padded (home_of plan.now.order plan.now.lengths plan.now.nodes plan.now.processes) 64 plan.now.nodes }
{
    let mut table = [0; 64];
    let mut p = 0;
    let mut start = 0;
    for i in 0..usize::from(plan.nodes) {
        while ends_by(plan, p, start, i) {
            start += usize::from(plan.lengths[p]);
            p += 1;
        }
        table[usize::from(plan.order[i])] = p as u16;
    }
    table
}

// An edge's ends are in different processes.
#[tactic(auto, using(loops::specs::Choice::ifs), unfolding(plan::specs::Tests::different))]
pub fn synchronising(homes: &[u16; 64], source: usize, destination: usize) -> bool
    requires { (source < 64) × (destination < 64) }
    ensures { result ≡ different homes.now source destination }
{
    homes[source] != homes[destination]
}

// 1 where an edge's ends are in different processes, else 0.
#[tactic(auto, using(loops::specs::Choice::ifs), unfolding(crate::specs::Crossing::crosses, loops::specs::Values::one_if))]
fn crossing_at(plan: &Plan, homes: &[u16; 64], e: usize) -> u8
    requires { (e < 512) × (at plan.now.source e < 64) × (at plan.now.destination e < 64) }
    ensures { result ≡ crosses homes.now plan.now.source plan.now.destination e }
{
    u8::from(synchronising(
        homes,
        usize::from(plan.source[e]),
        usize::from(plan.destination[e]),
    ))
}

// For each edge 1 where it is synchronising, else 0.
#[tactic(auto, using(loops::specs::Table::fills))]
pub fn crossing_row(plan: &Plan, homes: &[u16; 64]) -> [u8; 512]
    requires { EndsOk plan.now.source plan.now.destination plan.now.edges }
    ensures { result ≡ padded (crosses homes.now plan.now.source plan.now.destination) 512 plan.now.edges }
{
    let mut row = [0; 512];
    for e in 0..usize::from(plan.edges) {
        row[e] = crossing_at(plan, homes, e);
    }
    row
}
