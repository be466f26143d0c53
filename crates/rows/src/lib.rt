#![tactic(auto)]
// Rows of a state and of a plan, lent: which edges are to see, which marks are too many, and how many are left.
// Chains go over 0, 1, .. n - 1 and not over a slice, as the rules are of a number (`loops/Chains`); `crossing` goes beside
// a plan, as it carries no fact. Rows of 0 and 1 are bytes, as they are stored as a state's marks, which are bytes for C.
// Bounds of counts stay in each `requires`: a type that held them all would ask more of a caller than each function asks.
ghost use Rattle.std.specs.Prelude.{◌≡◌, ◌+◌, ◌<◌, ◌≤◌, ltb};
ghost use Rattle.loops.specs.Choice.{at, one_if};
ghost use Rattle.loops.specs.Sum.{sum};
ghost use Rattle.loops.specs.Table.{padded};
ghost use Rattle.plan.specs.Value.{base};
ghost use Rattle.rows.specs.Lists.{NextsOk, next_in, wanted, allowed_row, row_above, rows_above, row_left, with_row};

use plan::Plan;
use state::State;

// The next node of a process.
pub fn next_node(plan: &Plan, state: &State, p: usize) -> u16
    requires { (p < 64) × (base plan.now.lengths p + at state.now.positions p < 64) }
    ensures { result ≡ next_in plan.now.order plan.now.lengths state.now.positions p }
{
    plan.order[plan.lengths_sum(p) + usize::from(state.positions[p])]
}

// The next node of each process.
#[tactic(auto, using(loops::specs::Table::fills))]
pub fn next_nodes(plan: &Plan, state: &State) -> [u16; 64]
    requires { NextsOk plan.now.lengths state.now.positions plan.now.processes }
    ensures { result ≡ padded (next_in plan.now.order plan.now.lengths state.now.positions) 64 plan.now.processes }
{
    let mut nexts = [0; 64];
    for p in 0..usize::from(plan.processes) {
        nexts[p] = next_node(plan, state, p);
    }
    nexts
}

// 1 where an edge is a synchronising in-edge of a node, else 0.
#[tactic(auto, unfolding(crate::specs::Lists::wanted), using(loops::specs::Choice::ifs))]
fn wanted(plan: &Plan, crossing: &[u8; 512], node: u16, e: usize) -> u8
    requires { e < 512 }
    ensures { result ≡ wanted plan.now.destination crossing.now node e }
{
    if plan.destination[e] == node {
        crossing[e]
    } else {
        0
    }
}

// For each edge 1 where it is a synchronising in-edge of a node, else 0.
#[tactic(auto, using(loops::specs::Table::fills))]
pub fn wanted_row(plan: &Plan, crossing: &[u8; 512], node: u16) -> [u8; 512]
    requires { plan.now.edges ≤ 512 }
    ensures { result ≡ padded (wanted plan.now.destination crossing.now node) 512 plan.now.edges }
{
    let mut row = [0; 512];
    for e in 0..usize::from(plan.edges) {
        row[e] = wanted(plan, crossing, node, e);
    }
    row
}

// For each edge the most that a process's mark may be.
#[tactic(auto, unfolding(crate::specs::Lists::allowed_row), using(loops::specs::Choice::ifs))]
fn allowed_row(
    plan: &Plan,
    state: &State,
    nexts: &[u16; 64],
    crossing: &[u8; 512],
    processes: usize,
    p: usize,
) -> [u8; 512]
    requires { (p < 64) × (plan.now.edges ≤ 512) }
    ensures { result ≡ allowed_row state.now.opened nexts.now plan.now.destination crossing.now processes plan.now.edges p }
{
    if p < processes && 0 < state.opened[p] {
        wanted_row(plan, crossing, nexts[p])
    } else {
        [0; 512]
    }
}

// How many marks of a process's row are above what they may be.
fn row_above(allowed: &[u8; 512], state: &State, p: usize) -> u16
    requires { p < 64 }
    ensures { (result ≡ row_above (at allowed.now) state.now.marks p) × (result ≤ 512) }
{
    let row = 512 * p;
    (0..512)
        .map(|e| u16::from(allowed[e] < state.marks[row + e]))
        .sum()
}

// How many marks of all rows are not allowed, of so many processes: any number is answered. A count, as the rules count (`state_fits`).
pub fn rows_excess(
    plan: &Plan,
    state: &State,
    nexts: &[u16; 64],
    crossing: &[u8; 512],
    processes: usize,
) -> u16
    requires { plan.now.edges ≤ 512 }
    ensures { result ≡ rows_above state.now.marks state.now.opened nexts.now plan.now.destination crossing.now processes plan.now.edges }
{
    (0..64)
        .map(|p| row_above(
            &allowed_row(plan, state, nexts, crossing, processes, p),
            state,
            p,
        ))
        .sum()
}

// How many edges of a row are wanted.
pub fn row_sum(plan: &Plan, row: &[u8; 512]) -> u32
    requires { plan.now.edges ≤ 512 }
    ensures { result ≡ sum (at row.now) plan.now.edges }
{
    (0..usize::from(plan.edges))
        .map(|e| u32::from(row[e]))
        .sum()
}

// How many marks a process's row has.
pub fn marks_left(state: &State, p: usize) -> u32
    requires { p < 64 }
    ensures { result ≡ row_left state.now.marks p }
{
    let row = 512 * p;
    (0..512).map(|e| u32::from(state.marks[row + e])).sum()
}

// Marks the wanted edges in a process's row.
#[tactic(auto, using(crate::proofs::Copied::copied))]
pub fn mark_row(plan: &Plan, marks: &mut [u8; 32768], row: &[u8; 512], p: usize)
    requires { (p < 64) × (plan.now.edges ≤ 512) }
    ensures { marks.new ≡ with_row marks.old (at row.now) plan.now.edges p }
{
    let start = 512 * p;
    let edges = usize::from(plan.edges);
    marks[start..start + edges].copy_from_slice(&row[..edges]);
}
