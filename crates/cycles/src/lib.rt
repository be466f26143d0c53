#![tactic(auto)]
// Loop sums, tests 13, 14 and 16 over them, and the least modulus.
// Chains go over 0, 1, .. n - 1 and not over a slice, as the rules are of a number (`loops/Chains`); `crossing` goes beside
// a plan, as it carries no fact. What is asked of a plan's tables (`EndsInRow`, `Known`) stays a clause: a type for it would be a second plan.
// Bounds of counts stay in each `requires`: a type that held them all would ask more of a caller than each function asks.
ghost use Rattle.std.specs.Prelude.{◌≡◌, ◌+◌, ◌*◌, ◌<◌, ◌≤◌};
ghost use Rattle.loops.specs.Any.{any};
ghost use Rattle.loops.specs.Choice.{at};
ghost use Rattle.loops.specs.Row.{stored};
ghost use Rattle.loops.specs.Table.{padded};
ghost use Rattle.loops.specs.Values.{lowest};
ghost use Rattle.routes.specs.Relaxing.{EndsInRow};
ghost use Rattle.cycles.specs.Lent.{loop_sum_in, entered, free_in, closes_free_in, on_free_cycle_in, no_way_back_in, not_above_in, asks_in, most_asked, Known, Bounded};

use plan::Plan;
use routes::{NO_ROUTE, Row};

// The loop sum of each edge, 0 past the count. None is above the tokens that an edge can hold and `NO_ROUTE`.
#[derive(Clone, Copy)]
pub struct LoopSums {
    pub sums: [u32; 512],
    ghost bounded: { Bounded sums },
}

// An edge's tokens plus those on the emptiest route back, from the row of its end node.
fn through_at(plan: &Plan, row: &Row, e: usize) -> u32
    requires { (e < 512) × (at plan.now.source e < 64) }
    ensures { (result ≡ at plan.now.tokens e + at row.now.entries (at plan.now.source e)) × (result ≤ 165535) }
{
    u32::from(plan.tokens[e]) + row.entries[usize::from(plan.source[e])]
}

// The loop sum of each edge, its tokens plus those on the emptiest route back, 0 past the count: one row a node.
pub fn loop_sums(plan: &Plan) -> LoopSums
    requires { (plan.now.nodes ≤ 64) × (plan.now.edges ≤ 512) × EndsInRow plan.now.source plan.now.destination plan.now.edges × Known plan.now.destination plan.now.nodes plan.now.edges }
    ensures { result.sums ≡ padded (loop_sum_in plan.now.source plan.now.destination plan.now.tokens plan.now.edges) 512 plan.now.edges }
{
    let mut sums = LoopSums { sums: [0; 512] };
    for v in 0..usize::from(plan.nodes) {
        let row = routes::emptiest_row(plan, v);
        sums.enter_row(plan, &row, v);
    }
    sums
}

// An edge closes a cycle without tokens.
#[tactic(auto, unfolding(crate::specs::Lent::free_in))]
fn is_free_at(sums: &[u32; 512], e: usize) -> bool
    requires { e < 512 }
    ensures { result ≡ free_in sums.now e }
{
    sums[e] == 0
}

// Some edge closes a cycle without tokens.
fn some_free(plan: &Plan, sums: &[u32; 512]) -> bool
    requires { plan.now.edges ≤ 512 }
    ensures { result ≡ any (free_in sums.now) plan.now.edges }
{
    (0..usize::from(plan.edges)).any(|e| is_free_at(sums, e))
}

// An edge ends in node v and closes a cycle without tokens.
#[tactic(auto, using(loops::specs::Choice::ifs), unfolding(crate::specs::Lent::closes_free_in, crate::specs::Lent::free_in, loops::specs::Values::both))]
fn closes_free_at(plan: &Plan, sums: &[u32; 512], v: usize, e: usize) -> bool
    requires { e < 512 }
    ensures { result ≡ closes_free_in plan.now.destination sums.now v e }
{
    usize::from(plan.destination[e]) == v && is_free_at(sums, e)
}

// Node v is on a cycle without tokens.
fn on_free_cycle_at(plan: &Plan, sums: &[u32; 512], v: usize) -> bool
    requires { plan.now.edges ≤ 512 }
    ensures { result ≡ on_free_cycle_in plan.now.destination sums.now plan.now.edges v }
{
    (0..usize::from(plan.edges)).any(|e| closes_free_at(plan, sums, v, e))
}

// Number 13: the lowest node on a cycle without tokens; looked for only where some edge closes such a cycle. (13 and 14 take any table of sums: as methods of `LoopSums` they would ask for its bound. The nodes that are looked at are told beside the plan, which indexes no table by them: any number is answered.)
pub fn first_on_free_cycle(plan: &Plan, sums: &[u32; 512], nodes: usize) -> Option<usize>
    requires { plan.now.edges ≤ 512 }
    ensures { result ≡ lowest (on_free_cycle_in plan.now.destination sums.now plan.now.edges) nodes }
{
    if !some_free(plan, sums) {
        return None;
    }
    (0..nodes).find(|v| on_free_cycle_at(plan, sums, *v))
}

// A synchronising edge without a route back.
#[tactic(auto, using(loops::specs::Choice::ifs), unfolding(crate::specs::Lent::no_way_back_in, loops::specs::Values::both))]
fn no_way_back_at(crossing: &[u8; 512], sums: &[u32; 512], e: usize) -> bool
    requires { e < 512 }
    ensures { result ≡ no_way_back_in crossing.now sums.now e }
{
    NO_ROUTE <= sums[e] && crossing[e] == 1
}

// Number 14: the lowest synchronising edge without a route back.
pub fn first_no_way_back(plan: &Plan, crossing: &[u8; 512], sums: &[u32; 512]) -> Option<usize>
    requires { plan.now.edges ≤ 512 }
    ensures { result ≡ lowest (no_way_back_in crossing.now sums.now) plan.now.edges }
{
    (0..usize::from(plan.edges)).find(|e| no_way_back_at(crossing, sums, *e))
}

impl LoopSums {
    // Enters the loop sums of the edges that end in node v, from v's row.
    #[tactic(auto, using(crate::specs::Bounds::set_bounded))]
    fn enter_row(&mut self, plan: &Plan, row: &Row, v: usize)
        requires { (plan.now.edges ≤ 512) × EndsInRow plan.now.source plan.now.destination plan.now.edges }
        ensures { self.new.sums ≡ stored (entered plan.now.source plan.now.destination plan.now.tokens row.now.entries v self.old.sums) 0 self.old.sums plan.now.edges }
    {
        for e in 0..usize::from(plan.edges) {
            if usize::from(plan.destination[e]) == v {
                self.sums[e] = through_at(plan, row, e);
            }
        }
    }

    // A synchronising edge whose bound, Q times its loop sum, N does not exceed.
    #[tactic(auto, using(loops::specs::Choice::ifs), unfolding(crate::specs::Lent::not_above_in, loops::specs::Values::both))]
    fn is_not_above(&self, plan: &Plan, crossing: &[u8; 512], q: u32, e: usize) -> bool
        requires { (e < 512) × (q ≤ 16320) }
        ensures { result ≡ not_above_in crossing.now self.now.sums plan.now.modulus (λ d. q) e }
    {
        crossing[e] == 1 && plan.modulus <= q * self.sums[e]
    }

    // Number 16: the lowest synchronising edge whose bound N does not exceed.
    pub fn first_not_above(&self, plan: &Plan, crossing: &[u8; 512], q: u32) -> Option<usize>
        requires { (plan.now.edges ≤ 512) × (q ≤ 16320) }
        ensures { result ≡ lowest (not_above_in crossing.now self.now.sums plan.now.modulus (λ d. q)) plan.now.edges }
    {
        (0..usize::from(plan.edges)).find(|e| self.is_not_above(plan, crossing, q, *e))
    }

    // What an edge asks of the modulus, in sums of Q: more than its loop sum where it synchronises, else 1.
    #[tactic(auto, using(loops::specs::Choice::ifs), unfolding(crate::specs::Lent::asks_in))]
    fn asks(&self, crossing: &[u8; 512], e: usize) -> u32
        requires { e < 512 }
        ensures { (result ≡ asks_in crossing.now self.now.sums e) × (result ≤ 165536) }
    {
        if crossing[e] == 1 {
            self.sums[e] + 1
        } else {
            1
        }
    }

    // The most that an edge asks of the modulus, in sums of Q.
    #[tactic(auto, unfolding(crate::specs::Lent::most_asked))]
    fn most_asked(&self, plan: &Plan, crossing: &[u8; 512]) -> u32
        requires { plan.now.edges ≤ 512 }
        ensures { (result ≡ most_asked crossing.now self.now.sums plan.now.edges) × (result ≤ 165536) }
    {
        let mut most: u32 = 1;
        for edge in 0..usize::from(plan.edges) {
            most = most.max(self.asks(crossing, edge));
        }
        most
    }

    // The least modulus: the smallest N that would pass 15 and 16.
    pub fn least_modulus(&self, plan: &Plan, crossing: &[u8; 512], q: u32) -> u32
        requires { (plan.now.edges ≤ 512) × (q ≤ 16320) }
        ensures { result ≡ q * most_asked crossing.now self.now.sums plan.now.edges }
    {
        q * self.most_asked(plan, crossing)
    }
}
