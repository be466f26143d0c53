#![tactic(auto)]
// The row of emptiest routes from one node: relaxed sweep by sweep until nothing changes.
// Bounds of counts stay in each `requires`: a type that held them all would ask more of a caller than each function asks.
ghost use Rattle.std.specs.Prelude.{◌≡◌, ◌+◌, ◌<◌, ◌≤◌};
ghost use Rattle.routes.specs.Rows.{total, sweep, emptiest_row};
ghost use Rattle.routes.specs.Relaxing.{Low, EndsInRow};

use plan::Plan;

// Stands for no route: the tokens of an emptiest route are fewer. A number, as sums over it are taken and compared in every sweep, and
// as the rules of the row (`no_route` in `Rows`) say it so.
pub const NO_ROUTE: u32 = 100000;

// The tokens of a route from one node to each. No entry is above `NO_ROUTE`.
#[derive(Clone, Copy)]
pub struct Row {
    pub entries: [u32; 64],
    ghost low: { Low entries },
}

impl Row {
    // A sweep where the row stands: every edge in turn lowers its destination's entry. Answers by how much the sum of the entries has
    // fallen, not only whether it has: that is why sweeps end.
    #[tactic(auto, using(crate::specs::Relaxing::set_low))]
    pub fn relax_sweep(&mut self, plan: &Plan) -> u32
        requires { (plan.now.edges ≤ 512) × EndsInRow plan.now.source plan.now.destination plan.now.edges }
        ensures { (self.new.entries ≡ sweep plan.now.source plan.now.destination plan.now.tokens plan.now.edges self.old.entries) × (result + total self.new.entries ≡ total self.old.entries) }
    {
        let mut drop = 0;
        for e in 0..usize::from(plan.edges) {
            let s = usize::from(plan.source[e]);
            let d = usize::from(plan.destination[e]);
            let entry = self.entries[d];
            let lower = entry.min(self.entries[s] + u32::from(plan.tokens[e]));
            self.entries[d] = lower;
            drop += entry - lower;
        }
        drop
    }
}

// The tokens of the emptiest route from one node to each: sweeps until nothing changes.
pub fn emptiest_row(plan: &Plan, from: usize) -> Row
    requires { (from < 64) × (plan.now.edges ≤ 512) × EndsInRow plan.now.source plan.now.destination plan.now.edges }
    ensures { result.entries ≡ emptiest_row plan.now.source plan.now.destination plan.now.tokens plan.now.edges from }
{
    let mut row = Row {
        entries: [NO_ROUTE; 64],
    };
    row.entries[from] = 0;
    while row.relax_sweep(plan) != 0 {}
    row
}
