#![tactic(auto)]
// Whether a plan value is in shape: tests 3 and 5 to 8 pass, and its Q is counter 0's sum and at least 1. The plan is lent.
ghost use Rattle.std.specs.Prelude.{◌≡◌, ◌≤◌};
ghost use Rattle.plan.specs.Tests.{q_fits, plan_fits};

use plan::Plan;

// Q is counter 0's sum and at least 1.
#[tactic(auto, using(loops::specs::Choice::ifs), unfolding(plan::specs::Tests::q_fits, plan::specs::Value::counter_sum, loops::specs::Values::both))]
fn q_fits(plan: &Plan) -> bool
    requires { plan.now.nodes ≤ 64 }
    ensures { result ≡ q_fits plan.now }
{
    plan.counter_sum(0) == plan.q && 1 <= plan.q
}

// A plan value in shape: tests 3, 5, 6, 7 and 8 pass on it and its Q is counter 0's sum and at least 1.
#[tactic(auto, using(plan::specs::Passed::counts_fit, crate::specs::Steps::steps), unfolding(entries::specs::Answer::after_tables))]
pub fn fits(plan: &Plan) -> bool
    ensures { result ≡ plan_fits plan.now }
{
    !entries::counts_bad(plan.counts())
        && entries::tables(plan, usize::from(plan.counters)).is_ok()
        && q_fits(plan)
}
