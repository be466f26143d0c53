#![tactic(auto)]
// The judge: tests 3 and 5 to 16 of any plan value in 01's order; the least modulus. The plan is lent.
ghost use Rattle.std.specs.Prelude.{◌≡◌, not, ◌%◌, ◌≤◌, eqb};
ghost use Rattle.plan.specs.Faults.{CountsFit};
ghost use Rattle.plan.specs.Tables.{Tabled};
ghost use Rattle.judge.specs.Answer.{answered};
ghost use Rattle.judge.specs.Tests.{from_15_in, from_9, from_5, judged};

use cycles::LoopSums;
use plan::{Plan, Refusal, Test};

// What is answered of an accepted plan: Q, N and the least modulus.
#[derive(Clone, Copy, PartialEq, Eq)]
pub struct Acceptance {
    pub q: u32,
    pub modulus: u32,
    pub least: u32,
}

// N not a multiple of Q.
fn not_multiple_of(modulus: u32, q: u32) -> bool
    requires { 1 ≤ q }
    ensures { result ≡ not (eqb (modulus % q) 0) }
{
    modulus % q != 0
}

// Tests 15 and 16, then accepted with Q, N and the least modulus.
#[tactic(auto, using(plan::specs::Refusing::refuses), unfolding(crate::specs::Tests::from_15_in))]
fn from_15(
    plan: &Plan,
    crossing: &[u8; 512],
    sums: &LoopSums,
    q: u32,
) -> Result<Acceptance, Refusal>
    requires { (plan.now.edges ≤ 512) × (1 ≤ q) × (q ≤ 16320) }
    ensures { answered result ≡ from_15_in crossing.now sums.now.sums plan.now.edges plan.now.modulus q }
{
    Test::Multiple.refuse_if(not_multiple_of(plan.modulus, q))?;
    Test::Bounds.refuse_lowest(sums.first_not_above(plan, crossing, q))?;
    Ok(Acceptance {
        q,
        modulus: plan.modulus,
        least: sums.least_modulus(plan, crossing, q),
    })
}

// Tests 9 to 16 of a plan value whose tests 3 and 5 to 8 have passed.
#[tactic(auto, using(plan::specs::Refusing::refuses), unfolding(crate::specs::Tests::from_9, crate::specs::Tests::from_11_in, crate::specs::Tests::from_13_in, plan::specs::Value::counter_sum))]
fn from_9(plan: &Plan) -> Result<Acceptance, Refusal>
    requires { Tabled plan.now }
    ensures { answered result ≡ from_9 plan.now }
{
    Test::ProcessEdges.refuse_lowest(rounds::first_bad_order_position(plan))?;
    let homes = seats::homes(plan);
    Test::Counters.refuse_lowest(rounds::first_bad_counter(plan, &homes))?;
    let crossing = seats::crossing_row(plan, &homes);
    Test::Increments.refuse_lowest(rounds::first_bad_increment(plan, &crossing))?;
    let q = plan.counter_sum(0);
    Test::Sums.refuse_lowest(rounds::first_bad_sum(plan, q))?;
    let sums = cycles::loop_sums(plan);
    Test::FreeCycles.refuse_lowest(cycles::first_on_free_cycle(
        plan,
        &sums.sums,
        usize::from(plan.nodes),
    ))?;
    Test::WaysBack.refuse_lowest(cycles::first_no_way_back(plan, &crossing, &sums.sums))?;
    from_15(plan, &crossing, &sums, q)
}

// Tests 5 to 16 of a plan value whose test 3 has passed.
pub fn from_5(plan: &Plan) -> Result<Acceptance, Refusal>
    requires { CountsFit plan.now }
    ensures { answered result ≡ from_5 plan.now }
{
    entries::tables(plan, usize::from(plan.counters))?;
    from_9(plan)
}

// The judge of any plan value: tests 3 and 5 to 16 in 01's order. Its Q is not looked at.
#[tactic(auto, using(plan::specs::Refusing::refuses, plan::specs::Passed::counts_fit), unfolding(crate::specs::Tests::judged))]
pub fn judge(plan: &Plan) -> Result<Acceptance, Refusal>
    ensures { answered result ≡ judged plan.now }
{
    Test::Counts.refuse_if(entries::counts_bad(plan.counts()))?;
    from_5(plan)
}
