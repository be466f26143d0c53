#![tactic(auto)]
// A plan image read: accepted with Q, N and the least modulus, or refused with a number and a place.
ghost use Rattle.std.specs.Prelude.{◌≡◌, IfOk};
ghost use Rattle.image.specs.Room.{Laid};
ghost use Rattle.image.specs.Image.{tables_of, plan_of};
ghost use Rattle.judge.specs.Answer.{answered};
ghost use Rattle.reader.specs.Answer.{told};
ghost use Rattle.reader.specs.Tests.{no_plan, verdict, read_of};

use judge::Acceptance;
use plan::{Plan, Refusal, Test};

// The answer, and beside it the plan: all 0 after a refusal, which is promised too (`read_of`), so the plan stands beside a `Result`.
#[derive(Clone, Copy)]
pub struct ReadPlan {
    pub answer: Result<Acceptance, Refusal>,
    pub plan: Plan,
}

// Nothing of a plan: every count, N, Q and every entry 0.
#[tactic(auto, unfolding(crate::specs::Tests::no_plan))]
fn empty_plan() -> Plan
    ensures { result ≡ no_plan }
{
    Plan {
        nodes: 0,
        processes: 0,
        edges: 0,
        counters: 0,
        modulus: 0,
        q: 0,
        lengths: [0; 64],
        order: [0; 64],
        counter: [0; 64],
        increment: [0; 64],
        source: [0; 512],
        destination: [0; 512],
        tokens: [0; 512],
    }
}

// The plan of the image's numbers, put where it is to stand. A call of its own, so that what it is copied from is not on the stack beside
// the tests.
#[inline(never)]
fn fill(image: &[u8], plan: &mut Plan)
    requires { Laid image.now }
    ensures { plan.new ≡ tables_of image.now }
{
    *plan = image::plan_from(image);
}

// The tests of an image in 01's order. The plan of an accepted image stands in `plan` then, with its Q.
#[tactic(auto, using(plan::specs::Refusing::refuses, loops::specs::Choice::if_true, loops::specs::Choice::if_false, crate::specs::Steps::laid_of, crate::specs::Steps::counted_of, crate::specs::Steps::answer_is, crate::specs::Steps::filled_is), unfolding(crate::specs::Tests::verdict))]
fn read_into(image: &[u8], plan: &mut Plan) -> Result<Acceptance, Refusal>
    ensures answer { answered result ≡ verdict image.now }
    ensures accepted { IfOk result (λ a. plan.new ≡ plan_of image.now) }
{
    Test::Header.refuse_if(image.len() < 36)?;
    Test::Format.refuse_if(!image::format_fits(image))?;
    Test::Counts.refuse_if(entries::counts_bad(image::counts_of(image)))?;
    Test::Layout.refuse_if(!image::offsets_fit(image))?;
    fill(image, plan);
    let accepted = judge::from_5(plan)?;
    plan.q = accepted.q;
    Ok(accepted)
}

// A plan image read: Q, N and the least modulus with the plan, or a number and a place and nothing of the plan.
#[tactic(auto, unfolding(crate::specs::Tests::read_of, crate::specs::Tests::plan_beside))]
pub fn read(image: &[u8]) -> ReadPlan
    ensures { told result ≡ read_of image.now }
{
    let mut plan = empty_plan();
    let answer = read_into(image, &mut plan);
    if answer.is_err() {
        plan = empty_plan();
    }
    ReadPlan { answer, plan }
}
