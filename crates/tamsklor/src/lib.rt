#![tactic(auto)]
// What the recorder's host in C is handed: the plan check, the plan of an image, and a run by single calls. Numbers and arrays only.
// The crate `tamsklor_c` exports each public function of this one under its own name.
// C has neither Option nor Result, so a number 0 says that nothing was refused, and a kind says what a call did.
ghost use Rattle.std.specs.Prelude.{◌≡◌};
ghost use Rattle.judge.specs.Answer.{answered};
ghost use Rattle.reader.specs.Tests.{verdict, read_of};
ghost use Rattle.machine.specs.Answers.{replied, level_of};
ghost use Rattle.machine.specs.Calls.{begin_run, step_call, reading_call};
ghost use Rattle.tamsklor.specs.Numbers.{outcome, numbers_of, numbers_of_read, numbers_of_begin, numbers_of_reply, numbers_of_level, version};

use judge::Acceptance;
use machine::Done;
use plan::{Plan, Refusal};
use refusals::{Reason, Request};
use state::State;

// The plan check's answer: the refusal's number (0: accepted), its place, and the least modulus (0 after a refusal).
#[repr(C)]
#[derive(Clone, Copy)]
pub struct Verdict {
    pub number: u32,
    pub place: u32,
    pub least: u32,
}

// The reader's answer: the plan check's numbers, and the plan beside them, all 0 after a refusal.
#[repr(C)]
#[derive(Clone, Copy)]
pub struct PlanRead {
    pub number: u32,
    pub place: u32,
    pub least: u32,
    pub plan: Plan,
}

// The answer to beginning a run: 0 or the refusal's number, and the state, all 0.
#[repr(C)]
#[derive(Clone, Copy)]
pub struct Begun {
    pub number: u32,
    pub state: State,
}

// A call's answer: kind 0 refused (value: the number), 1 opened (edges to see), 2 found (edges left), 3 wait (edges left), 4 fired (the node).
#[repr(C)]
#[derive(Clone, Copy)]
pub struct CallAnswer {
    pub kind: u32,
    pub value: u32,
}

// A call's answer beside the state that it leaves.
#[repr(C)]
#[derive(Clone, Copy)]
pub struct Stepped {
    pub answer: CallAnswer,
    pub state: State,
}

// What stands for the least modulus after a refusal.
const NO_LEAST: u32 = 0;

// A token reading's answer: the refusal's number (0: read) and the tokens (0 after a refusal).
#[repr(C)]
#[derive(Clone, Copy)]
pub struct TokenAnswer {
    pub number: u32,
    pub count: u32,
}

// Number and place of an answer, both 0 for an accepted plan.
#[derive(Clone, Copy)]
struct Outcome {
    number: u32,
    place: u32,
}

// The number and the place of an answer.
#[tactic(auto, unfolding(crate::specs::Numbers::outcome))]
fn outcome_of(answer: Result<Acceptance, Refusal>) -> Outcome
    ensures { result ≡ outcome (answered answer) }
{
    let Err(refusal) = answer else {
        return Outcome {
            number: 0,
            place: 0,
        };
    };
    Outcome {
        number: u32::from(refusal.test),
        place: refusal.place,
    }
}

impl From<Result<Acceptance, Refusal>> for Verdict {
    ghost from_gives = { λ answer v. v ≡ numbers_of (answered answer) };

    // The reader's answer as numbers: takes the accepted numbers out of it, or turns at once to the refusal.
    fn from(answer: Result<Acceptance, Refusal>) -> Verdict {
        let outcome = outcome_of(answer);
        let Ok(accepted) = answer else {
            return Verdict {
                number: outcome.number,
                place: outcome.place,
                least: NO_LEAST,
            };
        };
        Verdict {
            number: outcome.number,
            place: outcome.place,
            least: accepted.least,
        }
    }
}

impl From<Result<Done, Reason>> for CallAnswer {
    ghost from_gives = { λ reply a. a ≡ numbers_of_reply (replied reply) };

    // A call's answer as two numbers.
    fn from(reply: Result<Done, Reason>) -> CallAnswer {
        match reply {
            Ok(done) => match done {
                Done::Opened { edges } => CallAnswer {
                    kind: 1,
                    value: edges,
                },
                Done::Found { left } => CallAnswer {
                    kind: 2,
                    value: left,
                },
                Done::Wait { left } => CallAnswer {
                    kind: 3,
                    value: left,
                },
                Done::Fired { node } => CallAnswer {
                    kind: 4,
                    value: node,
                },
            },
            Err(reason) => CallAnswer {
                kind: 0,
                value: u32::from(reason),
            },
        }
    }
}

impl From<Result<u32, Reason>> for TokenAnswer {
    ghost from_gives = { λ level a. a ≡ numbers_of_level (level_of level) };

    // A token reading as two numbers.
    fn from(level: Result<u32, Reason>) -> TokenAnswer {
        match level {
            Ok(count) => TokenAnswer { number: 0, count },
            Err(reason) => TokenAnswer {
                number: u32::from(reason),
                count: 0,
            },
        }
    }
}

// One call on a plan and a state by value: the answer as numbers, and the state that it leaves.
pub fn tamsklor_run_stepped(plan: Plan, state: State, code: u32, process: u32, edge: u32) -> Stepped
    ensures { (result.answer ≡ numbers_of_reply (step_call plan state code process edge).reply) × (result.state ≡ (step_call plan state code process edge).state) }
{
    let request = Request {
        code,
        process,
        edge,
    };
    let turned = calls::step(plan, state, request);
    let after = turned.state;
    Stepped {
        answer: CallAnswer::from(turned.reply),
        state: after,
    }
}

// The plan check over the image's bytes.
pub fn tamsklor_plan_check(image: &[u8]) -> Verdict
    ensures { result ≡ numbers_of (verdict image.now) }
{
    Verdict::from(reader::read(image).answer)
}

// The plan of an image beside the plan check's numbers; all 0 after a refusal.
pub fn tamsklor_plan_read(image: &[u8]) -> PlanRead
    ensures { result ≡ numbers_of_read (read_of image.now) }
{
    let reading = reader::read(image);
    let numbers = Verdict::from(reading.answer);
    PlanRead {
        number: numbers.number,
        place: numbers.place,
        least: numbers.least,
        plan: reading.plan,
    }
}

// Beginning a run of a plan by value: 0 and the fresh state; 25 where the plan is out of shape, with an all-zero state beside it.
fn begin_by_value(plan: Plan) -> Begun
    ensures { result ≡ numbers_of_begin (begin_run plan) }
{
    let began = calls::begin(plan);
    let state = began.state;
    Begun {
        number: began.number,
        state,
    }
}

// Beginning a run of the host's plan.
pub fn tamsklor_run_begin(plan: &Plan) -> Begun
    ensures { result ≡ numbers_of_begin (begin_run plan.now) }
{
    begin_by_value(*plan)
}

// One call on the host's one state, updated where it stands: open, look or fire by its code. A thin call of the one by value.
pub fn tamsklor_run_step(
    plan: &Plan,
    state: &mut State,
    code: u32,
    process: u32,
    edge: u32,
) -> CallAnswer
    ensures { (result ≡ numbers_of_reply (step_call plan.now state.old code process edge).reply) × (state.new ≡ (step_call plan.now state.old code process edge).state) }
{
    let r = tamsklor_run_stepped(*plan, *state, code, process, edge);
    *state = r.state;
    r.answer
}

// The token reading of an edge, plan and state by value.
fn tokens_by_value(plan: Plan, state: State, edge: u32) -> TokenAnswer
    ensures { result ≡ numbers_of_level (reading_call plan state edge) }
{
    TokenAnswer::from(calls::token_reading(plan, state, edge))
}

// The token reading of an edge on the host's plan and state. Neither is changed.
pub fn tamsklor_run_tokens(plan: &Plan, state: &State, edge: u32) -> TokenAnswer
    ensures { result ≡ numbers_of_level (reading_call plan.now state.now edge) }
{
    tokens_by_value(*plan, *state, edge)
}

// The version: 10,000 times the major number, 100 times the minor number and the patch number.
pub fn tamsklor_version() -> u32
    ensures { result ≡ version }
{
    200
}
