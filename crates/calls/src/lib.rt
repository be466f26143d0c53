#![tactic(auto)]
// The calls of a run, of any plan value and any state: 26 and 25 are tested first, and `machine` does the rest.
ghost use Rattle.std.specs.Prelude.{◌≡◌};
ghost use Rattle.machine.specs.Answers.{replied, level_of};
ghost use Rattle.machine.specs.Replies.{turned};
ghost use Rattle.machine.specs.Calls.{both_fit, begin_run, open_call, look_call, fire_call, step_call, reading_call};
ghost use Rattle.calls.specs.Answers.{turned_of, began_of};

use machine::Done;
use plan::Plan;
use refusals::{Reason, Request};
use state::State;

// A call's answer beside the state that it leaves: a refused one leaves it as it was (`step_call`).
#[derive(Clone, Copy)]
pub struct Turned {
    pub reply: Result<Done, Reason>,
    pub state: State,
}

// The answer to beginning a run: 0 or the refusal's number, beside the state. A number as C has it: with a `Result` here the state is
// copied on the way out, and the stack that `tamsklor.h` states for a beginning is too small (137,472 bytes against 86,016).
#[derive(Clone, Copy)]
pub struct Began {
    pub number: u32,
    pub state: State,
}

// Plan and state in shape.
#[tactic(auto, using(machine::specs::Stepping::both_by_state, machine::specs::Stepping::plan_unfit))]
pub fn both_fit(plan: &Plan, state: &State) -> bool
    ensures { result ≡ both_fit plan.now state.now }
{
    shape::fits(plan) && machine::state_fits(plan, state)
}

// Beginning a run is refused with 25 where the plan is out of shape, with an all-zero state beside it.
#[tactic(auto, using(machine::specs::Stepping::begun, machine::specs::Stepping::begun_not))]
pub fn begin(plan: Plan) -> Began
    ensures { began_of result ≡ begin_run plan }
{
    let number = if shape::fits(&plan) {
        0
    } else {
        u32::from(Reason::OutOfShape)
    };
    Began {
        number,
        state: State::fresh(),
    }
}

// A call on a state where it stands: a code above 2 is refused with 26, before all else; then 25 plan or state out of shape.
#[tactic(auto, using(machine::specs::InRange::both_plan, machine::specs::InRange::both_state, machine::specs::Stepping::answers_26, machine::specs::Stepping::answers_25, machine::specs::Stepping::answers))]
pub fn step_on(plan: &Plan, state: &mut State, request: Request) -> Result<Done, Reason>
    ensures { turned (replied result) state.new ≡ step_call plan.now state.old request.code request.process request.edge }
{
    if 2 < request.code {
        return Err(Reason::UnknownCode);
    }
    if !both_fit(plan, state) {
        return Err(Reason::OutOfShape);
    }
    machine::step_in_shape(plan, state, request)
}

// The same call on a state by value: the answer, and the state that it leaves.
pub fn step(plan: Plan, state: State, request: Request) -> Turned
    ensures { turned_of result ≡ step_call plan state request.code request.process request.edge }
{
    let mut after = state;
    let reply = step_on(&plan, &mut after, request);
    Turned {
        reply,
        state: after,
    }
}

// Open p.
#[tactic(auto, using(machine::specs::Stepping::open_is))]
pub fn open(plan: Plan, state: State, process: u32) -> Turned
    ensures { turned_of result ≡ open_call plan state process }
{
    step(
        plan,
        state,
        Request {
            code: 0,
            process,
            edge: 0,
        },
    )
}

// Look p, e.
#[tactic(auto, using(machine::specs::Stepping::look_is))]
pub fn look(plan: Plan, state: State, process: u32, edge: u32) -> Turned
    ensures { turned_of result ≡ look_call plan state process edge }
{
    step(
        plan,
        state,
        Request {
            code: 1,
            process,
            edge,
        },
    )
}

// Fire p.
#[tactic(auto, using(machine::specs::Stepping::fire_is))]
pub fn fire(plan: Plan, state: State, process: u32) -> Turned
    ensures { turned_of result ≡ fire_call plan state process }
{
    step(
        plan,
        state,
        Request {
            code: 2,
            process,
            edge: 0,
        },
    )
}

// The token reading: 25 plan or state out of shape; 27 unknown or not synchronising. The state is not changed.
#[tactic(auto, using(machine::specs::InRange::both_plan, machine::specs::InRange::both_state, machine::specs::Stepping::reads_25, machine::specs::Stepping::reads))]
pub fn token_reading(plan: Plan, state: State, edge: u32) -> Result<u32, Reason>
    ensures { level_of result ≡ reading_call plan state edge }
{
    if !both_fit(&plan, &state) {
        return Err(Reason::OutOfShape);
    }
    machine::reading_in_shape(&plan, &state, edge)
}
