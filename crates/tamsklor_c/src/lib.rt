#![tactic(auto)]
// The archive for C: each public function of `tamsklor` under its own name, with its promises. include/tamsklor.h declares these.
ghost use Rattle.std.specs.Prelude.{◌≡◌};
ghost use Rattle.reader.specs.Tests.{verdict, read_of};
ghost use Rattle.machine.specs.Calls.{begin_run, step_call, reading_call};
ghost use Rattle.tamsklor.specs.Numbers.{numbers_of, numbers_of_read, numbers_of_begin, numbers_of_reply, numbers_of_level, version};

use plan::Plan;
use state::State;
use tamsklor::{Begun, CallAnswer, PlanRead, Stepped, TokenAnswer, Verdict};

// The plan check over the image's bytes.
#[unsafe(no_mangle)]
pub extern "C" fn tamsklor_plan_check(image: &[u8]) -> Verdict
    ensures { result ≡ numbers_of (verdict image.now) }
{
    tamsklor::tamsklor_plan_check(image)
}

// The plan of an image beside the plan check's numbers; all 0 after a refusal.
#[unsafe(no_mangle)]
pub extern "C" fn tamsklor_plan_read(image: &[u8]) -> PlanRead
    ensures { result ≡ numbers_of_read (read_of image.now) }
{
    tamsklor::tamsklor_plan_read(image)
}

// Beginning a run of the host's plan.
#[unsafe(no_mangle)]
pub extern "C" fn tamsklor_run_begin(plan: &Plan) -> Begun
    ensures { result ≡ numbers_of_begin (begin_run plan.now) }
{
    tamsklor::tamsklor_run_begin(plan)
}

// One call on the host's one state, updated where it stands: open, look or fire by its code.
#[unsafe(no_mangle)]
pub extern "C" fn tamsklor_run_step(
    plan: &Plan,
    state: &mut State,
    code: u32,
    process: u32,
    edge: u32,
) -> CallAnswer
    ensures { (result ≡ numbers_of_reply (step_call plan.now state.old code process edge).reply) × (state.new ≡ (step_call plan.now state.old code process edge).state) }
{
    tamsklor::tamsklor_run_step(plan, state, code, process, edge)
}

// One call on a plan and a state by value: the answer as numbers, and the state that it leaves.
#[unsafe(no_mangle)]
pub extern "C" fn tamsklor_run_stepped(
    plan: Plan,
    state: State,
    code: u32,
    process: u32,
    edge: u32,
) -> Stepped
    ensures { (result.answer ≡ numbers_of_reply (step_call plan state code process edge).reply) × (result.state ≡ (step_call plan state code process edge).state) }
{
    tamsklor::tamsklor_run_stepped(plan, state, code, process, edge)
}

// The token reading of an edge on the host's plan and state. Neither is changed.
#[unsafe(no_mangle)]
pub extern "C" fn tamsklor_run_tokens(plan: &Plan, state: &State, edge: u32) -> TokenAnswer
    ensures { result ≡ numbers_of_level (reading_call plan.now state.now edge) }
{
    tamsklor::tamsklor_run_tokens(plan, state, edge)
}

// The version: 10,000 times the major number, 100 times the minor number and the patch number.
#[unsafe(no_mangle)]
pub extern "C" fn tamsklor_version() -> u32
    ensures { result ≡ version }
{
    tamsklor::tamsklor_version()
}
