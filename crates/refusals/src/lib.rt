#![tactic(auto)]
// Turned-down calls, tested in 01's order: why a call is refused, by name and by 01's number.
// Bounds of counts stay in each `requires`: a type that held them all would ask more of a caller than each function asks.
ghost use Rattle.std.specs.Prelude.{◌≡◌, ◌<◌, ◌≤◌, MatchResult};
ghost use Rattle.refusals.specs.Numbers.{open_number, look_number, fire_number};
ghost use Rattle.refusals.specs.Reasons.{number_of, number_in, Allows};
ghost use Rattle.refusals.specs.declared.Reason.TheVariants.{UnknownProcess, NotMarked};

use plan::Plan;
use state::State;

// Why a call, a token reading or a beginning is turned down.
#[derive(Clone, Copy, PartialEq, Eq)]
pub enum Reason {
    UnknownProcess = 20,
    AlreadyOpen = 21,
    Closed = 22,
    NotMarked = 23,
    MarksLeft = 24,
    OutOfShape = 25,
    UnknownCode = 26,
    NotSynchronising = 27,
}

impl From<Reason> for u32 {
    ghost from_gives = { λ reason number. number ≡ number_of reason };

    // The number that 01 gives a reason.
    fn from(reason: Reason) -> u32 {
        reason as u32
    }
}

// A call as the host asks it: its code, 0 open, 1 look, 2 fire, and the process and the edge. Any numbers are a request.
#[derive(Clone, Copy)]
pub struct Request {
    pub code: u32,
    pub process: u32,
    pub edge: u32,
}

// A call that a request asks, of a known process and edge by their indexes.
#[derive(Clone, Copy)]
pub enum Call {
    Open { process: usize },
    Look { process: usize, edge: usize },
    Fire { process: usize },
}

// The index of a known process.
fn known_process(plan: &Plan, process: u32) -> Result<usize, Reason>
    ensures { MatchResult result (λ p. (p ≡ process) × (p < plan.now.processes)) (λ reason. (plan.now.processes ≤ process) × (reason ≡ UnknownProcess)) }
{
    if process < u32::from(plan.processes) {
        Ok(process as usize)
    } else {
        Err(Reason::UnknownProcess)
    }
}

// The index of a known edge. One that is not known is marked for no process.
fn known_edge(plan: &Plan, edge: u32) -> Result<usize, Reason>
    ensures { MatchResult result (λ e. (e ≡ edge) × (e < plan.now.edges)) (λ reason. (plan.now.edges ≤ edge) × (reason ≡ NotMarked)) }
{
    if edge < u32::from(plan.edges) {
        Ok(edge as usize)
    } else {
        Err(Reason::NotMarked)
    }
}

// 20 unknown process; 21 open on an open process.
#[tactic(auto, unfolding(crate::specs::Numbers::open_number), using(loops::specs::Choice::ifs))]
pub fn of_open(plan: &Plan, state: &State, process: u32) -> Result<(), Reason>
    requires { plan.now.processes ≤ 64 }
    ensures { number_in result ≡ open_number plan.now.processes state.now.opened process }
{
    let p = known_process(plan, process)?;
    if state.opened[p] != 0 {
        return Err(Reason::AlreadyOpen);
    }
    Ok(())
}

// 20 unknown process; 22 look on a closed one; 23 look at an edge that isn't marked for it.
#[tactic(auto, unfolding(crate::specs::Numbers::look_number, crate::specs::Numbers::marked_in), using(loops::specs::Choice::ifs))]
pub fn of_look(plan: &Plan, state: &State, process: u32, edge: u32) -> Result<(), Reason>
    requires { (plan.now.processes ≤ 64) × (plan.now.edges ≤ 512) }
    ensures { number_in result ≡ look_number plan.now.processes plan.now.edges state.now.opened state.now.marks process edge }
{
    let p = known_process(plan, process)?;
    if state.opened[p] == 0 {
        return Err(Reason::Closed);
    }
    let e = known_edge(plan, edge)?;
    if state.marks[512 * p + e] != 1 {
        return Err(Reason::NotMarked);
    }
    Ok(())
}

// 20 unknown process; 22 fire on a closed one; 24 fire with marks left.
#[tactic(auto, unfolding(crate::specs::Numbers::fire_number), using(loops::specs::Choice::ifs))]
pub fn of_fire(plan: &Plan, state: &State, process: u32) -> Result<(), Reason>
    requires { plan.now.processes ≤ 64 }
    ensures { number_in result ≡ fire_number plan.now.processes state.now.opened state.now.marks process }
{
    let p = known_process(plan, process)?;
    if state.opened[p] == 0 {
        return Err(Reason::Closed);
    }
    if rows::marks_left(state, p) != 0 {
        return Err(Reason::MarksLeft);
    }
    Ok(())
}

// The call that is asked, or why it is turned down: a code above 2 with 26.
#[tactic(auto, unfolding(crate::specs::Numbers::call_number), using(loops::specs::Choice::ifs))]
pub fn of_call(plan: &Plan, state: &State, request: Request) -> Result<Call, Reason>
    requires { (plan.now.processes ≤ 64) × (plan.now.edges ≤ 512) }
    ensures { Allows plan.now.processes plan.now.edges state.now.opened state.now.marks request result }
{
    let (process, edge) = (request.process as usize, request.edge as usize);
    match request.code {
        0 => {
            of_open(plan, state, request.process)?;
            Ok(Call::Open { process })
        }
        1 => {
            of_look(plan, state, request.process, request.edge)?;
            Ok(Call::Look { process, edge })
        }
        2 => {
            of_fire(plan, state, request.process)?;
            Ok(Call::Fire { process })
        }
        _ => Err(Reason::UnknownCode),
    }
}
