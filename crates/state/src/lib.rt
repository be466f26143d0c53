#![tactic(auto)]
// The state of a run.
ghost use Rattle.std.specs.Prelude.{◌≡◌};
ghost use Rattle.state.specs.Fresh.{fresh};

// The run's state as C holds it: for each process a position, open (1) or closed (0), and a row of 512 marks of edges still to see; the counters; a turn number.
#[repr(C)]
#[derive(Clone, Copy)]
pub struct State {
    pub positions: [u16; 64],
    pub opened: [u8; 64],
    pub marks: [u8; 32768],
    pub counters: [u32; 64],
    pub turn: u32,
}

impl State {
    // First positions, all closed, nothing marked, all counters 0, turn 0. Written where the caller has it, so that no copy is on the stack.
    #[inline(always)]
    #[tactic(auto, unfolding(crate::specs::Fresh::fresh))]
    pub fn fresh() -> State
        ensures { result ≡ fresh }
    {
        State {
            positions: [0; 64],
            opened: [0; 64],
            marks: [0; 32768],
            counters: [0; 64],
            turn: 0,
        }
    }
}
