#![tactic(auto)]
// The plan value; sums over its tables, and the process of an order position. The tests of a plan by name, and what turns one down.
// Chains go over 0, 1, .. n - 1 and not over a slice, as the rules are of a number (`loops/Chains`).
// Bounds of counts stay in each `requires`: a type that held them all would ask more of a caller than each function asks.
// `as` stands where std has no `From`: for the number of an enum, and for a number that is proved to fit the smaller type.
ghost use Rattle.std.specs.Prelude.{◌≡◌, ◌^◌, ◌<◌, ◌≤◌, IfSome};
ghost use Rattle.loops.specs.Choice.{at};
ghost use Rattle.loops.specs.Sum.{sum};
ghost use Rattle.plan.specs.Value.{base, share};
ghost use Rattle.plan.specs.Tests.{process_at};
ghost use Rattle.plan.specs.Refusals.{number_of, refused_at, refused_if};

// A plan value as C holds it: counts beside tables of a fixed size, and a table for each number of a node and of an edge.
#[repr(C)]
#[derive(Clone, Copy)]
pub struct Plan {
    pub nodes: u16,
    pub processes: u16,
    pub edges: u16,
    pub counters: u16,
    pub modulus: u32,
    pub q: u32,
    pub lengths: [u16; 64],
    pub order: [u16; 64],
    pub counter: [u16; 64],
    pub increment: [u16; 64],
    pub source: [u16; 512],
    pub destination: [u16; 512],
    pub tokens: [u16; 512],
}

// The counts of a plan and its N: what test 3 looks at, and what the layout of an image goes by.
#[derive(Clone, Copy)]
pub struct Counts {
    pub nodes: u16,
    pub processes: u16,
    pub edges: u16,
    pub counters: u16,
    pub modulus: u32,
}

// An edge: where it comes from, where it ends and its starting tokens.
#[derive(Clone, Copy, PartialEq, Eq)]
pub struct Edge {
    pub source: u16,
    pub destination: u16,
    pub tokens: u16,
}

impl Plan {
    // The counts and N.
    pub fn counts(&self) -> Counts
        ensures { result ≡ record { nodes = self.now.nodes; processes = self.now.processes; edges = self.now.edges; counters = self.now.counters; modulus = self.now.modulus } }
    {
        Counts {
            nodes: self.nodes,
            processes: self.processes,
            edges: self.edges,
            counters: self.counters,
            modulus: self.modulus,
        }
    }

    // An edge of the table.
    pub fn edge(&self, e: usize) -> Edge
        requires { e < 512 }
        ensures { result ≡ record { source = at self.now.source e; destination = at self.now.destination e; tokens = at self.now.tokens e } }
    {
        Edge {
            source: self.source[e],
            destination: self.destination[e],
            tokens: self.tokens[e],
        }
    }

    // Number 5: what the process lengths add up to; also where a process begins in the firing order.
    pub fn lengths_sum(&self, processes: usize) -> usize
        requires { processes ≤ 64 }
        ensures { result ≡ base self.now.lengths processes }
    {
        (0..processes).map(|p| usize::from(self.lengths[p])).sum()
    }

    // What a firing of a node adds to counter c.
    #[tactic(auto, using(loops::specs::Choice::ifs), unfolding(crate::specs::Value::share))]
    pub fn share_of(&self, c: usize, v: usize) -> u16
        requires { v < 64 }
        ensures { result ≡ share self.now.counter self.now.increment c v }
    {
        if usize::from(self.counter[v]) == c {
            self.increment[v]
        } else {
            0
        }
    }

    // The sum of the increments of the nodes that have counter c.
    pub fn counter_sum(&self, c: usize) -> u32
        requires { self.now.nodes ≤ 64 }
        ensures { result ≡ sum (share self.now.counter self.now.increment c) self.now.nodes }
    {
        (0..usize::from(self.nodes))
            .map(|v| u32::from(self.share_of(c, v)))
            .sum()
    }

    // The process of an order position, or the number of processes past the last one's end: a number in both cases, as the rule has it
    // (`process_at`), and callers go on to where that process begins.
    pub fn process_of_order_position(&self, i: usize) -> usize
        requires { self.now.processes ≤ 64 }
        ensures { result ≡ process_at self.now.lengths self.now.processes i }
    {
        let processes = usize::from(self.processes);
        let mut end = 0;
        for p in 0..processes {
            end += usize::from(self.lengths[p]);
            if i < end {
                return p;
            }
        }
        processes
    }
}

// The tests of a plan image, in 01's order.
#[derive(Clone, Copy, PartialEq, Eq)]
pub enum Test {
    // The image is shorter than its header.
    Header = 1,
    // Format, and the bytes that are zero.
    Format = 2,
    // The counts and N are within their bounds.
    Counts = 3,
    // The offsets, the total and the length are what the counts give.
    Layout = 4,
    // The process lengths: none is 0, and they add up to the number of nodes.
    Lengths = 5,
    // The firing order: each entry is a node, none twice.
    Order = 6,
    // A node's counter is known and its increment is at most 255.
    Nodes = 7,
    // An edge's ends are known, its tokens at most 1,000, and it is above the one before it.
    Edges = 8,
    // C0: the edges of the processes.
    ProcessEdges = 9,
    // C1: the nodes of a counter are in one process.
    Counters = 10,
    // C2: a node with a synchronising out-edge has an increment.
    Increments = 11,
    // C3: the sums of the counters.
    Sums = 12,
    // No cycle is without tokens.
    FreeCycles = 13,
    // Each synchronising edge has a route back.
    WaysBack = 14,
    // N is a multiple of Q.
    Multiple = 15,
    // C4: N is above the bound of each synchronising edge.
    Bounds = 16,
}

impl From<Test> for u32 {
    ghost from_gives = { λ test number. number ≡ number_of test };

    // The number that 01 gives a test.
    fn from(test: Test) -> u32 {
        test as u32
    }
}

// What turns a plan down: the test that it fails, and where.
#[derive(Clone, Copy, PartialEq, Eq)]
pub struct Refusal {
    pub test: Test,
    pub place: u32,
}

impl Test {
    // Turned down at a place.
    pub fn at(self, place: usize) -> Refusal
        requires { place < 2 ^ 32 }
        ensures { result ≡ record { test = self; place = place } }
    {
        Refusal {
            test: self,
            place: place as u32,
        }
    }

    // Turned down at the place that was found, if one was.
    pub fn refuse_lowest(self, found: Option<usize>) -> Result<(), Refusal>
        requires { IfSome found (λ place. place < 2 ^ 32) }
        ensures { result ≡ refused_at self found }
    {
        match found {
            Some(place) => Err(self.at(place)),
            None => Ok(()),
        }
    }

    // Turned down at place 0 where it is so.
    pub fn refuse_if(self, bad: bool) -> Result<(), Refusal>
        ensures { result ≡ refused_if self bad }
    {
        if bad { Err(self.at(0)) } else { Ok(()) }
    }
}
