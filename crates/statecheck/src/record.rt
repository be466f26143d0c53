// Numbers out of a record, the lower byte first, 0 past its end. The plan value: nodes, processes, edges, counters, N, Q (4 bytes each); at 24
// the 64 lengths, at 152 the 64 order entries (2 each); at 280 the 64 pairs of counter and increment (2 and 2); at 536 the 512 edges (source,
// destination, tokens, 2 each). The state: at 3608 the 64 positions (2 each), at 3736 the 64 open flags (1 each), at 3800 the 64 counters
// (4 each), at 4056 the turn (4), at 4060 the number of marks (2), and behind it for each its process (1), value (1) and edge (2). Behind the
// marks the requests, to the record's end.
ghost use Rattle.std.specs.Prelude.{◌<◌};

use plan::Plan;
use state::State;
use std::array::from_fn;

// A byte.
pub fn byte_at(record: &[u8], offset: usize) -> u8 {
    record.get(offset).copied().unwrap_or(0)
}

// A number of two bytes.
fn pair_at(record: &[u8], offset: usize) -> u16
    requires { offset < 1000000 }
{
    u16::from_le_bytes([byte_at(record, offset), byte_at(record, offset + 1)])
}

// A number of four bytes.
pub fn number_at(record: &[u8], offset: usize) -> u32
    requires { offset < 900000 }
{
    u32::from_le_bytes(from_fn(|i| byte_at(record, offset + i)))
}

// A count of four bytes. A plan value holds a count in two bytes: one above 65,535 is read as 65,535, which is out of shape as well.
fn count_at(record: &[u8], offset: usize) -> u16
    requires { offset < 900000 }
{
    u16::try_from(number_at(record, offset)).unwrap_or(u16::MAX)
}

// What stands behind so many bytes.
fn behind(record: &[u8], offset: usize) -> &[u8] {
    record.get(offset..).unwrap_or(&[])
}

// A table of numbers of two bytes, each so many bytes behind the one before it.
fn table<const N: usize>(record: &[u8], from: usize, apart: usize) -> [u16; N]
    requires { 0 < apart }
{
    let mut table = [0; N];
    for (entry, bytes) in table.iter_mut().zip(behind(record, from).chunks(apart)) {
        *entry = pair_at(bytes, 0);
    }
    table
}

// The plan value.
pub fn plan_in(record: &[u8]) -> Plan {
    Plan {
        nodes: count_at(record, 0),
        processes: count_at(record, 4),
        edges: count_at(record, 8),
        counters: count_at(record, 12),
        modulus: number_at(record, 16),
        q: number_at(record, 20),
        lengths: table(record, 24, 2),
        order: table(record, 152, 2),
        counter: table(record, 280, 4),
        increment: table(record, 282, 4),
        source: table(record, 536, 6),
        destination: table(record, 538, 6),
        tokens: table(record, 540, 6),
    }
}

// The number of marks.
fn marks_count(record: &[u8]) -> usize
    ensures { result < 65536 }
{
    usize::from(pair_at(record, 4060))
}

// Where the mark of a process and an edge stands: the remainders by 64 and by 512 count.
fn mark_place(process: u8, edge: u16) -> usize
    ensures { result < 32768 }
{
    512 * (usize::from(process) % 64) + usize::from(edge) % 512
}

// The marks, by offset: one that stands past the record's end counts, as that of process 0 and edge 0.
fn marks_in(record: &[u8]) -> [u8; 32768] {
    let mut marks = [0; 32768];
    for i in 0..marks_count(record) {
        let offset = 4062 + 4 * i;
        let mark = mark_place(byte_at(record, offset), pair_at(record, offset + 2));
        marks[mark] = byte_at(record, offset + 1);
    }
    marks
}

// The state.
pub fn state_in(record: &[u8]) -> State {
    State {
        positions: table(record, 3608, 2),
        opened: from_fn(|i| byte_at(record, 3736 + i)),
        marks: marks_in(record),
        counters: from_fn(|i| number_at(record, 3800 + 4 * i)),
        turn: number_at(record, 4056),
    }
}

// The requests.
pub fn requests_in(record: &[u8]) -> &[u8] {
    behind(record, 4062 + 4 * marks_count(record))
}
