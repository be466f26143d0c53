#![tactic(auto)]
// A plan image: where its tables begin, tests 2 and 4, and the plan value that its numbers give.
// `as` stands where std has no `From`: a `usize` from a `u32`, or a number that is proved to fit the smaller type.
// That the header is there (`36 ≤ length`) stays a `requires` of the image's bytes: the reader has tested it, and a type would be a second image.
ghost use Rattle.std.specs.Prelude.{◌≡◌, ◌+◌, ◌<◌, ◌≤◌, eqb, length};
ghost use Rattle.loops.specs.Table.{padded};
ghost use Rattle.numerals.specs.LittleEndian.{two_bytes, four_bytes};
ghost use Rattle.image.specs.Image.{entry, nodes_in, processes_in, edges_in, order_from, nodes_from, edges_from, tables_of};
ghost use Rattle.image.specs.Offsets.{order_start, node_start, edge_start, total};
ghost use Rattle.image.specs.Room.{Room, Laid};
ghost use Rattle.image.specs.Header.{good_format, good_offsets, good_later_offsets};

use plan::{Counts, Plan};

// Number 2: the format is 1, and bytes 10 and 11 are zero.
#[tactic(auto, using(loops::specs::Choice::ifs), unfolding(loops::specs::Values::both, crate::specs::Header::good_format))]
pub fn format_fits(image: &[u8]) -> bool
    requires { 36 ≤ length image.now }
    ensures { result ≡ good_format image.now }
{
    numerals::pair_at(image, 0) == 1 && numerals::pair_at(image, 10) == 0
}

// The counts of the header, and N.
pub fn counts_of(image: &[u8]) -> Counts
    requires { 36 ≤ length image.now }
    ensures { result ≡ record { nodes = two_bytes image.now 2; processes = two_bytes image.now 4; edges = two_bytes image.now 6; counters = two_bytes image.now 8; modulus = four_bytes image.now 12 } }
{
    Counts {
        nodes: numerals::pair_at(image, 2),
        processes: numerals::pair_at(image, 4),
        edges: numerals::pair_at(image, 6),
        counters: numerals::pair_at(image, 8),
        modulus: numerals::quad_at(image, 12),
    }
}

// A table of n numbers of two bytes, one every `step` bytes from `start` on, and 0 past them.
#[tactic(auto, using(loops::specs::Table::fills), unfolding(crate::specs::Image::entry))]
fn table_of<const N: usize>(image: &[u8], start: usize, step: usize, n: usize) -> [u16; N]
    requires { (n ≤ N) × Room image.now start step n }
    ensures { result ≡ padded (entry image.now start step) N n }
{
    let mut table = [0; N];
    for k in 0..n {
        table[k] = numerals::pair_at(image, start + step * k);
    }
    table
}

// Where the firing order begins: after the process lengths.
#[tactic(auto, unfolding(crate::specs::Offsets::order_start))]
pub fn order_start(counts: Counts) -> usize
    ensures { (result ≡ order_start counts.processes) × (result < 200000) }
{
    36 + 2 * usize::from(counts.processes)
}

// Where the node table begins: after the firing order.
#[tactic(auto, unfolding(crate::specs::Offsets::node_start))]
pub fn node_start(counts: Counts) -> usize
    ensures { (result ≡ node_start counts.processes counts.nodes) × (result < 400000) }
{
    order_start(counts) + 2 * usize::from(counts.nodes)
}

// Where the edge table begins: after the node table.
#[tactic(auto, unfolding(crate::specs::Offsets::edge_start))]
pub fn edge_start(counts: Counts) -> usize
    ensures { (result ≡ edge_start counts.processes counts.nodes) × (result < 800000) }
{
    node_start(counts) + 4 * usize::from(counts.nodes)
}

// Where the image ends: after the edge table.
#[tactic(auto, unfolding(crate::specs::Offsets::total))]
pub fn total(counts: Counts) -> usize
    ensures { (result ≡ total counts.processes counts.nodes counts.edges) × (result < 1200000) }
{
    edge_start(counts) + 6 * usize::from(counts.edges)
}

// The number of four bytes at a place is the one wanted.
fn holds_at(image: &[u8], place: usize, wanted: usize) -> bool
    requires { place + 3 < length image.now }
    ensures { result ≡ eqb (four_bytes image.now place) wanted }
{
    numerals::quad_at(image, place) as usize == wanted
}

// The offsets of the node table and the edge table, the total and the length are what the counts give.
#[tactic(auto, using(loops::specs::Choice::ifs), unfolding(loops::specs::Values::both, crate::specs::Header::good_later_offsets))]
fn later_offsets_fit(image: &[u8]) -> bool
    requires { 36 ≤ length image.now }
    ensures { result ≡ good_later_offsets image.now }
{
    let counts = counts_of(image);
    let whole = total(counts);
    holds_at(image, 24, node_start(counts))
        && holds_at(image, 28, edge_start(counts))
        && holds_at(image, 32, whole)
        && image.len() == whole
}

// Number 4: the offsets, the total and the length are what the counts give.
#[tactic(auto, using(loops::specs::Choice::ifs), unfolding(loops::specs::Values::both, crate::specs::Header::good_offsets))]
pub fn offsets_fit(image: &[u8]) -> bool
    requires { 36 ≤ length image.now }
    ensures { result ≡ good_offsets image.now }
{
    holds_at(image, 16, 36)
        && holds_at(image, 20, order_start(counts_of(image)))
        && later_offsets_fit(image)
}

// The plan value that the image's numbers give, before any sum: its Q is 0.
#[tactic(auto, unfolding(crate::specs::Image::tables_of, crate::specs::Offsets::order_start, crate::specs::Offsets::node_start, crate::specs::Offsets::edge_start, crate::specs::Offsets::total))]
pub fn plan_from(image: &[u8]) -> Plan
    requires { Laid image.now }
    ensures { result ≡ tables_of image.now }
{
    let counts = counts_of(image);
    let nodes = usize::from(counts.nodes);
    let edges = usize::from(counts.edges);
    let node_table = node_start(counts);
    let edge_table = edge_start(counts);
    Plan {
        nodes: counts.nodes,
        processes: counts.processes,
        edges: counts.edges,
        counters: counts.counters,
        modulus: counts.modulus,
        q: 0,
        lengths: table_of(image, 36, 2, usize::from(counts.processes)),
        order: table_of(image, order_start(counts), 2, nodes),
        counter: table_of(image, node_table, 4, nodes),
        increment: table_of(image, node_table + 2, 4, nodes),
        source: table_of(image, edge_table, 6, edges),
        destination: table_of(image, edge_table + 2, 6, edges),
        tokens: table_of(image, edge_table + 4, 6, edges),
    }
}
