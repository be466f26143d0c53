#![tactic(auto)]
// Numbers as bytes: wider, read little-endian, and put as decimal text.
ghost use Rattle.std.specs.Prelude.{◌≡◌, ◌+◌, ◌*◌, ◌<◌, length};
ghost use Rattle.numerals.specs.LittleEndian.{two_bytes, four_bytes};

pub mod text;

// A number of two bytes, to index and to count with.
pub fn to_index(pair: u16) -> usize
    ensures { (result ≡ pair) × (result < 65536) }
{
    usize::from(pair)
}

// A number of two bytes, to add up and to answer with.
pub fn to_word(pair: u16) -> u32
    ensures { (result ≡ pair) × (result < 65536) }
{
    u32::from(pair)
}

// A byte as a number of two bytes.
pub fn byte_to_pair(byte: u8) -> u16
    ensures { (result ≡ byte) × (result < 256) }
{
    u16::from(byte)
}

// A byte, to add up and to answer with.
pub fn byte_to_word(byte: u8) -> u32
    ensures { (result ≡ byte) × (result < 256) }
{
    u32::from(byte)
}

// A number of four bytes, to index and to count with. (`as`: std has no `From` there.)
pub fn word_to_index(word: u32) -> usize
    ensures { result ≡ word }
{
    word as usize
}

// The number of two bytes, the lower one first.
pub fn pair_of(lower: u8, higher: u8) -> u16
    ensures { result ≡ lower + 256 * higher }
{
    u16::from(lower) + 256 * u16::from(higher)
}

// The number of two numbers of two bytes, the lower one first.
pub fn quad_of(lower: u16, higher: u16) -> u32
    ensures { result ≡ lower + 65536 * higher }
{
    u32::from(lower) + 65536 * u32::from(higher)
}

// The number of two bytes at an offset.
#[tactic(auto, unfolding(crate::specs::LittleEndian::two_bytes))]
pub fn pair_at(bytes: &[u8], offset: usize) -> u16
    requires { offset + 1 < length bytes.now }
    ensures { result ≡ two_bytes bytes.now offset }
{
    u16::from_le_bytes([bytes[offset], bytes[offset + 1]])
}

// The number of four bytes at an offset.
#[tactic(auto, unfolding(crate::specs::LittleEndian::two_bytes, crate::specs::LittleEndian::four_bytes))]
pub fn quad_at(bytes: &[u8], offset: usize) -> u32
    requires { offset + 3 < length bytes.now }
    ensures { result ≡ four_bytes bytes.now offset }
{
    u32::from_le_bytes([
        bytes[offset],
        bytes[offset + 1],
        bytes[offset + 2],
        bytes[offset + 3],
    ])
}
