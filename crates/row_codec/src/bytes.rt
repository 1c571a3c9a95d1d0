//! Numbers in bytes.
ghost use Rattle.std.specs.Prelude.{◌≡◌, ◌≤◌, ◌+◌, ◌++◌, length, take, drop};
ghost use Rattle.std.specs.Int.{from_be_bytes, to_be_bytes, w32, w64};
ghost use Rattle.row_codec.specs.Counted.{number_bytes as bytes_of_number};

// Writes bytes over those at a place.
pub(crate) fn write_at(out: &mut [u8], at: usize, bytes: &[u8])
    requires { at + length bytes.now ≤ length out.old }
    ensures front { take (at + length bytes.now) out.new ≡ take at out.old ++ bytes.now }
{
    out[at..at + bytes.len()].copy_from_slice(bytes);
}

// The u32 at a place.
pub(crate) fn u32_at(bytes: &[u8], at: usize) -> u32
    requires { at + 4 ≤ length bytes.now }
    ensures { to_be_bytes w32 result ≡ take 4 (drop at bytes.now) }
{
    u32::from_be_bytes([bytes[at], bytes[at + 1], bytes[at + 2], bytes[at + 3]])
}

// The u64 at a place.
pub(crate) fn u64_at(bytes: &[u8], at: usize) -> u64
    requires { at + 8 ≤ length bytes.now }
    ensures { to_be_bytes w64 result ≡ take 8 (drop at bytes.now) }
{
    u64::from_be_bytes([
        bytes[at],
        bytes[at + 1],
        bytes[at + 2],
        bytes[at + 3],
        bytes[at + 4],
        bytes[at + 5],
        bytes[at + 6],
        bytes[at + 7],
    ])
}

/// A word's number as a key of the words by number, or as a value of the words by text.
#[tactic(auto, unfolding(crate::specs::Counted::number_bytes))]
pub fn number_bytes(number: u64) -> [u8; 8]
    ensures { result ≡ bytes_of_number number }
{
    number.to_be_bytes()
}

/// The word's number that these bytes are.
pub fn number_of_bytes(bytes: &[u8; 8]) -> u64
    ensures { bytes_of_number result ≡ bytes.now }
{
    u64_at(bytes, 0)
}
