//! The 32 bytes of a row, one for each slot of a node.
ghost use Rattle.std.specs.Prelude.{◌≡◌, ◌<◌, ◌==◌, ℕ, if◌then◌else◌, max, true, slice_index};
ghost use Rattle.std.specs.Int.{bit_at};
ghost use Rattle.page_face.specs.FreeList.{are_zero};
ghost use Rattle.rtree_nodes.specs.Slots.{top_to};

/// Returns a row of zeros.
pub fn clear_row() -> [u8; 32]
    ensures none { (i : ℕ) → slice_index result i ≡ 0 }
    ensures clear { are_zero result ≡ true }
{
    [0; 32]
}

/// Returns whether each byte of a row is 0.
pub fn is_clear(row: &[u8; 32]) -> bool
    ensures { result ≡ are_zero row.now }
{
    row.iter().all(|byte| *byte == 0)
}

/// Whether a slot is among those of a mask.
fn is_set(slots: u32, at: usize) -> bool
    requires { at < 32 }
    ensures { result ≡ (bit_at slots at == 1) }
{
    (slots >> at) & 1 == 1
}

/// The byte if it is wanted, and 0 otherwise.
fn pick(is_wanted: bool, byte: u8) -> u8
    ensures { result ≡ (if is_wanted then byte else 0) }
{
    if is_wanted { byte } else { 0 }
}

/// Returns the bytes at the slots of a mask, its set bits, and zeros at the others.
pub fn moving(row: &[u8; 32], slots: u32) -> [u8; 32]
    ensures { (i : ℕ) → slice_index result i ≡ (if bit_at slots i == 1 then slice_index row.now i else 0) }
{
    let mut out = clear_row();
    for i in 0..32 {
        out[i] = pick(is_set(slots, i), row[i]);
    }
    out
}

/// Returns the bytes at the slots that aren't in a mask, and zeros at those that are.
pub fn staying(row: &[u8; 32], slots: u32) -> [u8; 32]
    ensures { (i : ℕ) → slice_index result i ≡ (if bit_at slots i == 1 then 0 else slice_index row.now i) }
{
    let mut out = clear_row();
    for i in 0..32 {
        out[i] = pick(!is_set(slots, i), row[i]);
    }
    out
}

/// Returns the greater of two bytes.
pub fn greater(a: u8, b: u8) -> u8
    ensures { result ≡ max b a }
{
    if a < b { b } else { a }
}

/// Sets one byte of a row.
pub fn put_byte(row: &mut [u8; 32], slot: usize, byte: u8)
    requires { slot < 32 }
    ensures { (i : ℕ) → slice_index row.new i ≡ (if i == slot then byte else slice_index row.old i) }
{
    row[slot] = byte;
}

/// Returns the greatest byte of a row.
pub fn greatest(row: &[u8; 32]) -> u8
    ensures { result ≡ top_to 32 (λ i. slice_index row.now i) }
{
    let mut top = 0;
    for i in 0..32 {
        top = greater(top, row[i]);
    }
    top
}
