//! Page 0 of a store, as it is kept in memory and on the disk.
//!
//! | Bytes | Field |
//! |---|---|
//! | 0 to 7 | magic `IRTREE02`, in a store of version 1 `IRTREE01` |
//! | 8 to 11 | pages counted, page 0 included, u32, at least 1 |
//! | 12 to 15 | first free page, u32, 0 for none |
//! | 16 to 35 | roots of the place map, the words by text, the words by number, the rows' map and the tree, u32 each |
//! | 36 to 39 | live places, u32 |
//! | 40 to 47 | next serial, u64, at least 1, at most the update number plus 1 |
//! | 48 to 55 | update number, u64, at most 2^40 |
//! | 56 to 63 | next word number, u64, at least 1, at most 64 * (the update number + 1) |
//! | 64 to 4095 | spare, zero |
//!
//! All numbers are big-endian. The first free page and the roots are below the pages counted. A page of zeros is the empty store.
//! A page that begins with `IRTREE01` is that of a store of version 1, whose rows are others.
ghost use Rattle.std.specs.Prelude.{◌≡◌, ◌≤◌, ◌<◌, ◌+◌, ◌^◌, ◌++◌, ◌↔◌, true, IsTrue, take, drop, IfOk, MatchResult};
ghost use Rattle.std.specs.Int.{to_be_bytes, w32, w64};
ghost use Rattle.page_store.specs.Contents.{IsVersion1Page};
ghost use Rattle.page_store.specs.Superblock.{IsInRange, HasMagic, HasMagicOfVersion1, IsStorePage, IsHeadFault, IsPageOfVersion1, IsFaultOfVersion1, empty_store, superblock_in, fields_of, header_of, in_version2, magic_of, version_in, word_at as number_at, long_at as long_number_at, is_zero as are_zero, has_clear_spare};

use page_face::{Head, Page, Version};

const MAGIC: [u8; 8] = *b"IRTREE02";

const MAGIC_OF_VERSION1: [u8; 8] = *b"IRTREE01";

/// The greatest update number.
const NUMBER_MAX: u64 = 1 << 40;

/// The fields of page 0.
#[derive(Clone, Copy, Debug, PartialEq, Eq)]
pub struct Superblock {
    /// The pages counted, page 0 included.
    pub counted: u32,
    /// The first free page, or 0.
    pub first_free: u32,
    /// The fields that the layers above keep.
    pub head: Head,
}

/// Why page 0 isn't that of a store.
#[derive(Clone, Copy, Debug, PartialEq, Eq)]
pub(crate) enum HeadFault {
    // It isn't all zero, and begins with neither magic.
    NotAStore,
    // It begins with the magic of version 1.
    Version1,
    // It begins with the magic, and a field or a spare byte breaks the rule Head.
    Broken,
}

// The u32 at an offset.
#[tactic(auto, unfolding(crate::specs::Superblock::word_at))]
fn word_at(page: &Page, at: usize) -> u32
    requires { at + 4 ≤ 4096 }
    ensures { result ≡ number_at page.now at }
{
    u32::from_be_bytes([page[at], page[at + 1], page[at + 2], page[at + 3]])
}

// The u64 at an offset.
#[tactic(auto, unfolding(crate::specs::Superblock::long_at))]
fn long_at(page: &Page, at: usize) -> u64
    requires { at + 8 ≤ 4096 }
    ensures { result ≡ long_number_at page.now at }
{
    u64::from_be_bytes([
        page[at],
        page[at + 1],
        page[at + 2],
        page[at + 3],
        page[at + 4],
        page[at + 5],
        page[at + 6],
        page[at + 7],
    ])
}

// Writes a u32 among the first 64 bytes.
fn put_word(page: &mut Page, at: usize, n: u32)
    requires { at + 4 ≤ 64 }
    ensures front { take (at + 4) page.new ≡ take at page.old ++ to_be_bytes w32 n }
    ensures behind { drop 64 page.new ≡ drop 64 page.old }
    ensures fits { n < 2 ^ 32 }
{
    page[at..at + 4].copy_from_slice(&n.to_be_bytes());
}

// Writes a u64 among the first 64 bytes.
fn put_long(page: &mut Page, at: usize, n: u64)
    requires { at + 8 ≤ 64 }
    ensures front { take (at + 8) page.new ≡ take at page.old ++ to_be_bytes w64 n }
    ensures behind { drop 64 page.new ≡ drop 64 page.old }
    ensures fits { n < 2 ^ 64 }
{
    page[at..at + 8].copy_from_slice(&n.to_be_bytes());
}

// A page with the magic of a version, and zeros after it.
fn blank(version: Version) -> Page
    ensures magic { take 8 result ≡ magic_of version }
    ensures spare { has_clear_spare result ≡ true }
{
    let mut page = [0; 4096];
    match version {
        Version::One => page[..8].copy_from_slice(&MAGIC_OF_VERSION1),
        Version::Two => page[..8].copy_from_slice(&MAGIC),
    }
    page
}

fn is_zero(bytes: &[u8]) -> bool
    ensures { result ≡ are_zero bytes.now }
{
    bytes.iter().all(|byte| *byte == 0)
}

fn has_magic(page: &Page) -> bool
    ensures { IsTrue result ↔ HasMagic page.now }
{
    page[..8] == MAGIC[..]
}

fn has_magic_of_version1(page: &Page) -> bool
    ensures { IsTrue result ↔ HasMagicOfVersion1 page.now }
{
    page[..8] == MAGIC_OF_VERSION1[..]
}

// The version that page 0 names in its eighth byte.
fn version_of(page: &Page) -> Version
    ensures { result ≡ version_in page.now }
{
    if page[7] == b'1' {
        Version::One
    } else {
        Version::Two
    }
}

impl Superblock {
    /// The superblock of the empty store: only page 0 is counted.
    pub(crate) fn empty() -> Superblock
        ensures { result ≡ empty_store }
    {
        Superblock {
            counted: 1,
            first_free: 0,
            head: Head {
                version: Version::Two,
                places: 0,
                texts: 0,
                numbers: 0,
                rows: 0,
                tree: 0,
                live: 0,
                serial: 1,
                number: 0,
                next_word: 1,
            },
        }
    }

    // The version, and the fields after the magic.
    fn fields(page: &Page) -> Superblock
        ensures { result ≡ fields_of page.now }
    {
        Superblock {
            counted: word_at(page, 8),
            first_free: word_at(page, 12),
            head: Head {
                version: version_of(page),
                places: word_at(page, 16),
                texts: word_at(page, 20),
                numbers: word_at(page, 24),
                rows: word_at(page, 28),
                tree: word_at(page, 32),
                live: word_at(page, 36),
                serial: long_at(page, 40),
                number: long_at(page, 48),
                next_word: long_at(page, 56),
            },
        }
    }

    /// Whether each field is in its range, in a store of version 2.
    pub fn is_in_range(&self) -> bool
        ensures { IsTrue result ↔ IsInRange self.now }
    {
        let Head {
            version,
            places,
            texts,
            numbers,
            rows,
            tree,
            live: _,
            serial,
            number,
            next_word,
        } = self.head;
        let is_counted = |page: u32| page < self.counted;
        version == Version::Two
            && is_counted(self.first_free)
            && is_counted(places)
            && is_counted(texts)
            && is_counted(numbers)
            && is_counted(rows)
            && is_counted(tree)
            && number <= NUMBER_MAX
            && 1 <= serial
            && serial <= number + 1
            && 1 <= next_word
            && next_word <= 64 * (number + 1)
    }

    /// Reads the superblock from page 0, or returns why it isn't that of a store.
    pub(crate) fn decode(page: &Page) -> Result<Superblock, HeadFault>
        ensures in_range { IfOk result IsInRange }
        ensures exact { MatchResult result (λ block. IsStorePage page.now × (block ≡ superblock_in page.now)) (λ fault. IsHeadFault fault page.now) }
    {
        if is_zero(page) {
            return Ok(Superblock::empty());
        }
        if has_magic_of_version1(page) {
            return Err(HeadFault::Version1);
        }
        if !has_magic(page) {
            return Err(HeadFault::NotAStore);
        }
        let block = Superblock::fields(page);
        if !block.is_in_range() {
            return Err(HeadFault::Broken);
        }
        if !is_zero(&page[64..]) {
            return Err(HeadFault::Broken);
        }
        Ok(block)
    }

    // The same fields in version 2.
    fn in_version2(&self) -> Superblock
        ensures { result ≡ in_version2 self.now }
    {
        Superblock {
            head: Head {
                version: Version::Two,
                ..self.head
            },
            ..*self
        }
    }

    /// Reads the superblock from page 0 of a store of version 1, or returns why it isn't that of one.
    pub(crate) fn decode_version1(page: &Page) -> Result<Superblock, HeadFault>
        ensures in_range { IfOk result (λ block. IsInRange (in_version2 block)) }
        ensures exact { MatchResult result (λ block. IsPageOfVersion1 page.now × (block ≡ superblock_in page.now)) (λ fault. IsFaultOfVersion1 fault page.now) }
    {
        if is_zero(page) {
            return Ok(Superblock::empty());
        }
        if !has_magic_of_version1(page) {
            return Err(HeadFault::NotAStore);
        }
        let block = Superblock::fields(page);
        if !block.in_version2().is_in_range() {
            return Err(HeadFault::Broken);
        }
        if !is_zero(&page[64..]) {
            return Err(HeadFault::Broken);
        }
        Ok(block)
    }

    /// Page 0 with these fields.
    pub(crate) fn encode(&self) -> Page
        ensures header { take 64 result ≡ header_of self.now }
        ensures spare { has_clear_spare result ≡ true }
        ensures block { superblock_in result ≡ self.now }
        ensures store { IsInRange self.now → IsStorePage result }
        ensures version1 { IsVersion1Page self.now result }
    {
        let mut page = blank(self.head.version);
        put_word(&mut page, 8, self.counted);
        put_word(&mut page, 12, self.first_free);
        put_word(&mut page, 16, self.head.places);
        put_word(&mut page, 20, self.head.texts);
        put_word(&mut page, 24, self.head.numbers);
        put_word(&mut page, 28, self.head.rows);
        put_word(&mut page, 32, self.head.tree);
        put_word(&mut page, 36, self.head.live);
        put_long(&mut page, 40, self.head.serial);
        put_long(&mut page, 48, self.head.number);
        put_long(&mut page, 56, self.head.next_word);
        page
    }
}
