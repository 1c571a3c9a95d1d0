// How a run ends.
ghost use Rattle.std.specs.Prelude.{◌≡◌, ◌++◌, OnOk, OnErr};
ghost use Rattle.run_outcome.specs.Ended.{status_of, line_of_end, line_of_input, line_of_store, line_of_limit, at_line, broken_line, rule_number};
ghost use Rattle.query_replies.specs.Written.{Adds};

use page_face::{Damage, Rule};
use query_replies::{write_bytes, write_number};
use spatial_base::Memory;

/// How a run ended.
#[derive(Clone, Copy, Debug, PartialEq, Eq)]
pub enum Ended {
    /// The whole transcript was printed, and the input was read to its end.
    Done,
    /// Out of memory.
    Memory,
    /// The words of the command line are refused; nothing was read or printed.
    Words,
    /// The disk failed.
    Disk,
    /// The source failed.
    Source,
    /// The sink failed.
    Sink,
    /// The input is refused.
    Input(InputFault),
    /// The image is no well-formed store.
    Store(StoreFault),
    /// The map or the area of pages takes no further place.
    Limit(LimitFault),
}

/// Why an input is refused. An offset counts the bytes before the offence.
#[derive(Clone, Copy, Debug, PartialEq, Eq)]
pub enum InputFault {
    /// At this offset the text of a load isn't UTF-8.
    NotUtf8(u64),
    /// At this offset the text of a load stops being JSON, or ends too early.
    Syntax(u64),
    /// At this offset the text of a load opens its 65th level.
    TooDeep(u64),
    /// The text of a load is JSON, and no feature and no collection of features.
    NotFeatures,
    /// A script has more than 268,435,456 bytes, or the text of a load more than 67,108,864.
    Long,
}

/// Why an image is no well-formed store.
#[derive(Clone, Copy, Debug, PartialEq, Eq)]
pub enum StoreFault {
    /// Page 0 isn't all zero, and begins neither with the magic nor with that of version 1.
    NotAStore,
    /// An open gate is followed by bytes that are no record. The number is the offset of the field that breaks its form.
    BadJournal(u64),
    /// A page breaks a rule.
    Damaged(Damage),
    /// Page 0 begins with the magic of version 1.
    Version1,
}

/// Which limit ended a run.
#[derive(Clone, Copy, Debug, PartialEq, Eq)]
pub enum LimitFault {
    /// 1,000,000 or more places live, and a key is new: in a load or a make.
    Full,
    /// The update number is 2^40: in a load or a make.
    Worn,
    /// No page is free, and there is room for no more pages than are counted.
    NoRoom,
}

impl Ended {
    /// Returns the program's exit status.
    pub fn status(&self) -> u8
        ensures { result ≡ status_of self.now }
    {
        match self {
            Ended::Done => 0,
            Ended::Memory => 1,
            Ended::Words => 2,
            Ended::Disk => 3,
            Ended::Source => 4,
            Ended::Sink => 5,
            Ended::Input(_) => 6,
            Ended::Store(_) => 7,
            Ended::Limit(_) => 8,
        }
    }

    /// Appends the line that the program prints on standard error, its LF included; for `Done` it appends nothing.
    ///
    /// Refuses `Memory` only, and then `out` holds its old bytes.
    pub fn write_text(&self, out: &mut Vec<u8>) -> Result<(), Memory>
        ensures ok { OnOk result (out.new.items ≡ out.old.items ++ line_of_end self.now) }
        ensures err { OnErr result (out.new.items ≡ out.old.items) }
    {
        let old_len = out.len();
        let written = self.write_line(&mut *out);
        if written.is_err() {
            out.truncate(old_len);
        }
        written
    }

    // Appends the line, or a part of it if it runs out of memory.
    fn write_line(&self, out: &mut Vec<u8>) -> Result<(), Memory>
        ensures { Adds result out.old.items (line_of_end self.now) out.new.items }
    {
        match self {
            Ended::Done => Ok(()),
            Ended::Memory => write_bytes(b"irtree: want of memory\n", out),
            Ended::Words => {
                write_bytes(
                    b"usage: irtree STORE run|load|verify|make|upgrade [options]\n",
                    out,
                )
            }
            Ended::Disk => write_bytes(b"irtree: disk\n", out),
            Ended::Source => write_bytes(b"irtree: source\n", out),
            Ended::Sink => write_bytes(b"irtree: sink\n", out),
            Ended::Input(fault) => {
                write_bytes(b"irtree: input ", &mut *out)?;
                fault.write_line(out)
            }
            Ended::Store(fault) => {
                write_bytes(b"irtree: ", &mut *out)?;
                fault.write_line(out)
            }
            Ended::Limit(fault) => fault.write_line(out),
        }
    }
}

impl InputFault {
    // Appends the end of the line.
    fn write_line(&self, out: &mut Vec<u8>) -> Result<(), Memory>
        ensures { Adds result out.old.items (line_of_input self.now) out.new.items }
    {
        match self {
            InputFault::NotUtf8(at) => write_at(b"not-utf8 ", *at, out),
            InputFault::Syntax(at) => write_at(b"syntax ", *at, out),
            InputFault::TooDeep(at) => write_at(b"too-deep ", *at, out),
            InputFault::NotFeatures => write_bytes(b"not-features\n", out),
            InputFault::Long => write_bytes(b"long\n", out),
        }
    }
}

impl StoreFault {
    // Appends the end of the line.
    fn write_line(&self, out: &mut Vec<u8>) -> Result<(), Memory>
        ensures { Adds result out.old.items (line_of_store self.now) out.new.items }
    {
        match self {
            StoreFault::NotAStore => write_bytes(b"not a store\n", out),
            StoreFault::BadJournal(at) => write_at(b"journal ", *at, out),
            StoreFault::Damaged(damage) => {
                write_bytes(b"damaged ", &mut *out)?;
                write_number(u64::from(damage.page), &mut *out)?;
                write_at(b" ", number_of(damage.rule), out)
            }
            StoreFault::Version1 => write_bytes(b"version 1\n", out),
        }
    }
}

/// Appends a line `broken PAGE RULE`, for a page that breaks a rule.
pub fn write_broken(damage: &Damage, out: &mut Vec<u8>) -> Result<(), Memory>
    ensures { Adds result out.old.items (broken_line damage.now) out.new.items }
{
    write_bytes(b"broken ", &mut *out)?;
    write_number(u64::from(damage.page), &mut *out)?;
    write_at(b" ", number_of(damage.rule), out)
}

// The number of a rule.
fn number_of(rule: Rule) -> u64
    ensures { result ≡ rule_number rule }
{
    match rule {
        Rule::Head => 1,
        Rule::Link => 2,
        Rule::Kind => 3,
        Rule::Fill => 4,
        Rule::Order => 5,
        Rule::Spare => 6,
        Rule::Level => 7,
        Rule::Value => 8,
        Rule::Shared => 9,
        Rule::Rect => 10,
        Rule::Row => 11,
        Rule::Entry => 12,
        Rule::Words => 13,
        Rule::Counts => 14,
    }
}

impl LimitFault {
    // Appends the line.
    fn write_line(&self, out: &mut Vec<u8>) -> Result<(), Memory>
        ensures { Adds result out.old.items (line_of_limit self.now) out.new.items }
    {
        match self {
            LimitFault::Full => write_bytes(b"irtree: limit full\n", out),
            LimitFault::Worn => write_bytes(b"irtree: limit worn\n", out),
            LimitFault::NoRoom => write_bytes(b"irtree: limit no-room\n", out),
        }
    }
}

// Appends a name, an offset and LF.
fn write_at(name: &[u8], at: u64, out: &mut Vec<u8>) -> Result<(), Memory>
    ensures { Adds result out.old.items (name.now ++ at_line at) out.new.items }
{
    write_bytes(name, &mut *out)?;
    write_number(at, &mut *out)?;
    write_bytes(b"\n", out)
}
