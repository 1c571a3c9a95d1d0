/// Why a spelling is refused.
#[derive(Clone, Copy, Debug, PartialEq, Eq, Drop)]
pub enum NumberFault {
    /// The text is not a number of RFC 8259, section 6.
    NotANumber = 1,
    /// The text has more than 64 bytes.
    TooLong = 2,
    /// The rounded value is more than 10^12 units of 10^-7 from 0.
    TooBig = 3,
    /// The value was read, but it is out of the range that the call accepts.
    OutOfRange = 4,
}
