// The causes, each with its number and its words.
use thiserror::Error;

#[derive(Clone, Copy, PartialEq, Eq, Debug, Error)]
pub enum Cause {
    #[error("more bytes than the limit of 2,147,483,647")]
    OverLimit = 1,
    #[error("a buffer that is not as long as at the start")]
    OtherBuffer = 2,
    #[error("an alignment that is neither 0 nor a power of two up to 4,096")]
    BadAlignment = 3,
    #[error("not enough room")]
    NoRoom = 4,
    #[error("a write past the used length")]
    PastUsed = 5,
    #[error("not as many bytes as the kind's size")]
    WrongSize = 6,
    #[error("a count or capacity that is not 1 to 65,535")]
    BadCount = 7,
    #[error("another mark than the kind's")]
    WrongMark = 11,
    #[error("the sheet ends too early")]
    SheetEnds = 12,
    #[error("bytes in the sheet that are not UTF-8 text")]
    SheetNotText = 13,
    #[error("a truth above 1, or a character that is no Unicode scalar value, in the sheet")]
    SheetNotScalar = 14,
    #[error("bytes behind the root value")]
    BytesBehind = 15,
    #[error("a value that does not lie within the archive")]
    Outside = 21,
    #[error("a value at a place that is no multiple of its alignment")]
    Misaligned = 22,
    #[error("bytes in the archive that are not UTF-8 text")]
    NotText = 23,
    #[error("a truth above 1, or a character that is no Unicode scalar value, in the archive")]
    NotScalar = 24,
}
