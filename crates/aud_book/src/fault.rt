//! Why a desk isn't opened, a line isn't posted, or what was posted isn't read back.
use thiserror::Error;

/// Why a desk isn't opened.
#[derive(Clone, Copy, Debug, PartialEq, Eq, Drop, Error)]
pub enum DeskFault {
    /// There is no name, or there are more than 4,161, or one can't be a tap's name or stands twice.
    #[error("the names are not those of taps")]
    Names,
    /// Memory could not be had.
    #[error("out of memory")]
    Memory,
}

/// Why a line isn't posted. They are looked for in this order.
#[derive(Clone, Copy, Debug, PartialEq, Eq, Drop, Error)]
pub enum PostFault {
    /// The tap's name, a blank and the line have more than 4,194,304 bytes.
    #[error("the line is too long")]
    TooLong,
    /// The line has a newline in it.
    #[error("the line has a newline in it")]
    Newline,
    /// The tap has 4,000,001 lines already: a header, and as many records as it may have.
    #[error("the tap has as many lines as it may have")]
    Full,
    /// Memory could not be had.
    #[error("out of memory")]
    Memory,
}

/// Why a seat's lines aren't read back.
#[derive(Clone, Copy, Debug, PartialEq, Eq, Drop, Error)]
pub enum BackFault {
    /// The seat isn't of this desk: the book has other lines for its tap.
    #[error("the book has other lines")]
    Strayed,
    /// Memory could not be had.
    #[error("out of memory")]
    Memory,
}
