//! Reasons for which no item stands at a place.
use thiserror::Error;

/// Why no item that may stand at a place stands there.
#[derive(Clone, Copy, Debug, Error)]
pub(crate) enum Reason {
    #[error("a script begins with its head line, `mudscript 1 SEED MOMENT`")]
    NoHead,
    #[error("the head line `mudscript 1 SEED MOMENT` stands once, at the beginning")]
    HeadAgain,
    #[error("no item begins so: here stands `file PATH BYTES` or `start`")]
    NoFile,
    #[error("no item begins so: here stands `connect`, `line`, `gone`, `tick`, `reload`, `swap` or `end`")]
    NoEvent,
    #[error("events and `end` stand only behind `start`")]
    BeforeStart,
    #[error("files stand only before `start`; behind it a text is changed by `reload`")]
    FileBehindStart,
    #[error("`start` stands once")]
    StartAgain,
    #[error("nothing stands behind `end`")]
    BehindEnd,
    #[error("a carriage return stands before the line end")]
    CarriageReturn,
    #[error("behind this word the line ends")]
    NotAlone,
    #[error("{0} is missing")]
    Missing(&'static str),
    #[error("{0} is no number in decimal digits")]
    NoNumber(&'static str),
    #[error("{0} has a leading zero")]
    LeadingZero(&'static str),
    #[error("{0} is above {1}")]
    Above(&'static str, u64),
    #[error("a path has parts of letters, digits, `_`, `-` and `.` with a `/` before each, none is `.` or `..`, and at most 256 bytes")]
    NoPath,
    #[error("the paths rise by their bytes, and this one is that of the file before or stands below it")]
    PathNotAbove,
    #[error("an object's name is a path that does not end with `.c`, and for a clone `#` and its number")]
    NoName,
    #[error("the clock is {0}")]
    Clock(u64),
    #[error("connections are numbered from 1")]
    NoZero,
    #[error("a new connection's number is above all before, of which {0} is the highest")]
    NotNew(u32),
    #[error("connection {0} has not come")]
    NeverThere(u64),
    #[error("connection {0} is gone, or never came")]
    NotThere(u64),
    #[error("the count of bytes is {0}, and behind {1} of them stands a line end, which no line holds")]
    LineEndWithin(u64, u64),
    #[error("behind {0} of its bytes stands a byte 0 or 13, which no line holds")]
    ByteWithin(u64),
    #[error("the count of bytes is {0}, and behind so many, in line {1}, stands no line end")]
    NoLineEnd(u64, u64),
    #[error("the count of bytes is {0}, and the script ends behind {1} of them")]
    BytesEnd(u64, u64),
    #[error("the script ends before the line end behind its bytes")]
    LineEndMissing,
    #[error("the script ends within this item")]
    Ends,
    #[error("the script ends before `start`")]
    EndsFiling,
    #[error("the script ends without `end`")]
    EndsRunning,
    #[error("no item stands here")]
    Unknown,
}
