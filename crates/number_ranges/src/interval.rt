ghost use Rattle.std.specs.Prelude.{Some};
ghost use Rattle.number_ranges.specs.Codes.{code_text};

use enq_base::Name;
use std::fmt;
use thiserror::Error;

/// The numbers `from` to `to` of a number range object, of which those up to the level are used or reserved.
#[derive(Clone, Copy, Debug, PartialEq, Eq)]
pub struct Interval {
    pub object: Name,
    /// The two digits that name the interval within its object.
    pub nr: [u8; 2],
    pub from: u64,
    pub to: u64,
    pub level: u64,
    /// How many numbers are reserved at a time; 0 where the interval is not buffered.
    pub buffer: u32,
    /// From which rest of its numbers on the interval is critical, in percent.
    pub percent: u8,
}

/// How near the end of its interval a number is, as the return code of a draw tells it.
#[derive(Clone, Copy, Debug, PartialEq, Eq)]
pub enum Code {
    Blank,
    /// The rest is within the percentage.
    Critical,
    /// This is the last number.
    Last,
}

/// Why no number is drawn.
#[derive(Clone, Copy, Debug, PartialEq, Eq, Error)]
pub enum DrawFault {
    /// The session that holds the interval.
    #[error("the interval belongs to session {0}")]
    Busy(Name),
    /// The last number of the interval.
    #[error("the next number is past {0}")]
    Overflow(u64),
    /// No number is left up to the level.
    #[error("no number is left in memory")]
    Empty,
}

impl fmt::Display for Code {
    ghost output = { λ code. Some (code_text code) };

    fn fmt<W: fmt::Write>(&self, f: &mut fmt::Formatter<W>) -> fmt::Result {
        match self {
            Code::Blank => f.write_str("-"),
            Code::Critical => f.write_str("1"),
            Code::Last => f.write_str("2"),
        }
    }
}
