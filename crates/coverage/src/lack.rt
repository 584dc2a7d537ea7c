use enq_base::{Key, Name};

/// What a script lacks. A number is that of a line.
#[derive(Clone, Copy, Debug, PartialEq, Eq)]
pub enum Lack {
    /// Two lock objects have locks of different lengths on this table.
    Lengths(Name),
    /// The line names an unknown object, or has a part that can't stand there.
    Line(u32),
    /// A variable hides which row or which lock the line means.
    Variable(u32),
    /// At some place between the read and its COMMIT no lock covers the row.
    Read(u32),
    /// At the COMMIT no lock covers the row.
    Write(u32),
    /// An effect of the V2 part is on a table that the script reads.
    SecondPart(u32),
}

/// A lack of a line, which counts where a READ line names the table, if one is given.
#[derive(Clone, Copy)]
pub struct Finding {
    pub lack: Lack,
    pub table: Option<Name>,
}

/// When a lock has to cover a row.
#[derive(Clone, Copy)]
pub enum Want {
    Throughout,
    AtCommit,
    Never,
}

/// A row that is to be covered, and what is lacking where it isn't.
#[derive(Clone, Copy)]
pub struct Wish {
    pub want: Want,
    pub table: Name,
    pub key: Key,
    pub lack: Lack,
}

/// A wish of a unit that isn't over: the place of its line, and whether it was met so far.
#[derive(Clone, Copy)]
pub struct Watch {
    pub place: usize,
    pub wish: Wish,
    pub met: bool,
}
