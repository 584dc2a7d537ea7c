ghost use Rattle.std.specs.Prelude.{Some};
ghost use Rattle.enq_base.specs.Text.{unit_text, owner_text, reason_text, status_text};

use crate::{Name, Owner, Pattern, Reason, Status, Text, UnitKey};
use std::{fmt, str};

impl fmt::Display for Name {
    ghost output = { λ name. Some name };

    fn fmt<W: fmt::Write>(&self, f: &mut fmt::Formatter<W>) -> fmt::Result {
        let text = str::from_utf8(self.bytes()).map_err(|_| fmt::Error)?;
        f.write_str(text)
    }
}

impl fmt::Display for Pattern {
    ghost output = { λ pattern. Some pattern };

    fn fmt<W: fmt::Write>(&self, f: &mut fmt::Formatter<W>) -> fmt::Result {
        let text = str::from_utf8(self.bytes()).map_err(|_| fmt::Error)?;
        f.write_str(text)
    }
}

impl fmt::Display for Text {
    ghost output = { λ text. Some text };

    fn fmt<W: fmt::Write>(&self, f: &mut fmt::Formatter<W>) -> fmt::Result {
        let text = str::from_utf8(self.bytes()).map_err(|_| fmt::Error)?;
        f.write_str(text)
    }
}

impl fmt::Display for UnitKey {
    ghost output = { λ unit. Some (unit_text unit) };

    fn fmt<W: fmt::Write>(&self, f: &mut fmt::Formatter<W>) -> fmt::Result {
        let UnitKey {
            start,
            session,
            luw,
        } = *self;
        write!(f, "{start}.{session}.{luw}")
    }
}

impl fmt::Display for Owner {
    ghost output = { λ owner. Some (owner_text owner) };

    fn fmt<W: fmt::Write>(&self, f: &mut fmt::Formatter<W>) -> fmt::Result {
        match self {
            Owner::Dlg { start, session } => write!(f, "D{start}.{session}"),
            Owner::Upd(unit) => write!(f, "U{unit}"),
        }
    }
}

impl fmt::Display for Reason {
    ghost output = { λ reason. Some (reason_text reason) };

    fn fmt<W: fmt::Write>(&self, f: &mut fmt::Formatter<W>) -> fmt::Result {
        match self {
            Reason::Duplicate => f.write_str("DUPLICATE"),
            Reason::Missing => f.write_str("MISSING"),
            Reason::NotNumber => f.write_str("NOT_NUMBER"),
            Reason::Overflow => f.write_str("OVERFLOW"),
        }
    }
}

impl fmt::Display for Status {
    ghost output = { λ status. Some (status_text status) };

    fn fmt<W: fmt::Write>(&self, f: &mut fmt::Formatter<W>) -> fmt::Result {
        match self {
            Status::Open => f.write_str("OPEN"),
            Status::Posted => f.write_str("POSTED"),
            Status::Bad => f.write_str("BAD"),
            Status::Closed => f.write_str("CLOSED"),
            Status::Bad2 => f.write_str("BAD2"),
            Status::Cancelled => f.write_str("CANCELLED"),
        }
    }
}
