ghost use Rattle.std.specs.Prelude.{Some};
ghost use Rattle.monitors.specs.Shown.{counts_text, entry_text, range_text, unit_line_text};
ghost use Rattle.monitors.specs.Shown.{counters_text, error_text, flag_text, holder_text, replica_text};

use crate::views::Counts;
use enq_base::{Name, Owner, Reason};
use lock_entry::Entry;
use number_ranges::Interval;
use std::{fmt, str};
use update_records::UnitView;

/// Whether a replica is attached.
#[derive(Clone, Copy)]
pub(crate) struct ReplicaText(pub(crate) bool);

impl fmt::Display for ReplicaText {
    ghost output = { λ shown. Some (replica_text shown.0) };

    fn fmt<W: fmt::Write>(&self, f: &mut fmt::Formatter<W>) -> fmt::Result {
        match self {
            ReplicaText(true) => f.write_str("ATTACHED"),
            ReplicaText(false) => f.write_str("DETACHED"),
        }
    }
}

/// The two counters of an entry: the dialogue owner's and the update owner's.
#[derive(Clone, Copy)]
struct CountersText(Owner, u16);

impl fmt::Display for CountersText {
    ghost output = { λ shown. Some (counters_text shown.0 shown.1) };

    fn fmt<W: fmt::Write>(&self, f: &mut fmt::Formatter<W>) -> fmt::Result {
        match self {
            CountersText(Owner::Dlg { .. }, count) => write!(f, "{count} 0"),
            CountersText(Owner::Upd(_), count) => write!(f, "0 {count}"),
        }
    }
}

/// Whether an entry is handed.
#[derive(Clone, Copy)]
struct FlagText(bool);

impl fmt::Display for FlagText {
    ghost output = { λ shown. Some (flag_text shown.0) };

    fn fmt<W: fmt::Write>(&self, f: &mut fmt::Formatter<W>) -> fmt::Result {
        match self {
            FlagText(true) => f.write_str("H"),
            FlagText(false) => f.write_str("-"),
        }
    }
}

#[derive(Clone, Copy)]
pub(crate) struct EntryText(pub(crate) Entry);

impl fmt::Display for EntryText {
    ghost output = { λ shown. Some (entry_text shown.0) };

    fn fmt<W: fmt::Write>(&self, f: &mut fmt::Formatter<W>) -> fmt::Result {
        let Entry {
            owner,
            user,
            table,
            pattern,
            mode,
            count,
            handed,
        } = self.0;
        let counters = CountersText(owner, count);
        let flag = FlagText(handed);
        write!(
            f,
            "{owner} {user} {table} {mode} {counters} {flag} {pattern}"
        )
    }
}

/// The refused effect of a unit, where there is one.
#[derive(Clone, Copy)]
struct ErrorText(Option<(u32, Reason)>);

impl fmt::Display for ErrorText {
    ghost output = { λ shown. Some (error_text shown.0) };

    fn fmt<W: fmt::Write>(&self, f: &mut fmt::Formatter<W>) -> fmt::Result {
        match self {
            ErrorText(None) => Ok(()),
            ErrorText(Some((index, reason))) => write!(f, " ERROR {index} {reason}"),
        }
    }
}

#[derive(Clone, Copy)]
pub(crate) struct UnitText(pub(crate) UnitView);

impl fmt::Display for UnitText {
    ghost output = { λ shown. Some (unit_line_text shown.0) };

    fn fmt<W: fmt::Write>(&self, f: &mut fmt::Formatter<W>) -> fmt::Result {
        let UnitView {
            key,
            user,
            status,
            v1,
            v2,
            locks,
            numbers,
            error,
        } = self.0;
        let error = ErrorText(error);
        write!(
            f,
            "{key} {user} {status} V1 {v1} V2 {v2} LOCKS {locks} NUMBERS {numbers}{error}"
        )
    }
}

/// The session that holds an interval, where there is one.
#[derive(Clone, Copy)]
struct HolderText(Option<Name>);

impl fmt::Display for HolderText {
    ghost output = { λ shown. Some (holder_text shown.0) };

    fn fmt<W: fmt::Write>(&self, f: &mut fmt::Formatter<W>) -> fmt::Result {
        match self {
            HolderText(None) => Ok(()),
            HolderText(Some(session)) => write!(f, " BY {session}"),
        }
    }
}

/// The two digits of an interval.
#[derive(Clone, Copy)]
struct NrText([u8; 2]);

impl fmt::Display for NrText {
    ghost output = { λ shown. Some shown.0 };

    fn fmt<W: fmt::Write>(&self, f: &mut fmt::Formatter<W>) -> fmt::Result {
        let text = str::from_utf8(&self.0).map_err(|_| fmt::Error)?;
        f.write_str(text)
    }
}

/// An interval with its present level, and the session that holds it.
#[derive(Clone, Copy)]
pub(crate) struct RangeText {
    pub(crate) interval: Interval,
    pub(crate) holder: Option<Name>,
}

impl fmt::Display for RangeText {
    ghost output = { λ shown. Some (range_text shown.interval shown.holder) };

    fn fmt<W: fmt::Write>(&self, f: &mut fmt::Formatter<W>) -> fmt::Result {
        let Interval {
            object,
            nr,
            from,
            to,
            level,
            buffer,
            percent,
        } = self.interval;
        let nr = NrText(nr);
        let holder = HolderText(self.holder);
        write!(
            f,
            "{object} {nr} {from} {to} LEVEL {level} BUFFER {buffer} PERCENT {percent}{holder}"
        )
    }
}

#[derive(Clone, Copy)]
pub(crate) struct CountsText(pub(crate) Counts);

impl fmt::Display for CountsText {
    ghost output = { λ shown. Some (counts_text shown.0) };

    fn fmt<W: fmt::Write>(&self, f: &mut fmt::Formatter<W>) -> fmt::Result {
        let Counts {
            units,
            open,
            posted,
            bad,
            closed,
            bad2,
            cancelled,
            marks,
            numbers,
        } = self.0;
        write!(
            f,
            "UNITS {units} OPEN {open} POSTED {posted} BAD {bad} CLOSED {closed} "
        )?;
        write!(
            f,
            "BAD2 {bad2} CANCELLED {cancelled} MARKS {marks} NUMBERS {numbers}"
        )
    }
}
