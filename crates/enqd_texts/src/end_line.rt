use enq_base::{BackupBad, UnitKey};
use script_runner::Why;
use std::fmt;

/// The line on standard error that tells why the program ended. There is none for an end in order.
#[derive(Clone, Copy, Debug)]
pub struct EndLine(pub Why);

impl fmt::Display for EndLine {
    fn fmt<W: fmt::Write>(&self, f: &mut fmt::Formatter<W>) -> fmt::Result {
        match self.0 {
            Why::Done => Ok(()),
            Why::BadWords => f.write_str("enqd: bad words"),
            Why::BadLandscape { rule, place } => {
                write!(f, "enqd: bad landscape, rule {rule} at {place}")
            }
            Why::BadLine(number) => write!(f, "enqd: bad line {number}"),
            Why::SourceFault => f.write_str("enqd: cannot read"),
            Why::SinkFault => f.write_str("enqd: cannot write"),
            Why::LongLine(number) => write!(f, "enqd: line {number} is too long"),
            Why::ManyLines => f.write_str("enqd: too many lines"),
            Why::StoreFault(call) => write!(f, "enqd: store fault in command {call}"),
            Why::BackupFault(call) => write!(f, "enqd: backup fault in command {call}"),
            Why::BadBackup(BackupBad::Bytes { at }) => write!(f, "enqd: bad backup at {at}"),
            Why::BadBackup(BackupBad::Missing { unit, at }) => {
                let UnitKey {
                    start,
                    session,
                    luw,
                } = unit;
                write!(
                    f,
                    "enqd: backup lacks a lock of unit {start}.{session}.{luw} at {at}"
                )
            }
            Why::BadBackup(BackupBad::Clash { first, second }) => {
                write!(f, "enqd: backup entries {first} and {second} clash")
            }
            Why::BadStore { table, row } => {
                write!(f, "enqd: bad store, table {table} row {row}")
            }
            Why::NoStart => f.write_str("enqd: no start number left"),
            Why::LogFull => f.write_str("enqd: history full"),
            Why::NoMemory => f.write_str("enqd: no memory"),
        }
    }
}
