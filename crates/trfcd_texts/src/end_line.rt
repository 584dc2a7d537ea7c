use remote_sending::TrfcWhy;
use remote_target::TargetFault;
use std::fmt;

/// The line on standard error that tells why the program ended. There is none for an end in order.
#[derive(Clone, Copy, Debug)]
pub struct EndLine(pub TrfcWhy);

impl fmt::Display for EndLine {
    fn fmt<W: fmt::Write>(&self, f: &mut fmt::Formatter<W>) -> fmt::Result {
        match self.0 {
            TrfcWhy::Done => Ok(()),
            TrfcWhy::BadWords => f.write_str("trfcd: bad words"),
            TrfcWhy::SinkFault => f.write_str("trfcd: cannot write"),
            TrfcWhy::SystemFault => f.write_str("trfcd: store fault in enq.db"),
            TrfcWhy::OutboxFault => f.write_str("trfcd: store fault in outbox.db"),
            TrfcWhy::BadRow { table, row } => {
                write!(f, "trfcd: bad outbox, table {table} row {row}")
            }
            TrfcWhy::NoMemory => f.write_str("trfcd: no memory"),
        }
    }
}

/// The line that tells why the target wasn't opened.
#[derive(Clone, Copy, Debug)]
pub struct RefusalLine(pub TargetFault);

impl fmt::Display for RefusalLine {
    fn fmt<W: fmt::Write>(&self, f: &mut fmt::Formatter<W>) -> fmt::Result {
        match self.0 {
            TargetFault::StoreFault => f.write_str("trfcd: store fault in target.db"),
            TargetFault::BadRow { table, row } => {
                write!(f, "trfcd: bad target, table {table} row {row}")
            }
            TargetFault::Full => f.write_str("trfcd: the target is full"),
            TargetFault::NoMemory => f.write_str("trfcd: no memory"),
        }
    }
}
