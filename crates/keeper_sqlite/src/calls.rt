ghost use Rattle.std.specs.Prelude.{◌≡◌, ◌↔◌};

use crate::asks::{Ask, Told};
use crate::statements::{prepare_all, rows_behind, value_of, write_batch};
use keeper_api::KeepFault;
use sqlite::{Alter, Connection, Error, ErrorCode};

/// Each refusal but want of memory is a fault.
pub fn fault_of(error: Error) -> KeepFault
    ensures { result ≡ KeepFault.NoMemory ↔ (error ≡ Error.SqliteFailure ErrorCode.OutOfMemory) }
{
    match error {
        Error::SqliteFailure(ErrorCode::OutOfMemory) => KeepFault::NoMemory,
        _ => KeepFault::Failed,
    }
}

/// Does what is asked. Where the store's type is known this is the one call over it, since each such call is dear to
/// prove.
pub fn answer<S: Alter>(connection: &mut Connection<S>, ask: &Ask) -> Result<Told, KeepFault> {
    match run(connection, ask) {
        Ok(told) => Ok(told),
        Err(error) => Err(fault_of(error)),
    }
}

fn run<S: Alter>(connection: &mut Connection<S>, ask: &Ask) -> Result<Told, Error> {
    match ask {
        Ask::Begin => done(prepare_all(connection)),
        Ask::Value { table, key } => value_of(connection, *table, *key),
        Ask::Rows {
            alloc,
            table,
            after,
            n,
        } => rows_behind(*alloc, connection, *table, *after, *n),
        Ask::Write { batch } => done(write_batch(connection, *batch)),
    }
}

fn done(outcome: Result<(), Error>) -> Result<Told, Error> {
    match outcome {
        Ok(()) => Ok(Told::Done),
        Err(error) => Err(error),
    }
}
