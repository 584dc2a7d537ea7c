use crate::asks::{Ask, Told, done_in};
use crate::calls::{answer, fault_of};
use enq_base::Short;
use keeper_api::KeepFault;
use sqlite::{Connection, File, FileStore};
use std::marker::Model;

/// A connection to a file. It shows nothing, so that what holds one doesn't meet the store's type.
pub struct FileConnection {
    connection: Connection<FileStore<File>>,
}

// It is written out, so that a caller does not prove again how the connection is dropped.
impl Drop for FileConnection {
    fn drop(self) {
        let FileConnection { connection: _ } = self;
    }
}

impl Model for FileConnection {
    ghost use Rattle.std.specs.Prelude.{⊤};

    ghost Value = { ⊤ };

    ghost view = { λ c. tt };
}

impl FileConnection {
    /// Opens or makes the file.
    fn open(rt: &HostRuntime, path: &Short) -> Result<FileConnection, KeepFault> {
        let Ok(path) = str::from_utf8(path.bytes()) else {
            return Err(KeepFault::Failed);
        };
        match Connection::open(rt, path) {
            Ok(connection) => Ok(FileConnection { connection }),
            Err(error) => Err(fault_of(error)),
        }
    }

    fn answer(&mut self, ask: &Ask) -> Result<Told, KeepFault> {
        answer(&mut self.connection, ask)
    }
}

/// Opens or makes the file, with the table in it.
pub fn connect(rt: &HostRuntime, path: &Short) -> Result<FileConnection, KeepFault> {
    let mut connection = FileConnection::open(rt, path)?;
    match done_in(connection.answer(&Ask::Begin)) {
        Ok(()) => Ok(connection),
        Err(fault) => Err(fault),
    }
}

/// Asks the connection of this place, where there is one.
pub fn ask_at(place: &mut Option<FileConnection>, ask: &Ask) -> Result<Told, KeepFault> {
    match place {
        Some(connection) => connection.answer(ask),
        None => Err(KeepFault::Failed),
    }
}
