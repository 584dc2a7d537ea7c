//! A keeper of rows over a SQLite file, or over any open connection.
#![tactic(auto)]

mod adopted_keeper;
mod asks;
mod calls;
mod file_connection;
mod gate;
mod page;
mod sqlite_keeper;
mod statements;

pub use adopted_keeper::AdoptedKeeper;
pub use sqlite_keeper::SqliteKeeper;
