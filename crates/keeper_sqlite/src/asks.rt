ghost use Rattle.std.specs.Prelude.{IfOk};
ghost use Rattle.keeper_api.specs.Rows.{IsPage};

use crate::page::is_page;
use keeper_api::{Bytes, Change, KeepFault, Row};
use std::alloc::Global;

/// What a connection is asked for.
#[derive(Clone, Copy)]
pub enum Ask<'a> {
    /// The table, which is made where it isn't there, and its statements.
    Begin,
    Value {
        table: u8,
        key: &'a [u8],
    },
    /// The first `n` rows of a table behind a key.
    Rows {
        alloc: Global,
        table: u8,
        after: &'a [u8],
        n: u32,
    },
    /// All these changes, or none.
    Write {
        batch: &'a [Change],
    },
}

/// What a connection answers.
#[derive(Drop)]
pub enum Told {
    Done,
    Value(Option<Bytes>),
    Rows(Vec<Row>),
}

/// Whatever is told, it is done.
pub fn done_in(told: Result<Told, KeepFault>) -> Result<(), KeepFault> {
    match told {
        Ok(_) => Ok(()),
        Err(fault) => Err(fault),
    }
}

pub fn value_in(told: Result<Told, KeepFault>) -> Result<Option<Bytes>, KeepFault> {
    match told {
        Ok(Told::Value(value)) => Ok(value),
        Ok(_) => Err(KeepFault::Failed),
        Err(fault) => Err(fault),
    }
}

/// A page whose keys don't rise behind `after` is a fault.
pub fn page_in(after: &[u8], n: u32, told: Result<Told, KeepFault>) -> Result<Vec<Row>, KeepFault>
    ensures { IfOk result (λ page. IsPage after.now n page.items) }
{
    let rows = rows_in(told)?;
    if is_page(after, n, rows.as_slice()) {
        Ok(rows)
    } else {
        Err(KeepFault::Failed)
    }
}

fn rows_in(told: Result<Told, KeepFault>) -> Result<Vec<Row>, KeepFault> {
    match told {
        Ok(Told::Rows(rows)) => Ok(rows),
        Ok(_) => Err(KeepFault::Failed),
        Err(fault) => Err(fault),
    }
}
