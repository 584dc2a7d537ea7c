//! A load on the lock index, for measuring: so many locks are granted, and then another session asks for them, or all
//! are freed.
#![tactic(auto)]

mod loads;
mod orders;

use crate::loads::{Tally, do_load};
use crate::orders::order_of;
use std::process::ExitCode;
use std::{env, io};

const WRONG_WORDS: u8 = 2;

const NO_MEMORY: u8 = 12;

fn main(rt: HostRuntime) -> io::Result<ExitCode> {
    let mut words = Vec::new(rt.alloc());
    for word in env::args(&rt)?.skip(1) {
        words.push(word)?;
    }
    let Some(order) = order_of(words.as_slice()) else {
        eprintln!(&rt; "words: grants, asks or frees; locks; asks")?;
        return Ok(ExitCode::from(WRONG_WORDS));
    };
    let Some(tally) = do_load(rt.alloc(), &order) else {
        return Ok(ExitCode::from(NO_MEMORY));
    };
    let Tally {
        granted,
        refused,
        freed,
        left,
    } = tally;
    println!(&rt; "granted {granted}, refused {refused}, freed {freed}, left {left}")?;
    Ok(ExitCode::SUCCESS)
}
