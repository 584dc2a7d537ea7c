//! A load on the whole server over devices in memory, for measuring: four sessions that record as many order entries
//! each, or units with a V1 part of 200 effects, done line by line, or by threads. It prints the counts of the server at
//! the end, and nothing else.
#![tactic(auto)]

mod orders;
mod playing;
mod scripts;

use crate::orders::order_of;
use crate::playing::play;
use std::process::ExitCode;
use std::{env, io, str};

const WRONG_WORDS: u8 = 2;

const NO_MEMORY: u8 = 12;

fn main(rt: HostRuntime) -> io::Result<ExitCode> {
    let mut words = Vec::new(rt.alloc());
    for word in env::args(&rt)?.skip(1) {
        words.push(word)?;
    }
    let Some(order) = order_of(words.as_slice()) else {
        eprintln!(&rt;
            "words: replay, or run and workers; order entries of each session, or parts and units"
        )?;
        return Ok(ExitCode::from(WRONG_WORDS));
    };
    let Ok(played) = play(&rt, rt.alloc(), &order) else {
        return Ok(ExitCode::from(NO_MEMORY));
    };
    if let Some(counts) = counts_of(played.answers.bytes()) {
        println!(&rt; "UNITS {counts}")?;
    }
    Ok(ExitCode::from(played.status))
}

/// The counts in what a script was answered last.
fn counts_of(answers: &[u8]) -> Option<&str> {
    let text = str::from_utf8(answers).ok()?;
    let (_, counts) = text.rsplit_once(" UNITS ")?;
    let (counts, _) = counts.split_once('\n')?;
    Some(counts)
}
