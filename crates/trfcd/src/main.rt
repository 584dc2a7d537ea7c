//! The sender of remote calls, over the stores in the current folder.
#![tactic(auto)]

use enq_base::{Items, Short};
use io_edge::StdSink;
use keeper_sqlite::SqliteKeeper;
use remote_sending::{TrfcWhy, trfc_main};
use remote_target::{MemCarrier, Target, TargetFault};
use std::alloc::AllocError;
use std::process::ExitCode;
use std::{env, io};
use trfcd_texts::{EndLine, RefusalLine, help_text, usage_text, version_text};

const BAD_WORDS: u8 = 2;

const WRITE_FAULT: u8 = 6;

const BAD_TARGET: u8 = 10;

const NO_MEMORY: u8 = 12;

fn main(rt: HostRuntime) -> ExitCode {
    match words(&rt) {
        Ok(words) => ExitCode::from(answer(&rt, words.as_slice())),
        Err(error) => {
            // Words that are no text are wrong words; else there was no memory for them.
            match error.kind() {
                io::ErrorKind::InvalidData => ExitCode::from(refuse_words(&rt)),
                _ => ExitCode::from(lack_memory(&rt)),
            }
        }
    }
}

/// The words of the command line, without the program's name.
fn words(rt: &HostRuntime) -> io::Result<Vec<Items<u8>>> {
    let mut words = Vec::new(rt.alloc());
    for word in env::args(rt)?.skip(1) {
        words.push(Items::from_vec(word.into_bytes()))?;
    }
    Ok(words)
}

/// Does what the words say, and tells the status. Wrong words make no file.
fn answer(rt: &HostRuntime, words: &[Items<u8>]) -> u8 {
    if is_alone(words, b"--help") {
        return show(rt, help_text(rt.alloc()));
    }
    if is_alone(words, b"--version") {
        return show(rt, version_text(rt.alloc()));
    }
    if is_alone(words, b"send") {
        return send(rt, words);
    }
    refuse_words(rt)
}

fn is_alone(words: &[Items<u8>], option: &[u8]) -> bool {
    match words {
        [word] => word.as_slice() == option,
        _ => false,
    }
}

/// Prints a text on standard output.
fn show(rt: &HostRuntime, text: Result<String, AllocError>) -> u8 {
    let Ok(text) = text else {
        return lack_memory(rt);
    };
    match rt.print(text.as_str()) {
        Ok(()) => 0,
        Err(_) => {
            print_end(rt, TrfcWhy::SinkFault);
            WRITE_FAULT
        }
    }
}

/// The file of the sending system's store, in the current folder.
fn system_path() -> Short {
    let Some(path) = Short::new(b"enq.db") else {
        unreachable!()
    };
    path
}

/// The file of the outbox, in the current folder.
fn outbox_path() -> Short {
    let Some(path) = Short::new(b"outbox.db") else {
        unreachable!()
    };
    path
}

/// The file of the second system's store, in the current folder.
fn target_path() -> Short {
    let Some(path) = Short::new(b"target.db") else {
        unreachable!()
    };
    path
}

/// Opens the second system, and sends to it.
fn send(rt: &HostRuntime, words: &[Items<u8>]) -> u8 {
    let alloc = rt.alloc();
    match Target::open(alloc, SqliteKeeper::new(*rt, target_path())) {
        Ok(target) => send_by(rt, words, MemCarrier::new(alloc, target, Vec::new(alloc))),
        Err((fault, _)) => refuse_target(rt, fault),
    }
}

/// Sends the calls of the sending system by a carrier.
fn send_by(rt: &HostRuntime, words: &[Items<u8>], carrier: MemCarrier<SqliteKeeper>) -> u8 {
    let mut sink = StdSink::new(rt.stdout());
    let ended = trfc_main(
        rt.alloc(),
        words,
        &mut sink,
        SqliteKeeper::new(*rt, system_path()),
        SqliteKeeper::new(*rt, outbox_path()),
        carrier,
    );
    print_end(rt, ended.why);
    ended.status
}

fn refuse_target(rt: &HostRuntime, fault: TargetFault) -> u8 {
    let _ = rt.eprintln(RefusalLine(fault));
    match fault {
        TargetFault::NoMemory => NO_MEMORY,
        _ => BAD_TARGET,
    }
}

fn refuse_words(rt: &HostRuntime) -> u8 {
    print_end(rt, TrfcWhy::BadWords);
    if let Ok(usage) = usage_text(rt.alloc()) {
        let _ = rt.eprintln(usage.as_str());
    }
    BAD_WORDS
}

fn lack_memory(rt: &HostRuntime) -> u8 {
    print_end(rt, TrfcWhy::NoMemory);
    NO_MEMORY
}

/// Prints the line of an end on standard error; an end in order has none. A line that can't be printed is left out.
fn print_end(rt: &HostRuntime, why: TrfcWhy) {
    match why {
        TrfcWhy::Done => {}
        why => {
            let _ = rt.eprintln(EndLine(why));
        }
    }
}
