use crate::end_line::EndLine;
use crate::usage::{help_text, usage_text, version_text};
use enq_base::Items;
use script_runner::Why;
use std::alloc::AllocError;
use std::{env, io};

const BAD_WORDS: u8 = 2;

const WRITE_FAULT: u8 = 6;

const NO_MEMORY: u8 = 12;

/// The words of the command line, without the program's name.
pub fn words(rt: &HostRuntime) -> io::Result<Vec<Items<u8>>> {
    let mut words = Vec::new(rt.alloc());
    for word in env::args(rt)?.skip(1) {
        words.push(Items::from_vec(word.into_bytes()))?;
    }
    Ok(words)
}

/// Tells why the words couldn't be had, and gives the status. Words that are no text are wrong words; else there was no
/// memory for them.
pub fn refuse_words(rt: &HostRuntime, error: &io::Error) -> u8 {
    match error.kind() {
        io::ErrorKind::InvalidData => {
            print_usage(rt);
            BAD_WORDS
        }
        _ => lack_memory(rt),
    }
}

/// Prints the text that a single option asks for, and gives the status. None where the words are no such option.
pub fn answer_option(rt: &HostRuntime, words: &[Items<u8>]) -> Option<u8> {
    if is_alone(words, b"--help") {
        return Some(show(rt, help_text(rt.alloc())));
    }
    if is_alone(words, b"--version") {
        return Some(show(rt, version_text(rt.alloc())));
    }
    None
}

/// Prints on standard error why a program ended; behind wrong words also how it is called, and nothing where it ended
/// in order.
pub fn tell_end(rt: &HostRuntime, why: Why) {
    match why {
        Why::Done => {}
        Why::BadWords => print_usage(rt),
        why => print_end(rt, why),
    }
}

fn is_alone(words: &[Items<u8>], option: &[u8]) -> bool {
    match words {
        [word] => word.as_slice() == option,
        _ => false,
    }
}

/// Prints a text on standard output.
fn show(rt: &HostRuntime, text: Result<String, AllocError>) -> u8 {
    let Ok(text) = text else {
        return lack_memory(rt);
    };
    match rt.print(text.as_str()) {
        Ok(()) => 0,
        Err(_) => {
            print_end(rt, Why::SinkFault);
            WRITE_FAULT
        }
    }
}

fn lack_memory(rt: &HostRuntime) -> u8 {
    print_end(rt, Why::NoMemory);
    NO_MEMORY
}

/// Prints why the words are refused, and how the program is called. A text for which there is no memory is left out.
fn print_usage(rt: &HostRuntime) {
    print_end(rt, Why::BadWords);
    if let Ok(usage) = usage_text(rt.alloc()) {
        let _ = rt.eprintln(usage.as_str());
    }
}

/// Prints the line of an end on standard error. A line that can't be printed is left out.
fn print_end(rt: &HostRuntime, why: Why) {
    let _ = rt.eprintln(EndLine(why));
}
