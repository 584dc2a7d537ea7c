use clap::Command;
use std::alloc::{AllocError, Global};

/// How the program is called, as a line.
pub fn usage_text(alloc: Global) -> Result<String, AllocError> {
    command(alloc)?.render_usage()
}

/// What the program does, and its commands.
pub fn help_text(alloc: Global) -> Result<String, AllocError> {
    command(alloc)?.render_help()
}

/// The program's name and version, as a line.
pub fn version_text(alloc: Global) -> Result<String, AllocError> {
    command(alloc)?.render_version()
}

/// The words of the command line, of which `clap` renders the texts. They are compared elsewhere.
fn command(alloc: Global) -> Result<Command<'static>, AllocError> {
    let replay = Command::new(alloc, "replay").about(
        "Reads the landscape from landscape.toml and opens the store in enq.db, both in the current folder; then \
         reads a script from standard input, does it line by line, and writes each reply",
    );
    let running = Command::new(alloc, "run").about(
        "With --workers and a number from 1 to 16 behind it: opens the store as replay does, reads the whole script, \
         does its sessions, the administrator and so many workers as threads, and writes the history and the rest of \
         the replies",
    );
    let covering = Command::new(alloc, "cover").about(
        "Reads the landscape, and then a whole script from standard input; does no line, and writes which rows that \
         it reads and writes aren't covered by locks",
    );
    let writing = Command::new(alloc, "gen").about(
        "With a number from 1 to 10,000 behind it: writes a script of so many units",
    );
    let loading = Command::new(alloc, "load").about(
        "With such a number: opens the store as replay does, does the script that gen writes, and writes the audit \
         alone",
    );
    Command::new(alloc, "enqd")
        .version("0.1.0")
        .about("Keeps logical locks and update units, as an enqueue server and an update task do")
        .after_help(
            "Three lines of a script for replay, with the landscape of the demo, and their replies:\n  \
             A LOGON MILLER                                  1 OK\n  \
             A ENQ EZORDER E 1 MANDT=100 ORDNR=0000000001    2 OK\n  \
             A LOGOFF                                        3 OK\n\n\
             Documents:\n  \
             README.md            what it is, and a first session\n  \
             docs/COMMANDS.md     lines, replies, refusals, limits\n  \
             docs/LANDSCAPE.md    lock objects and number ranges\n  \
             docs/OPERATING.md    files, copies, statuses, what to do\n  \
             docs/GLOSSARY.md     the words",
        )
        .disable_help_subcommand(true)
        .subcommand(replay)?
        .subcommand(running)?
        .subcommand(covering)?
        .subcommand(writing)?
        .subcommand(loading)
}
