use clap::Command;
use std::alloc::{AllocError, Global};

/// How the program is called, as a line.
pub fn usage_text(alloc: Global) -> Result<String, AllocError> {
    command(alloc)?.render_usage()
}

/// What the program does, and its command.
pub fn help_text(alloc: Global) -> Result<String, AllocError> {
    command(alloc)?.render_help()
}

/// The program's name and version, as a line.
pub fn version_text(alloc: Global) -> Result<String, AllocError> {
    command(alloc)?.render_version()
}

/// The words of the command line, of which `clap` renders the texts. They are compared elsewhere.
fn command(alloc: Global) -> Result<Command<'static>, AllocError> {
    let sending = Command::new(alloc, "send").about(
        "Copies each new call of enq.db into outbox.db, sends each call that is still open to the system in target.db, \
         at most eight times, and writes what became of it; all three files stand in the current folder, and enq.db is \
         only read",
    );
    Command::new(alloc, "trfcd")
        .version("0.1.0")
        .about("Sends the remote calls of a system to a second one, which executes each once")
        .after_help(
            "A unit of enqd with two calls, and what send writes behind it:\n  \
             A V1 INS TRFCOUT C1 ADD STAT N 5    C1 DONE\n  \
             A V1 INS TRFCOUT C2 DEL T 9         C2 BAD MISSING\n  \
             A COMMIT                            CALLS 2 DONE 1 BAD 1 OPEN 0\n\n\
             Documents:\n  \
             README.md            what it is\n  \
             docs/OPERATING.md    files, copies, statuses, what to do\n  \
             docs/FORMATS.md      the rows of outbox and target",
        )
        .disable_help_subcommand(true)
        .subcommand(sending)
}
