//! Worked cases, written as text. Standard input names documents and cases; each case is played through the top call
//! over devices in memory, and what it was answered is shown. The files `stdin` and `stdout` of this crate are the
//! cases and what they have to show.
//!
//! A case begins with a line `== what it shows`, an empty store and an empty backup file, and the document that was
//! given first. Then come lines that are done in their order; a line that begins with `#` is a remark.
//!
//! | Line | What it does |
//! |---|---|
//! | `document NAME`, its text, `end` | gives a landscape a name; before the first case |
//! | `for A to B` | right under the headline: plays the case for each of these numbers, for which `\#` stands |
//! | `landscape NAME` | the landscape of the starts from here on is this document |
//! | `landscape`, its text, `end` | it is this text |
//! | `change OLD => NEW` | it has NEW in place of OLD, which has to stand in it just once |
//! | `row TABLE KEY VALUE` | puts a row into the store |
//! | `backup BYTES` | the backup file has these bytes |
//! | `cut N` | it has its first N bytes alone |
//! | `byte N BYTE` | it has this byte in place N, counted from 0 |
//! | `crash synced`, `crash read` | the backup file is as it was last synced, or as it is read |
//! | `crash ff`, `crash 01` | it has ff or 01 in each place that was written since it was synced |
//! | `words WORD WORD ..` | the words of the next start, in place of `replay`; `""` is an empty one |
//! | `DEVICE fails at N` | call N of `landscape`, `script`, `sink`, `store`, `backup` or `link` fails, in the next start |
//! | `store fails at N kept` | the same, and what it was to write is there all the same |
//! | `store stops at N`, `store stops at N kept` | so do all calls behind it |
//! | `backup stops at N` | the same, of a thousand calls |
//! | `foreign TABLE KEY VALUE` | somebody else puts this row into the store once a commit of the next start fails |
//! | `link hands over all but the last` | in the next start the link leaves the last lock out |
//! | `link hands over the first twice`, `.. backwards` | it hands over the first lock once more, or begins with the last |
//! | `last N` | just the last N lines that the next start is answered are shown, and how many stand before |
//! | `start`, its script, `end` | starts the program with this script, over what the last one left |
//! | `start WORDS`, its script, `end` | the same, and shows this line first |
//! | `rows`, `rows TABLE` | shows the rows of the store, or of one table, in order |
//! | `backup` | shows the bytes of the backup file, as they are read |
//!
//! In a script `N times: LINE` stands for so many lines, and `A to B: LINE` for a line with each of these numbers in
//! the place of `\#`. Everywhere `\\` is a backslash, `\0` the byte 0, `\n` a line end, `\xHH` any byte, and
//! `\{N*TEXT}` N times a text; a `\` at the end of a script's line takes its line end away. After the replies of a
//! start its status is shown, and the line that `enqd` then prints on standard error.
#![tactic(auto)]

mod cases;
mod escapes;
mod faults;
mod keepers;
mod links;
mod orders;
mod playing;
mod reading;
mod scripts;
mod showing;

use crate::playing::play;
use crate::reading::read_cases;
use anyhow::Result;
use std::io;
use std::io::Write;

fn main(rt: HostRuntime) -> Result<()> {
    let alloc = rt.alloc();
    let text = io::read_to_string(alloc, rt.stdin())?;
    let cases = read_cases(alloc, text.as_str())?;
    let mut output = rt.stdout();
    for case in cases {
        let shown = play(&rt, alloc, case)?;
        output.write_all(shown.as_slice())?;
    }
    Ok(())
}
