//! Scripts that are played through the top call over a wire with planned fates. Standard input is a landscape, and behind
//! it the cases; what each is answered is shown. The files `stdin` and `stdout` of this crate are the cases and what they
//! have to show.
//!
//! A case is a line `== what it shows`, a line `wire FATE FATE ..`, and its script. It begins with an empty store, an empty
//! backup file and a replica that was sent nothing. The fates are those of the wire's first turns: `Pass`, `LosePacket`,
//! `LoseAck`, `Twice`, or `Old(N)`, by which the N-th packet that was ever sent comes in place of this one. `any` stands for
//! each of `Pass`, `LosePacket`, `LoseAck`, `Twice` and `Old(1)`: the script is then played over each of these plans.
//!
//! Below its headline a case shows how many plans it has, the first of them, and what the script is answered over it, with
//! the status. Another plan is shown only where it is answered otherwise than the one before.
#![tactic(auto)]

mod fates;
mod playing;

use crate::playing::play_case;
use anyhow::Result;
use std::io;
use std::io::Write;

fn main(rt: HostRuntime) -> Result<()> {
    let alloc = rt.alloc();
    let text = io::read_to_string(alloc, rt.stdin())?;
    let mut output = rt.stdout();
    let mut parts = text.as_str().split("\n== ");
    let landscape = parts.next().unwrap_or("");
    for case in parts {
        let shown = play_case(&rt, alloc, landscape, case)?;
        output.write_all(shown.as_slice())?;
    }
    Ok(())
}
