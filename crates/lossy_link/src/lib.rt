//! A link to a replica over a wire that loses, repeats and reorders packets.
#![tactic(auto)]

mod laws;
mod mem_wire;
mod packet;
mod playing;
mod replica;
mod sending;
mod turning;
mod wire;

pub use io_edge::Fate;
pub use laws::replicas_are_in_step;
pub use mem_wire::MemWire;
pub use packet::{Ack, Packet};
pub use replica::Replica;
pub use sending::LossyLink;
pub use wire::Wire;
