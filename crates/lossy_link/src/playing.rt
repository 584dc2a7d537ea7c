ghost use Rattle.std.specs.Prelude.{◌≡◌, ◌⊎◌, IfOk, OnErr, OnOk, option_copied};
ghost use Rattle.lossy_link.specs.Memory.{answer_in, coming, numbered};
ghost use Rattle.lossy_link.specs.Packets.{taken, taken_all};

use crate::packet::{Ack, Packet};
use crate::replica::Replica;
use enq_base::NoMemory;
use io_edge::Fate;
use std::alloc::Global;

/// The packet of this number among those that were sent, counted from 1.
fn numbered(sent: &[Packet], number: u64) -> Option<&Packet>
    ensures { option_copied result ≡ numbered sent.now number }
{
    if number == 0 {
        return None;
    }
    sent.get(number as usize - 1)
}

/// Lets come to the replica what comes in a turn of this fate, and gives what is answered in it.
pub fn play(
    replica: &mut Replica,
    alloc: Global,
    sent: &[Packet],
    packet: &Packet,
    fate: Fate,
) -> Result<Option<Ack>, NoMemory>
    ensures answer { IfOk result (λ answer. answer ≡ answer_in fate sent.now packet.now replica.old) }
    ensures came { OnOk result (replica.new ≡ taken_all replica.old (coming fate sent.now packet.now)) }
    // Without memory the replica takes nothing, or the packet once where it was to come twice.
    ensures wanting { OnErr result ((replica.new ≡ replica.old) ⊎ (replica.new ≡ taken replica.old packet.now)) }
{
    match fate {
        Fate::Pass => Ok(Some(replica.take(alloc, packet)?)),
        Fate::LosePacket => Ok(None),
        Fate::LoseAck => {
            let _ = replica.take(alloc, packet)?;
            Ok(None)
        }
        Fate::Twice => {
            let _ = replica.take(alloc, packet)?;
            Ok(Some(replica.take(alloc, packet)?))
        }
        Fate::Old(number) => match numbered(sent, number) {
            Some(old) => Ok(Some(replica.take(alloc, old)?)),
            None => Ok(None),
        },
    }
}
