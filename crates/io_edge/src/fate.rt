/// What becomes of a message that is sent in a turn, and of its answer.
#[derive(Clone, Copy, Debug, PartialEq, Eq)]
pub enum Fate {
    /// Both come.
    Pass,
    /// The message is lost.
    LosePacket,
    /// The message comes, and its answer is lost.
    LoseAck,
    /// The message comes twice.
    Twice,
    /// In its place comes the message of this number, counted from 1 over all that were ever sent, or none, where there
    /// is no such message.
    Old(u64),
}
