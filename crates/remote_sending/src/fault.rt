ghost use Rattle.std.specs.Prelude.{◌≡◌};
ghost use Rattle.remote_sending.specs.Sends.{outbox_fault, system_fault};

use keeper_api::KeepFault;

/// Why sending ended before its end.
#[derive(Clone, Copy, Debug, PartialEq, Eq)]
pub enum SendFault {
    Sink,
    System,
    Outbox,
    BadRow { table: u8, row: u64 },
    NoMemory,
}

pub fn of_system(fault: KeepFault) -> SendFault
    ensures { result ≡ system_fault fault }
{
    match fault {
        KeepFault::Failed => SendFault::System,
        KeepFault::NoMemory => SendFault::NoMemory,
    }
}

pub fn of_outbox(fault: KeepFault) -> SendFault
    ensures { result ≡ outbox_fault fault }
{
    match fault {
        KeepFault::Failed => SendFault::Outbox,
        KeepFault::NoMemory => SendFault::NoMemory,
    }
}
