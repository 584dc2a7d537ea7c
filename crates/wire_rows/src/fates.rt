use enq_base::NoMemory;
use lossy_link::Fate;
use std::alloc::Global;
use thiserror::Error;

/// Why a case isn't played.
#[derive(Clone, Copy, Debug, PartialEq, Eq, Error)]
pub(crate) enum CaseFault {
    #[error("a case without its form")]
    NoForm,
    #[error("no memory")]
    NoMemory,
}

impl From<NoMemory> for CaseFault {
    fn from(_e: NoMemory) -> CaseFault {
        CaseFault::NoMemory
    }
}

// What `any` stands for.
const ANY: [Fate; 5] = [
    Fate::Pass,
    Fate::LosePacket,
    Fate::LoseAck,
    Fate::Twice,
    Fate::Old(1),
];

/// Reads a line `wire FATE FATE ..`: the plans that it stands for.
pub(crate) fn read_plans(alloc: Global, line: &str) -> Result<Vec<Vec<Fate>>, CaseFault> {
    let mut words = line.split(' ');
    if words.next() != Some("wire") {
        return Err(CaseFault::NoForm);
    }
    let mut plans = no_fates(alloc)?;
    for word in words {
        plans = match read_fate(word) {
            Some(fate) => longer(alloc, plans.as_slice(), &[fate])?,
            None if word == "any" => longer(alloc, plans.as_slice(), &ANY)?,
            None => return Err(CaseFault::NoForm),
        };
    }
    Ok(plans)
}

fn read_fate(word: &str) -> Option<Fate> {
    match word {
        "Pass" => Some(Fate::Pass),
        "LosePacket" => Some(Fate::LosePacket),
        "LoseAck" => Some(Fate::LoseAck),
        "Twice" => Some(Fate::Twice),
        _ => {
            let number = word.strip_prefix("Old(")?.strip_suffix(')')?;
            Some(Fate::Old(number.parse::<u64>().ok()?))
        }
    }
}

/// Each of these plans with each of these fates behind it.
fn longer(alloc: Global, plans: &[Vec<Fate>], fates: &[Fate]) -> Result<Vec<Vec<Fate>>, NoMemory> {
    let mut all = Vec::new(alloc);
    for plan in plans {
        for fate in fates {
            let mut plan = Vec::from_slice(alloc, plan.as_slice())?;
            plan.push(*fate)?;
            all.push(plan)?;
        }
    }
    Ok(all)
}

/// The one plan that has no fate.
fn no_fates(alloc: Global) -> Result<Vec<Vec<Fate>>, NoMemory> {
    Ok(vec![in alloc; Vec::new(alloc)]?)
}
