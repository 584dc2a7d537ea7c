ghost use Rattle.std.specs.Prelude.{◌≡◌, ◌≢◌, IsTrue, IfSome, IfNone, ◌↔◌};
ghost use Rattle.enq_base.specs.Number.{unit_key_of, IsUnitKey};
ghost use Rattle.enq_base.specs.Owners.{same_owner, same_unit};
ghost use Rattle.enq_base.specs.Text.{unit_text};
ghost use Rattle.enq_base.specs.declared.owner.UnitKey.{UnitKey};

use crate::cut::cut_at;
use crate::number::read_count;

/// The owners that a lock request names: 1 the dialogue, 2 the update, 3 both (The SAP Lock Concept, `_SCOPE`).
#[derive(Clone, Copy, Debug, PartialEq, Eq)]
pub enum Scope {
    One,
    Two,
    Three,
}

/// The key of a logical unit of work: the start of the server, the session within it, the unit within that. It is
/// printed as `1.2.3`.
#[derive(Clone, Copy, Debug, PartialEq, Eq)]
pub struct UnitKey {
    pub start: u32,
    pub session: u32,
    pub luw: u32,
}

/// Who holds a lock: the dialogue of a session, or the update of a unit (The SAP Lock Concept, lock owners).
#[derive(Clone, Copy, Debug, PartialEq, Eq)]
pub enum Owner {
    Dlg { start: u32, session: u32 },
    Upd(UnitKey),
}

impl UnitKey {
    /// Whether two keys are one.
    pub fn is(&self, other: &UnitKey) -> bool
        ensures test { result ≡ same_unit self.now other.now }
        ensures one { IsTrue result ↔ (self.now ≡ other.now) }
    {
        self.start == other.start && self.session == other.session && self.luw == other.luw
    }
}

impl Owner {
    /// Whether two owners are one.
    pub fn is(&self, other: &Owner) -> bool
        ensures test { result ≡ same_owner self.now other.now }
        ensures one { IsTrue result ↔ (self.now ≡ other.now) }
    {
        match (self, other) {
            (
                Owner::Dlg { start, session },
                Owner::Dlg {
                    start: other_start,
                    session: other_session,
                },
            ) => start == other_start && session == other_session,
            (Owner::Upd(unit), Owner::Upd(other_unit)) => unit.is(other_unit),
            _ => false,
        }
    }
}

/// The unit key that the bytes spell: three numbers from 1 on, joined by `.`.
pub fn read_unit_key(text: &[u8]) -> Option<UnitKey>
    ensures key { result ≡ unit_key_of text.now }
    ensures spelled { IfSome result (λ unit. IsUnitKey unit × (text.now ≡ unit_text unit)) }
    ensures none { IfNone result ((unit : UnitKey) → IsUnitKey unit → text.now ≢ unit_text unit) }
{
    unit_key_in(text)
}

#[tactic(auto, unfolding(crate::specs::Number::unit_key_of))]
fn unit_key_in(text: &[u8]) -> Option<UnitKey>
    ensures { result ≡ unit_key_of text.now }
{
    let (start, rest) = cut_at(text, b'.')?;
    let (session, luw) = cut_at(rest, b'.')?;
    let start = read_count(start)?;
    let session = read_count(session)?;
    let luw = read_count(luw)?;
    Some(UnitKey {
        start,
        session,
        luw,
    })
}
