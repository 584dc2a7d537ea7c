ghost use Rattle.std.specs.Prelude.{◌≡◌, ◌⊎◌, ◌+◌, ◌≤◌, ℕ, List, [], ◌∷◌, ◌++◌, length, IsTrue, IfOk, OnOk};
ghost use Rattle.enq_base.specs.Causes.{HasCause};
ghost use Rattle.gate_log.specs.Gates.{IsShut, IsSynced, IsAtRest};

use bk_disk::Disk;
use enq_base::Failed;

/// Adds a record behind the closed gate at an offset, by four calls of the disk. The text is an open gate, the record
/// and a closed gate. The answer is where the closed gate stands then.
pub fn add_record<D: Disk>(disk: &mut D, gate: u64, text: &[u8]) -> Result<u64, Failed>
    requires { 1 ≤ length text.now }
    ensures added { IsTrue D.tells → (front body : List ℕ)
        → IsAtRest (D.reads disk.old) (D.may_leave disk.old) gate front → text.now ≡ 1 ∷ (body ++ 0 ∷ [])
        → IfOk result (λ next. IsAtRest (D.reads disk.new) (D.may_leave disk.new) next (front ++ 1 ∷ body)) }
    // A crash leaves the front with the record or without it.
    ensures images { IsTrue D.tells → (front body : List ℕ)
        → IsAtRest (D.reads disk.old) (D.may_leave disk.old) gate front → text.now ≡ 1 ∷ (body ++ 0 ∷ [])
        → (c : List ℕ) → D.may_leave disk.new c → IsShut front c ⊎ IsShut (front ++ 1 ∷ body) c }
    // Where the closed gate is the last byte, the text comes in its place.
    ensures grown { IsTrue D.tells → (front : List ℕ) (byte : ℕ) → D.reads disk.old ≡ front ++ byte ∷ []
        → length front ≡ gate → OnOk result (D.reads disk.new ≡ front ++ text.now) }
    ensures cause { HasCause (D.faults disk.old) (D.faults disk.new) result }
{
    let (open_gate, behind) = text.split_at(1);
    stage(disk, gate, behind)?;
    open(disk, gate, open_gate)?;
    Ok(gate.saturating_add(behind.len() as u64))
}

/// Writes behind the closed gate.
fn stage<D: Disk>(disk: &mut D, gate: u64, behind: &[u8]) -> Result<(), Failed>
    ensures staged { IsTrue D.tells → (front : List ℕ)
        → IsAtRest (D.reads disk.old) (D.may_leave disk.old) gate front
        → OnOk result (IsSynced (D.reads disk.new) (D.may_leave disk.new) gate front behind.now) }
    ensures images { IsTrue D.tells → (front : List ℕ)
        → IsAtRest (D.reads disk.old) (D.may_leave disk.old) gate front
        → (c : List ℕ) → D.may_leave disk.new c → IsShut front c }
    ensures grown { IsTrue D.tells → (front : List ℕ) (byte : ℕ) → D.reads disk.old ≡ front ++ byte ∷ []
        → length front ≡ gate → OnOk result (D.reads disk.new ≡ front ++ byte ∷ behind.now) }
    ensures cause { HasCause (D.faults disk.old) (D.faults disk.new) result }
{
    disk.write_at(gate.saturating_add(1), behind)?;
    disk.sync()?;
    Ok(())
}

/// Opens the gate before a record, behind which another closed gate stands.
fn open<D: Disk>(disk: &mut D, gate: u64, open_gate: &[u8]) -> Result<(), Failed>
    ensures opened { IsTrue D.tells → (front body : List ℕ)
        → IsSynced (D.reads disk.old) (D.may_leave disk.old) gate front (body ++ 0 ∷ []) → open_gate.now ≡ 1 ∷ []
        → OnOk result (IsAtRest (D.reads disk.new) (D.may_leave disk.new) (gate + 1 + length body)
        (front ++ 1 ∷ body)) }
    ensures images { IsTrue D.tells → (front body : List ℕ)
        → IsSynced (D.reads disk.old) (D.may_leave disk.old) gate front (body ++ 0 ∷ []) → open_gate.now ≡ 1 ∷ []
        → (c : List ℕ) → D.may_leave disk.new c → IsShut front c ⊎ IsShut (front ++ 1 ∷ body) c }
    ensures grown { IsTrue D.tells → (front behind : List ℕ) (byte : ℕ)
        → D.reads disk.old ≡ front ++ byte ∷ behind → length front ≡ gate → length open_gate.now ≡ 1
        → OnOk result (D.reads disk.new ≡ front ++ (open_gate.now ++ behind)) }
    ensures cause { HasCause (D.faults disk.old) (D.faults disk.new) result }
{
    disk.write_at(gate, open_gate)?;
    disk.sync()?;
    Ok(())
}
