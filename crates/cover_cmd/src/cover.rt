ghost use Rattle.std.specs.Prelude.{◌≡◌, ◌≢◌, ◌⊎◌, ◌≤◌, ℕ, List, Some, Ok, IfErr, IfOk};
ghost use Rattle.cover_cmd.specs.Covering.{Covers, Puts, Tells, land_end};
ghost use Rattle.cover_cmd.specs.Reading.{HasText, ReadsAll};
ghost use Rattle.cover_cmd.specs.Texts.{cover_text};
ghost use Rattle.enq_base.specs.Causes.{Rose};
ghost use Rattle.landscape.specs.Landscape.{landscape_of};
ghost use Rattle.landscape.specs.declared.landscape.Landscape.{Landscape};
ghost use Rattle.script_runner.specs.LineFaults.{IsToBlame};
ghost use Rattle.script_runner.specs.Whole.{IsScript};

use crate::lines::lacks_in;
use crate::texts::cover_text;
use coverage::Lack;
use enq_base::NoMemory;
use io_edge::{Sink, Source, put_all};
use landscape::{LandFault, read_landscape};
use lock_objects::LockObject;
use script_runner::Why;
use std::alloc::Global;

/// Reads the landscape and the whole script, and tells what the script lacks in locks. No device is touched.
pub fn write_cover<A: Source, S: Source, T: Sink>(
    alloc: Global,
    landscape: &mut A,
    script: &mut S,
    sink: &mut T,
) -> Why
    // What was read, what was written, and why it ended.
    ensures covered { Covers (A.left landscape.old) (A.faults landscape.old) (A.faults landscape.new)
        (S.left script.old) (S.left script.new) (S.faults script.old) (S.faults script.new)
        (T.written sink.old) (T.written sink.new) (T.faults sink.old) (T.faults sink.new) result }
    // Nothing is written unless the script was read to its end.
    ensures unwritten { result ≢ Why.Done → result ≢ Why.SinkFault → sink.new ≡ sink.old }
    // Where the landscape isn't read the script isn't either.
    ensures unread { (rule place : ℕ) → result ≡ Why.BadLandscape rule place → script.new ≡ script.old }
    ensures no_landing { A.faults landscape.new ≢ A.faults landscape.old
        → (script.new ≡ script.old) × (sink.new ≡ sink.old) }
    // A line that is to blame is the first without a command, the first with over 1,024 bytes, or the 200,001st.
    ensures line_fault { (bytes : List ℕ) → S.left script.old ≡ Some bytes → IsToBlame result bytes }
    // A script in order, with a landscape that breaks no rule, is told of, unless a count rose or memory is wanting.
    ensures complete { (bytes : List ℕ) → S.left script.old ≡ Some bytes → IsScript bytes
        → (document : List ℕ) → A.left landscape.old ≡ Some document
        → (land : Landscape) → landscape_of document ≡ Ok land
        → ¬ Rose (A.faults landscape.old) (A.faults landscape.new)
        → ¬ Rose (S.faults script.old) (S.faults script.new)
        → ¬ Rose (T.faults sink.old) (T.faults sink.new) → (result ≡ Why.Done) ⊎ (result ≡ Why.NoMemory) }
    ensures script_faults { S.faults script.old ≤ S.faults script.new }
    ensures sink_faults { T.faults sink.old ≤ T.faults sink.new }
{
    match read_landscape(alloc, landscape) {
        Ok(land) => write_lacks(alloc, land.objects.as_slice(), script, sink),
        Err(fault) => land_end(fault),
    }
}

/// Why the words end where the landscape isn't read.
fn land_end(fault: LandFault) -> Why
    ensures { result ≡ land_end fault }
{
    match fault {
        LandFault::Bad { rule, place } => Why::BadLandscape { rule, place },
        LandFault::Failed => Why::SourceFault,
        LandFault::NoMemory => Why::NoMemory,
    }
}

/// Tells what the script lacks with these objects.
fn write_lacks<S: Source, T: Sink>(
    alloc: Global,
    objects: &[LockObject],
    script: &mut S,
    sink: &mut T,
) -> Why
    ensures tells { Tells objects.now (S.left script.old) (S.left script.new)
        (S.faults script.old) (S.faults script.new)
        (T.written sink.old) (T.written sink.new) (T.faults sink.old) (T.faults sink.new) result }
    ensures unwritten { result ≢ Why.Done → result ≢ Why.SinkFault → sink.new ≡ sink.old }
    ensures script_faults { S.faults script.old ≤ S.faults script.new }
    ensures sink_faults { T.faults sink.old ≤ T.faults sink.new }
{
    match text_in(alloc, objects, script) {
        Ok(text) => put_text(sink, text.as_slice()),
        Err(why) => why,
    }
}

fn put_text<T: Sink>(sink: &mut T, text: &[u8]) -> Why
    ensures puts { Puts (T.written sink.old) (T.written sink.new) (T.faults sink.old) (T.faults sink.new)
        text.now result }
    ensures later { T.faults sink.old ≤ T.faults sink.new }
{
    match put_all(sink, text) {
        Ok(()) => Why::Done,
        Err(_) => Why::SinkFault,
    }
}

/// The text that tells it.
fn text_in<S: Source>(alloc: Global, objects: &[LockObject], script: &mut S) -> Result<Vec<u8>, Why>
    ensures reads { ReadsAll (HasText objects.now) (S.left script.old) (S.left script.new)
        (S.faults script.old) (S.faults script.new) result }
    ensures later { S.faults script.old ≤ S.faults script.new }
{
    match lacks_in(alloc, objects, script) {
        Ok(lacks) => text_of(alloc, lacks.as_slice()),
        Err(why) => Err(why),
    }
}

fn text_of(alloc: Global, lacks: &[Lack]) -> Result<Vec<u8>, Why>
    ensures text { IfOk result (λ text. text.items ≡ cover_text lacks.now) }
    ensures memory { IfErr result (λ why. why ≡ Why.NoMemory) }
{
    match cover_text(alloc, lacks) {
        Ok(text) => Ok(text),
        Err(NoMemory) => Err(Why::NoMemory),
    }
}
