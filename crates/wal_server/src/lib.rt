//! The server with its store in a journal, and what a stop leaves on its disk and on that of the backup file.
#![tactic(auto)]

ghost use Rattle.std.specs.Prelude.{◌≡◌, ◌⊎◌, ℕ, [], None, IsTrue};
ghost use Rattle.enq_cmd.specs.Main.{IsLandEnd, IsUntouched};
ghost use Rattle.enq_cmd.specs.Words.{NamesWork, replay_words};
ghost use Rattle.enq_cmd.specs.declared.words.Work.TheVariants.{Loads, Runs};
ghost use Rattle.keeper_wal.specs.Wal.{all_faults};
ghost use Rattle.script_runner.specs.Replay.{seen};
ghost use Rattle.script_runner.specs.Replicas.{link_counts};
ghost use Rattle.wal_server.specs.Pairs.{HasLoadedPairs, HasPairs, HasThreadPairs, journal_found, journal_left};

use bk_disk::Disk;
use enq_base::Items;
use enq_cmd::{Ended, Site, enqueue_main};
use io_edge::{Sink, Source};
use keeper_wal::{WalKeeper, images_tell};
use replica_link::Link;
use std::alloc::Global;
use std::sync::Wait;
use std::thread::Threads;

/// Does what the words say over a store in a journal, where both disks tell what they hold.
pub fn journal_main<
    R: Threads + Wait + Sync,
    A: Source,
    S: Source,
    T: Sink,
    E: Disk + Send,
    D: Disk + Send,
    L: Link + Send,
>(
    rt: &R,
    alloc: Global,
    words: &[Items<u8>],
    landscape: &mut A,
    script: &mut S,
    sink: &mut T,
    site: Site<WalKeeper<E>, D, L>,
) -> Ended<WalKeeper<E>, D, L>
    // The whole is one history, and each pair of images that a stop may leave on the two disks is kept for the state to
    // which its calls led. Where the store isn't opened what stood before remains on both.
    ensures served { words.now ≡ replay_words → IsTrue E.tells → IsTrue D.tells
        → HasPairs (A.left landscape.old)
        (journal_found E.tells E.may_leave D.tells D.reads D.may_leave L.applied site.keeper site.disk site.link)
        (journal_left E.tells E.may_leave D.may_leave L.applied result.site.keeper result.site.disk result.site.link)
        site.disk result.site.disk site.link result.site.link
        (seen (S.left script.old) (T.written sink.old) (S.faults script.old) (T.faults sink.old)
        (all_faults E.faults site.keeper) (D.faults site.disk))
        (seen (S.left script.new) (T.written sink.new) (S.faults script.new) (T.faults sink.new)
        (all_faults E.faults result.site.keeper) (D.faults result.site.disk))
        result.past result.why (E.may_leave result.site.keeper.disk)
        ⊎ (IsLandEnd (A.faults landscape.old) (A.faults landscape.new) result.why
        × IsUntouched script.old script.new sink.old sink.new site.keeper result.site.keeper site.disk result.site.disk
        site.link result.site.link result.past) }
    ensures loaded { (n : ℕ) → NamesWork words.now (Loads n) → IsTrue E.tells → IsTrue D.tells
        → HasLoadedPairs n (A.left landscape.old)
        (journal_found E.tells E.may_leave D.tells D.reads D.may_leave L.applied site.keeper site.disk site.link)
        (journal_left E.tells E.may_leave D.may_leave L.applied result.site.keeper result.site.disk result.site.link)
        site.disk result.site.disk site.link result.site.link
        (seen None (T.written sink.old) 0 (T.faults sink.old) (all_faults E.faults site.keeper) (D.faults site.disk))
        (seen None (T.written sink.new) 0 (T.faults sink.new) (all_faults E.faults result.site.keeper)
        (D.faults result.site.disk))
        result.past result.why (E.may_leave result.site.keeper.disk)
        ⊎ (IsLandEnd (A.faults landscape.old) (A.faults landscape.new) result.why
        × IsUntouched script.old script.new sink.old sink.new site.keeper result.site.keeper site.disk result.site.disk
        site.link result.site.link result.past) }
    ensures threads { (n : ℕ) → NamesWork words.now (Runs n) → IsTrue E.tells → IsTrue D.tells
        → ∥ HasThreadPairs n (A.left landscape.old)
        (journal_found E.tells E.may_leave D.tells D.reads D.may_leave L.applied site.keeper site.disk site.link)
        (journal_left E.tells E.may_leave D.may_leave L.applied result.site.keeper result.site.disk result.site.link)
        site.disk result.site.disk site.link result.site.link
        (seen (S.left script.old) (T.written sink.old) (S.faults script.old) (T.faults sink.old)
        (all_faults E.faults site.keeper) (D.faults site.disk))
        (seen (S.left script.new) (T.written sink.new) (S.faults script.new) (T.faults sink.new)
        (all_faults E.faults result.site.keeper) (D.faults result.site.disk))
        (link_counts L.faults L.refusals site.link) (link_counts L.faults L.refusals result.site.link)
        result.past result.drawn result.why (E.may_leave result.site.keeper.disk) ∥₁
        ⊎ (IsLandEnd (A.faults landscape.old) (A.faults landscape.new) result.why
        × IsUntouched script.old script.new sink.old sink.new site.keeper result.site.keeper site.disk result.site.disk
        site.link result.site.link result.past × (result.drawn ≡ [])) }
{
    let ended = enqueue_main(rt, alloc, words, landscape, script, sink, site);
    images_tell(&ended.site.keeper);
    ended
}
