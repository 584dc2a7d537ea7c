ghost use Rattle.std.specs.Prelude.{◌≡◌, ◌==◌, ◌%◌, true, false, []};

use crate::watch::{
    Begins, Board, Learns, Looks, Notes, Parts, Publishes, Reads, Repeats, Starts, Takes, Twice,
    Watch, Writes,
};
use atomic_table::{Seat, Table};
use enq_base::{NoMemory, Readings};
use std::alloc::Global;

const SEQUENCE: usize = 0;

const PAST: usize = 1;

const WAITING: usize = 2;

const POSTED: usize = 3;

const LOCKS: usize = 4;

const CONDITION: usize = 5;

// How often a look tries to read the words while none is written.
const TRIES: u32 = 64;

/// Readings that one thread publishes and others look at: a sequence lock with one writer, whose sequence number is odd
/// while the words change. Nobody waits. After 2^63 publishes they stand still.
#[derive(Drop)]
pub struct Gauges {
    table: Table<u8, Watch, Readings, Board, Global>,
    ghost six_words: { table.shared.table_id.words ≡ 6 },
}

/// The right to publish, which one thread has.
#[derive(Drop)]
pub struct GaugeWriter {
    sequence: u64,
    seat: Seat<u8, Watch>,
    ghost writes: { seat.me.0.writes ≡ true },
    ghost only_writes: { seat.me.0.looks ≡ false },
    ghost counted: { sequence ≡ seat.me.0.sequence },
    ghost odd_halfway: { seat.me.0.halfway ≡ (sequence % 2 == 1) },
    ghost no_words: { seat.me.0.words ≡ [] },
    ghost no_slots: { seat.me.1 ≡ [] },
}

/// What one thread looks with. It keeps the last readings that it saw.
#[derive(Drop)]
pub struct GaugePass {
    last: Readings,
    seat: Seat<u8, Watch>,
    ghost looks: { seat.me.0.looks ≡ true },
    ghost only_looks: { seat.me.0.writes ≡ false },
    ghost rests: { seat.me.0.halfway ≡ false },
    ghost kept: { last ≡ seat.me.0.latest },
    ghost no_slots: { seat.me.1 ≡ [] },
}

impl Gauges {
    ghost use Rattle.std.specs.Prelude.{ℕ, ◌+◌, ◌≤◌, ◌∷◌, ◌++◌, List, length, All, IfSome, IfNone};
    ghost use Rattle.gauges.specs.Rule.{words_of, found_so_far, looked};

    // Reads the next word.
    fn read(&self, seat: &mut Seat<u8, Watch>, word: usize) -> u64
        requires own { seat.old.table_id ≡ self.now.table.shared.table_id }
        requires rests { seat.old.me.0.halfway ≡ false }
        requires next { (length seat.old.me.0.words + 1 ≡ word) × (word ≤ 5) }
        ensures own { seat.new.table_id ≡ seat.old.table_id }
        ensures read { seat.new.me
            ≡ (found_so_far seat.old.me.0.sequence (seat.old.me.0.words ++ result ∷ []) seat.old.me.0, seat.old.me.1) }
    {
        self.table.shared.load::<Reads>(seat, word)
    }

    // Reads all five words. They may be of several publishes.
    fn read_all(&self, seat: &mut Seat<u8, Watch>) -> Readings
        requires own { seat.old.table_id ≡ self.now.table.shared.table_id }
        requires rests { seat.old.me.0.halfway ≡ false }
        requires none_yet { seat.old.me.0.words ≡ [] }
        ensures own { seat.new.table_id ≡ seat.old.table_id }
        ensures read { seat.new.me
            ≡ (found_so_far seat.old.me.0.sequence (words_of result) seat.old.me.0, seat.old.me.1) }
    {
        let past = self.read(seat, PAST);
        let waiting = self.read(seat, WAITING);
        let posted = self.read(seat, POSTED);
        let locks = self.read(seat, LOCKS);
        let condition = self.read(seat, CONDITION);
        Readings {
            past,
            waiting,
            posted,
            locks,
            condition,
        }
    }

    // One try to read the words of one publish: none were written while they were read.
    fn try_look(&self, seat: &mut Seat<u8, Watch>) -> Option<Readings>
        requires own { seat.old.table_id ≡ self.now.table.shared.table_id }
        requires looks { (seat.old.me.0.looks ≡ true) × (seat.old.me.0.writes ≡ false)
            × (seat.old.me.0.halfway ≡ false) }
        ensures own { seat.new.table_id ≡ seat.old.table_id }
        ensures some { IfSome result
            (λ r. (n place : ℕ) × (ws : List ℕ)
            × (seat.new.me ≡ (looked r place (found_so_far n ws seat.old.me.0), seat.old.me.1))
            × All (λ x. x.past ≤ r.past) seat.old.me.0.seen) }
        ensures none { IfNone result
            ((n : ℕ) × (ws : List ℕ) × (seat.new.me ≡ (found_so_far n ws seat.old.me.0, seat.old.me.1))) }
    {
        let before = self.table.shared.load::<Starts>(seat, SEQUENCE);
        if before % 2 == 1 {
            return None;
        }
        let now = self.read_all(seat);
        let after = self.table.shared.load::<Looks>(seat, SEQUENCE);
        if after == before { Some(now) } else { None }
    }

    // Gives what is at hand once more.
    fn repeat(&self, seat: &mut Seat<u8, Watch>)
        requires own { seat.old.table_id ≡ self.now.table.shared.table_id }
        requires looks { (seat.old.me.0.looks ≡ true) × (seat.old.me.0.writes ≡ false)
            × (seat.old.me.0.halfway ≡ false) }
        ensures own { seat.new.table_id ≡ seat.old.table_id }
        ensures repeated { seat.new.me
            ≡ (looked seat.old.me.0.latest seat.old.me.0.place seat.old.me.0, seat.old.me.1) }
        ensures later { All (λ x. x.past ≤ seat.old.me.0.latest.past) seat.old.me.0.seen }
    {
        self.table.shared.load::<Repeats>(seat, SEQUENCE);
    }

    // The present readings, or the last at hand where others were written at each try.
    fn look_from(&self, seat: &mut Seat<u8, Watch>, last: Readings) -> Readings
        requires own { seat.old.table_id ≡ self.now.table.shared.table_id }
        requires looks { (seat.old.me.0.looks ≡ true) × (seat.old.me.0.writes ≡ false)
            × (seat.old.me.0.halfway ≡ false) }
        requires last { last ≡ seat.old.me.0.latest }
        ensures own { seat.new.table_id ≡ seat.old.table_id }
        ensures looked { (n place : ℕ) × (ws : List ℕ)
            × (seat.new.me ≡ (looked result place (found_so_far n ws seat.old.me.0), seat.old.me.1)) }
        ensures later { All (λ x. x.past ≤ result.past) seat.old.me.0.seen }
    {
        for _ in 0..TRIES {
            if let Some(now) = self.try_look(seat) {
                return now;
            }
        }
        self.repeat(seat);
        last
    }
}

impl Gauges {
    ghost use Rattle.std.specs.Prelude.{◌+◌, ◌≤◌, ◌∷◌, ◌++◌, length};
    ghost use Rattle.gauges.specs.Rule.{words_of, found_so_far, begun, published};

    // Makes the sequence number odd, and gives it.
    fn begin(&self, seat: &mut Seat<u8, Watch>, sequence: u64) -> u64
        requires own { seat.old.table_id ≡ self.now.table.shared.table_id }
        requires writes { seat.old.me.0.writes ≡ true }
        requires counted { sequence ≡ seat.old.me.0.sequence }
        requires halfway { seat.old.me.0.halfway ≡ (sequence % 2 == 1) }
        requires no_words { seat.old.me.0.words ≡ [] }
        ensures own { seat.new.table_id ≡ seat.old.table_id }
        ensures odd { result % 2 ≡ 1 }
        ensures begun { seat.new.me ≡ (begun result seat.old.me.0, seat.old.me.1) }
    {
        if sequence % 2 == 1 {
            return sequence;
        }
        self.table.shared.fetch_add::<Begins>(seat, SEQUENCE, 1);
        sequence + 1
    }

    // Writes the next word.
    fn write(&self, seat: &mut Seat<u8, Watch>, word: usize, new: u64)
        requires own { seat.old.table_id ≡ self.now.table.shared.table_id }
        requires writes { (seat.old.me.0.writes ≡ true) × (seat.old.me.0.halfway ≡ true) }
        requires next { (length seat.old.me.0.words + 1 ≡ word) × (word ≤ 5) }
        ensures own { seat.new.table_id ≡ seat.old.table_id }
        ensures written { seat.new.me
            ≡ (found_so_far seat.old.me.0.sequence (seat.old.me.0.words ++ new ∷ []) seat.old.me.0, seat.old.me.1) }
    {
        self.table.shared.store::<Writes>(seat, word, new);
    }

    fn write_all(&self, seat: &mut Seat<u8, Watch>, now: &Readings)
        requires own { seat.old.table_id ≡ self.now.table.shared.table_id }
        requires writes { (seat.old.me.0.writes ≡ true) × (seat.old.me.0.halfway ≡ true) }
        requires none_yet { seat.old.me.0.words ≡ [] }
        ensures own { seat.new.table_id ≡ seat.old.table_id }
        ensures written { seat.new.me
            ≡ (found_so_far seat.old.me.0.sequence (words_of now.now) seat.old.me.0, seat.old.me.1) }
    {
        self.write(seat, PAST, now.past);
        self.write(seat, WAITING, now.waiting);
        self.write(seat, POSTED, now.posted);
        self.write(seat, LOCKS, now.locks);
        self.write(seat, CONDITION, now.condition);
    }

    // Makes the sequence number even, and gives it. At the highest it stays.
    fn end(&self, seat: &mut Seat<u8, Watch>, sequence: u64, now: &Readings) -> u64
        requires own { seat.old.table_id ≡ self.now.table.shared.table_id }
        requires writes { (seat.old.me.0.writes ≡ true) × (seat.old.me.0.halfway ≡ true)
            × (seat.old.me.0.looks ≡ false) }
        requires counted { (sequence ≡ seat.old.me.0.sequence) × (sequence % 2 ≡ 1) }
        requires written { seat.old.me.0.words ≡ words_of now.now }
        requires risen { seat.old.me.0.latest.past ≤ now.now.past }
        ensures own { seat.new.table_id ≡ seat.old.table_id }
        ensures published { seat.new.me ≡ (published now.now result (result % 2 == 1) seat.old.me.0, seat.old.me.1) }
    {
        let _ = now;
        if sequence == u64::MAX {
            self.table.shared.load::<Notes>(seat, SEQUENCE);
            return sequence;
        }
        self.table.shared.fetch_add::<Publishes>(seat, SEQUENCE, 1);
        sequence + 1
    }
}

impl Gauges {
    ghost use Rattle.std.specs.Prelude.{ℕ, ◌≤◌, ◌∷◌, ◌++◌, List, All, IfOk};
    ghost use Rattle.std.specs.List.Sorted.{IsNonDecreasing};
    ghost use Rattle.seat_sums.specs.Entries.{entries_at};
    ghost use Rattle.gauges.specs.Boards.{told, latest, seen, IsWriterOf, IsReaderOf};

    /// The gauges with the first readings, which count as published, their writer and a pass that has seen nothing. An
    /// Err is want of memory.
    pub fn new(alloc: Global, first: Readings) -> Result<(Gauges, GaugeWriter, GaugePass), NoMemory>
        ensures own { IfOk result (λ r. IsWriterOf r.0 r.1 × IsReaderOf r.0 r.2) }
        ensures told { IfOk result (λ r. (told r.1 ≡ first ∷ []) × (latest r.1 ≡ first)) }
        ensures seen { IfOk result (λ r. seen r.2 ≡ []) }
    {
        let words = [
            0,
            first.past,
            first.waiting,
            first.posted,
            first.locks,
            first.condition,
        ];
        let (table, mut seat) = Table::of_words(alloc, &words, &first)?;
        let pass = table.shared.split_seat::<Parts>(&mut seat);
        Ok((
            Gauges { table },
            GaugeWriter { sequence: 0, seat },
            GaugePass {
                last: first,
                seat: pass,
            },
        ))
    }

    /// Readings of one publish, which are no older than what the pass had seen. Where each of 64 tries met a publish,
    /// they are those that the pass had last: how fresh they are isn't promised. Takes no memory.
    pub fn look(&self, pass: &mut GaugePass) -> Readings
        requires own { IsReaderOf self.now pass.old }
        ensures own { IsReaderOf self.now pass.new }
        ensures seen { seen pass.new ≡ seen pass.old ++ result ∷ [] }
        ensures later { All (λ r. r.past ≤ result.past) (seen pass.old) }
    {
        pass.last = self.look_from(&mut pass.seat, pass.last);
        pass.last
    }

    /// Publishes the readings, between two steps of the sequence number: a look shows all five or none of them. After
    /// 2^63 publishes it only adds to the writer's list. Takes no memory.
    pub fn publish(&self, writer: &mut GaugeWriter, now: &Readings)
        requires own { IsWriterOf self.now writer.old }
        requires risen { (latest writer.old).past ≤ now.now.past }
        ensures own { IsWriterOf self.now writer.new }
        ensures told { told writer.new ≡ told writer.old ++ now.now ∷ [] }
        ensures latest { latest writer.new ≡ now.now }
    {
        let odd = self.begin(&mut writer.seat, writer.sequence);
        self.write_all(&mut writer.seat, now);
        writer.sequence = self.end(&mut writer.seat, odd, now);
    }

    /// A second pass, for another thread. Takes no memory.
    pub fn split(&self, pass: GaugePass) -> (GaugePass, GaugePass)
        requires own { IsReaderOf self.now pass }
        ensures own { IsReaderOf self.now result.0 × IsReaderOf self.now result.1 }
        ensures seen { (seen result.0 ≡ seen pass) × (seen result.1 ≡ seen pass) }
    {
        let GaugePass { last, mut seat } = pass;
        let second = self.table.shared.split_seat::<Twice>(&mut seat);
        (GaugePass { last, seat }, GaugePass { last, seat: second })
    }

    /// Ends a pass, and so learns that what it saw stands in what was published, at places that never fall from one
    /// look to the next. Takes no memory.
    pub fn join(&self, writer: &mut GaugeWriter, pass: GaugePass)
        requires own { IsWriterOf self.now writer.old × IsReaderOf self.now pass }
        ensures own { IsWriterOf self.now writer.new }
        ensures told { (told writer.new ≡ told writer.old) × (latest writer.new ≡ latest writer.old) }
        ensures seen { (places : List ℕ) × IsNonDecreasing places × (seen pass ≡ entries_at (told writer.old) places) }
    {
        let GaugePass { seat, .. } = pass;
        self.table.shared.join_seat::<Takes>(&mut writer.seat, seat);
        self.table.shared.load::<Learns>(&mut writer.seat, SEQUENCE);
    }
}
