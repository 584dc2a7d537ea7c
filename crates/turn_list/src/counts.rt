ghost use Rattle.std.specs.Prelude.{◌≡◌, ◌≤◌, ◌<◌, ◌+◌, ◌^◌, ◌++◌, ◌∷◌, [], length, None, slice_get, slice_set, slice_index_or};
ghost use Rattle.turn_list.specs.Turns.{waiting_in};
ghost use Rattle.turn_list.specs.Counts.{waits, IsCounted, IsLowered};

use enq_base::UnitKey;

/// The widest blocks have two to this many turns.
const LEVELS: u32 = 20;

/// One for a unit, none for no unit.
pub fn waits(unit: &Option<UnitKey>) -> u32
    ensures { result ≡ waits unit.now }
{
    match unit {
        Some(_) => 1,
        None => 0,
    }
}

fn width_of(level: u32) -> usize
    requires { level ≤ 20 }
    ensures { result ≡ 2 ^ level }
{
    1 << level
}

/// How many wait in the block that a further turn ends.
pub fn new_count(slots: &[Option<UnitKey>], counts: &[u32], unit: &Option<UnitKey>) -> u32
    requires counted { IsCounted slots.now counts.now }
    requires few { length slots.now < 1048576 }
    ensures { IsCounted (slots.now ++ unit.now ∷ []) (counts.now ++ result ∷ []) }
{
    let mut start = slots.len();
    let mut width = 1;
    let mut count = waits(unit);
    while start / width % 2 == 1 {
        count += counts[start - 1];
        start -= width;
        width *= 2;
    }
    count
}

/// Takes the unit that waits at a turn out of the blocks around it.
pub fn lower_counts(slots: &[Option<UnitKey>], counts: &mut [u32], turn: usize)
    requires counted { IsCounted slots.now counts.old }
    requires few { length slots.now ≤ 1048576 }
    requires waits { waits (slice_index_or slots.now turn None) ≡ 1 }
    ensures { IsCounted (slice_set slots.now turn None) counts.new }
{
    for level in 0..LEVELS + 1 {
        lower_block(slots, counts, turn, level);
    }
}

fn lower_block(slots: &[Option<UnitKey>], counts: &mut [u32], turn: usize, level: u32)
    requires lowered { IsLowered slots.now turn counts.old level }
    requires few { length slots.now ≤ 1048576 }
    requires level { level ≤ 20 }
    requires waits { waits (slice_index_or slots.now turn None) ≡ 1 }
    ensures { IsLowered slots.now turn counts.new (level + 1) }
{
    let width = width_of(level);
    let end = (turn / width + 1) * width;
    if turn / width % 2 == 0 && end <= slots.len() {
        counts[end - 1] -= 1;
    }
}

/// The turn of the unit that waits at a place, counted from 0; past the last turn where none waits at it. It goes from
/// the widest blocks to the narrowest, and passes over those in which too few wait.
pub fn turn_at(slots: &[Option<UnitKey>], counts: &[u32], place: u32) -> usize
    requires counted { IsCounted slots.now counts.now }
    requires few { length slots.now ≤ 1048576 }
    ensures { slice_index_or slots.now result None ≡ slice_get (waiting_in slots.now) place }
{
    let mut level = LEVELS + 1;
    let mut turn = 0;
    let mut left = place;
    while level > 0 {
        level -= 1;
        let end = turn + width_of(level);
        if end <= slots.len() && counts[end - 1] <= left {
            left -= counts[end - 1];
            turn = end;
        }
    }
    turn
}
