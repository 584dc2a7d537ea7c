ghost use Rattle.std.specs.Prelude.{◌≡◌, ◌<◌, ◌≤◌, IfOk, IfErr, OnOk, OnErr};
ghost use Rattle.number_ranges.specs.Intervals.{IsInterval};
ghost use Rattle.number_ranges.specs.Draws as draw;

use crate::interval::{DrawFault, Interval};
use enq_base::Name;
use std::marker::Model;

/// An interval and what is drawn from it. An unbuffered one belongs to the session that draws from it, until the
/// numbers are recorded or given back. A buffered one hands its numbers out from memory up to the level.
#[derive(Debug, Drop)]
pub struct Range {
    interval: Interval,
    holder: Option<Name>,
    drawn: u64,
    next: u64,
}

impl Model for Range {
    ghost use Rattle.number_ranges.specs.Draws.{RangeState, IsRange};

    ghost Value = { RangeState };

    ghost view = { λ r. record { interval = r.interval; holder = r.holder; drawn = r.drawn; next = r.next } };

    ghost invariant = { λ r. IsRange
        (record { interval = r.interval; holder = r.holder; drawn = r.drawn; next = r.next }) };
}

impl Range {
    /// An interval from which nothing is drawn.
    pub fn new(interval: Interval) -> Range
        requires { IsInterval interval }
        ensures { result ≡ draw.fresh interval }
    {
        Range {
            interval,
            holder: None,
            drawn: 0,
            next: interval.level + 1,
        }
    }

    /// An interval as it stands: the session that it belongs to, how many numbers that session has drawn of it, and the
    /// number that memory hands out next.
    pub fn of(interval: Interval, holder: Option<Name>, drawn: u64, next: u64) -> Range
        requires { draw.IsRange (record { interval = interval; holder = holder; drawn = drawn; next = next }) }
        ensures { result ≡ record { interval = interval; holder = holder; drawn = drawn; next = next } }
    {
        Range {
            interval,
            holder,
            drawn,
            next,
        }
    }

    /// The interval with its present level.
    pub fn interval(&self) -> Interval
        ensures same { result ≡ self.now.interval }
        ensures good { draw.IsRange self.now }
    {
        self.interval
    }

    /// The session that the interval belongs to.
    pub fn holder(&self) -> Option<Name>
        ensures { result ≡ self.now.holder }
    {
        self.holder
    }

    /// Draws the next number of an unbuffered interval, which then belongs to the session.
    pub fn draw_plain(&mut self, session: Name) -> Result<u64, DrawFault>
        requires { self.old.interval.buffer ≡ 0 }
        ensures number { IfOk result (λ n. n ≡ draw.plain_next self.old) }
        ensures within { IfOk result (λ n. n ≤ self.old.interval.to) }
        ensures belongs { OnOk result (draw.IsFreeFor session self.old) }
        ensures drawn { OnOk result (self.new ≡ draw.with_draw session self.old) }
        ensures fault { IfErr result (draw.IsPlainFault session self.old) }
        ensures refused { OnErr result (self.new ≡ self.old) }
    {
        if let Some(holder) = self.holder {
            if !holder.is(&session) {
                return Err(DrawFault::Busy(holder));
            }
        }
        let number = self.interval.level + self.drawn + 1;
        if number > self.interval.to {
            return Err(DrawFault::Overflow(self.interval.to));
        }
        self.holder = Some(session);
        self.drawn += 1;
        Ok(number)
    }

    /// Hands out the next number of a buffered interval. Where it is past the level, memory is empty: the level is to
    /// be raised by a block first.
    pub fn draw_buffered(&mut self) -> Result<u64, DrawFault>
        requires { 0 < self.old.interval.buffer }
        ensures number { IfOk result (λ n. n ≡ self.old.next) }
        ensures within { IfOk result (λ n. n ≤ self.old.interval.level) }
        ensures drawn { OnOk result (self.new ≡ draw.handed_out self.old) }
        ensures fault { IfErr result (draw.IsBufferedFault self.old) }
        ensures refused { OnErr result (self.new ≡ self.old) }
    {
        let number = self.next;
        if number > self.interval.to {
            return Err(DrawFault::Overflow(self.interval.to));
        }
        if number > self.interval.level {
            return Err(DrawFault::Empty);
        }
        self.next = number + 1;
        Ok(number)
    }

    /// Gives back the numbers that the session has drawn, where the interval belongs to it. A number that was handed
    /// out from memory never comes back.
    pub fn give_back(&mut self, session: Name)
        ensures { self.new ≡ draw.given_back session self.old }
    {
        if is_held_by(&self.holder, &session) {
            self.release();
        }
    }

    /// Counts the numbers that the session has drawn as used, where the interval belongs to it.
    pub fn settle(&mut self, session: Name)
        ensures { self.new ≡ draw.settled session self.old }
    {
        if is_held_by(&self.holder, &session) {
            let drawn = self.release();
            self.interval.level += drawn;
        }
    }

    /// Takes over a level that was recorded.
    pub fn set_level(&mut self, level: u64)
        requires { draw.IsLevelOf self.old level }
        ensures { self.new ≡ draw.leveled level self.old }
    {
        self.interval.level = level;
    }

    /// Leaves the interval to all sessions, and answers how many numbers were drawn.
    fn release(&mut self) -> u64
        ensures drawn { result ≡ self.old.drawn }
        ensures released { self.new ≡ draw.released self.old }
    {
        let drawn = self.drawn;
        self.holder = None;
        self.drawn = 0;
        drawn
    }
}

fn is_held_by(holder: &Option<Name>, session: &Name) -> bool
    ensures { result ≡ draw.is_held_by session.now holder.now }
{
    match holder {
        None => false,
        Some(holder) => holder.bytes() == session.bytes(),
    }
}
