ghost use Rattle.std.specs.Prelude.{◌≡◌, ◌≤◌, ◌<◌, ◌↔◌, IfSome, IsNone};
ghost use Rattle.number_ranges.specs.Intervals.{IsInterval, IsBlockLevel, block_level, code_of};

use crate::interval::{Code, Interval};

/// Whether a number is the last of its interval, or the rest is within the percentage.
pub fn code(interval: &Interval, n: u64) -> Code
    requires interval { IsInterval interval.now }
    requires low { interval.now.from ≤ n }
    requires high { n ≤ interval.now.to }
    ensures { result ≡ code_of interval.now n }
{
    let left = u128::from(interval.to - n);
    let size = u128::from(interval.to - interval.from + 1);
    if n == interval.to {
        Code::Last
    } else if left * 100 <= u128::from(interval.percent) * size {
        Code::Critical
    } else {
        Code::Blank
    }
}

/// The level that reserves the numbers up to this one, in whole blocks. None comes past the end of the interval.
pub fn next_block(interval: &Interval, upto: u64) -> Option<u64>
    requires interval { IsInterval interval.now }
    requires buffered { 0 < interval.now.buffer }
    ensures value { IfSome result (λ level. level ≡ block_level interval.now upto) }
    ensures risen { IfSome result (λ level. interval.now.level ≤ level) }
    ensures within { IfSome result (λ level. level ≤ interval.now.to) }
    ensures least { IfSome result (IsBlockLevel interval.now upto) }
    ensures none { IsNone result ↔ (interval.now.to < upto) }
{
    if upto > interval.to {
        return None;
    }
    if upto <= interval.level {
        return Some(interval.level);
    }
    let block = u64::from(interval.buffer);
    let blocks = (upto - interval.level).div_ceil(block);
    Some(interval.to.min(interval.level + block * blocks))
}
