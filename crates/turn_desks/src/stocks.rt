ghost use Rattle.std.specs.Prelude.{◌≡◌, ◌≤◌};
ghost use Rattle.number_stock.specs.Seats.{base_of};

use number_ranges::Interval;
use number_stock::Stock;

/// Numbers of an interval with a buffer that sessions share.
#[derive(Drop)]
pub struct IntervalStock {
    pub interval: Interval,
    /// The number of the first ticket.
    pub base: u64,
    pub stock: Stock,
    ghost based: { base ≡ base_of stock },
    ghost some: { 1 ≤ base },
}
