ghost use Rattle.std.specs.Prelude.{List, []};
ghost use Rattle.atomic_table.specs.Seated.{TableId};
ghost use Rattle.number_ranges.specs.declared.interval.Interval.{Interval};
ghost use Rattle.turn_desks.specs.Stocks.{StockFact};

use std::marker::Brand;

/// Which lock the desks of a run's actors belong to, which gauges they look at, which intervals its landscape has, and
/// which stocks of numbers there are. One call of a program picks it.
pub trait LockName {
    ghost table: { TableId };

    ghost board: { TableId };

    ghost intervals: { List Interval };

    ghost stocks: { List StockFact };
}

impl LockName for Brand {
    ghost table = { record { words = 0; slots = 0; views_name = 0; atom = 0; block = 0; offset = 0; slot_names = [] } };

    ghost board = { record { words = 0; slots = 0; views_name = 0; atom = 0; block = 0; offset = 0; slot_names = [] } };

    ghost intervals = { [] };

    ghost stocks = { [] };
}
