ghost use Rattle.std.specs.Prelude.{◌≡◌, ◌++◌};
ghost use Rattle.gauges.specs.Boards.{seen, IsReaderOf};
ghost use Rattle.turn_tests.specs.Drawing.{CanDraw, Drew};

use enq_base::Readings;
use gauges::{GaugePass, Gauges};
use number_stock::{Stock, StockSeat};
use std::alloc::Global;

/// What a thread drew and saw, with what it drew and looked by.
#[derive(Drop)]
pub struct Drawn {
    pub seat: StockSeat,
    pub pass: GaugePass,
    pub numbers: Vec<u64>,
    pub readings: Vec<Readings>,
}

/// Draws numbers and looks at the gauges after each, until there are enough, the stock is dry, or memory runs out.
pub fn draw_and_look(
    stock: &Stock,
    gauges: &Gauges,
    tokens: (StockSeat, GaugePass),
    alloc: Global,
    count: u32,
) -> Drawn
    requires can { CanDraw stock.now gauges.now count tokens }
    ensures drew { Drew stock.now tokens.0 result.seat result.numbers.items }
    ensures looks { IsReaderOf gauges.now result.pass }
    ensures seen { seen result.pass ≡ seen tokens.1 ++ result.readings.items }
{
    let (mut seat, mut pass) = tokens;
    let mut numbers = Vec::new(alloc);
    let mut readings = Vec::new(alloc);
    for _ in 0..count {
        if numbers.reserve(1).is_err() || readings.reserve(1).is_err() {
            break;
        }
        let Ok(drawn) = stock.draw(&mut seat) else {
            break;
        };
        numbers.push_reserved(drawn.number());
        readings.push_reserved(gauges.look(&mut pass));
    }
    Drawn {
        seat,
        pass,
        numbers,
        readings,
    }
}
