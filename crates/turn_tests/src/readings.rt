ghost use Rattle.std.specs.Prelude.{◌≡◌, ◌+◌, ◌<◌, ◌^◌};

use enq_base::Readings;

/// Readings whose numbers all tell which publish they are of.
pub fn readings_of(past: u64) -> Readings
    requires { past + 3 < 2 ^ 64 }
    ensures { result.past ≡ past }
{
    Readings {
        past,
        waiting: past + 1,
        posted: past + 2,
        locks: past + 3,
        condition: 0,
    }
}
