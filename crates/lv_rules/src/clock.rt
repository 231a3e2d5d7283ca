// The clock of the top.
ghost use Rattle.std.specs.Prelude.{◌≡◌, ◌&&◌, bytes_eq};
ghost use Rattle.lv_source.specs.Names.{is_clock_sort};
ghost use Rattle.lv_source.specs.Views.{lists_clock};
ghost use Rattle.lv_flat.specs.Signals.{declared_all, sort_of};

use crate::ways;
use lv_bits::Text;
use lv_flat::Signal;

fn is_clock_at(signal: &Signal, path: &Text) -> bool
    ensures { result ≡ (is_clock_sort (sort_of signal.now.sort) && bytes_eq signal.now.path path.now) }
{
    ways::is_clock(signal.sort) && signal.path.bytes() == path.bytes()
}

/// Whether the list has a clock of this path; ClockUse is told of the top where it has none of the top's clock.
pub fn has_clock(signals: &[Signal], path: &Text) -> bool
    ensures { result ≡ lists_clock path.now (declared_all signals.now) }
{
    for s in signals {
        if is_clock_at(s, path) {
            return true;
        }
    }
    false
}
