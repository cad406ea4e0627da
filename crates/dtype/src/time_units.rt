// `get_time_units` of utils/mod.rs: the coarser of two units of time.
ghost use Rattle.std.specs.Prelude.{◌≡◌};
ghost use Rattle.dtype.specs.TimeUnit.{unit_of};
ghost use Rattle.dtype.specs.TimeUnits.{get_time_units, coarser_of};

use crate::time_unit::TimeUnit;
use flat::error::Error;

// The source's three arms.
#[tactic(auto, unfolding(crate::specs::TimeUnits::get_time_units))]
pub fn get_time_units(tu_l: TimeUnit, tu_r: TimeUnit) -> TimeUnit
    ensures { result ≡ get_time_units tu_l tu_r }
{
    match (tu_l, tu_r) {
        (TimeUnit::Nanoseconds, TimeUnit::Microseconds) => TimeUnit::Microseconds,
        (_, TimeUnit::Milliseconds) => TimeUnit::Milliseconds,
        _ => tu_l,
    }
}

// The coarser of two units by their numbers.
pub fn coarser_unit(left: u8, right: u8) -> Result<TimeUnit, Error>
    ensures { result ≡ coarser_of (unit_of left) (unit_of right) }
{
    let tu_l = TimeUnit::try_from(left)?;
    let tu_r = TimeUnit::try_from(right)?;
    Ok(get_time_units(tu_l, tu_r))
}
