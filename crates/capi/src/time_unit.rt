// Units of time, by their numbers.
ghost use Rattle.std.specs.Prelude.{◌≡◌};
ghost use Rattle.dtype.specs.TimeUnit.{unit_of};
ghost use Rattle.dtype.specs.TimeUnits.{coarser_of};
ghost use Rattle.capi.specs.Reply.{unit_reply};

use flat::reply::Reply;

// The coarser of two units.
#[unsafe(no_mangle)]
pub extern "C" fn lz_get_time_units(left: u8, right: u8) -> Reply
    ensures { result ≡ unit_reply (coarser_of (unit_of left) (unit_of right)) }
{
    Reply::from(dtype::time_units::coarser_unit(left, right))
}
