// Units of time, and their numbers in an argument.
ghost use Rattle.std.specs.Prelude.{◌≡◌};
ghost use Rattle.dtype.specs.TimeUnit.{unit_number, unit_of, to_ascii};

use flat::error::Error;
use flat::reply::Value;

#[derive(Clone, Copy, Debug, PartialEq, Eq)]
pub enum TimeUnit {
    Nanoseconds = 0,
    Microseconds = 1,
    Milliseconds = 2,
}

impl TimeUnit {
    // Its name in two bytes.
    pub fn to_ascii(self) -> [u8; 2]
        ensures { result ≡ to_ascii self }
    {
        match self {
            TimeUnit::Nanoseconds => [b'n', b's'],
            TimeUnit::Microseconds => [b'u', b's'],
            TimeUnit::Milliseconds => [b'm', b's'],
        }
    }
}

// Its number in an argument.
impl From<TimeUnit> for u8 {
    ghost from_gives = { λ unit number. number ≡ unit_number unit };

    fn from(unit: TimeUnit) -> u8 {
        unit as u8
    }
}

// No other number than 0, 1 and 2 is a unit's, which is refusal 3.
impl TryFrom<u8> for TimeUnit {
    type Error = Error;

    ghost try_from_gives = { λ number unit. unit ≡ unit_of number };

    #[tactic(auto, unfolding(crate::specs::TimeUnit::unit_of))]
    fn try_from(number: u8) -> Result<TimeUnit, Error> {
        match number {
            0 => Ok(TimeUnit::Nanoseconds),
            1 => Ok(TimeUnit::Microseconds),
            2 => Ok(TimeUnit::Milliseconds),
            _ => Err(Error::Argument),
        }
    }
}

// A unit by its number.
impl Value for TimeUnit {
    ghost value_of = { unit_number };

    fn value(self) -> u64 {
        u64::from(u8::from(self))
    }
}
