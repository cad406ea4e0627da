// What an arm answers, and the arm of two kinds.
ghost use Rattle.std.specs.Prelude.{◌≡◌};
ghost use Rattle.supertype_arms.specs.Rule.{rule_of, Apart};

use crate::number::number_row;
use crate::row;
use flat::kind::Kind;

// What an arm answers for two types: one of them, a type of a kind without an argument, or one made of their arguments.
#[derive(Clone, Copy)]
pub enum Plan {
    Left,
    Right,
    Kind(u8),
    Decimals,
    DecimalInteger,
    DatetimeDuration,
    Datetimes,
    Durations,
    DynNumber,
    DynBoolean,
    DynDecimal,
}

// The plan of two kinds in ascending order: none where the source answers None.
pub fn planned(to_string: bool, a: u8, b: u8) -> Option<Plan>
    requires { Apart a b }
    ensures { result ≡ rule_of to_string a b }
{
    match a {
        Kind::NULL => row::null_row(b),
        Kind::BOOLEAN..=Kind::FLOAT64 => number_row(to_string, a, b),
        Kind::DECIMAL => row::decimal_row(to_string, b),
        Kind::STRING => row::string_row(to_string, b),
        Kind::BINARY..=Kind::TIME => row::other_row(to_string, a, b),
        _ => row::unknown_row(to_string, a, b),
    }
}
