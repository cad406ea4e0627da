// The rows of the other kinds; a range from Null on stands for the row's own kind, which nothing is below.
ghost use Rattle.std.specs.Bool.{then_some};
ghost use Rattle.std.specs.Prelude.{◌≡◌, ◌≤◌};
ghost use Rattle.flat.specs.Kind.{Null, String, UnknownAny, Decimal, Binary, Time};
ghost use Rattle.supertype_arms.specs.Rule.{rule_of, Apart, Settles};

use crate::plan::Plan;
use flat::kind::Kind;

// String where primitives may become strings.
pub fn string_if(to_string: bool) -> Option<Plan>
    ensures { result ≡ then_some to_string (Plan.Kind String) }
{
    to_string.then_some(Plan::Kind(Kind::STRING))
}

// Null with String meets the String arm first.
pub fn null_row(b: u8) -> Option<Plan>
    requires { Apart Null b }
    ensures { Settles Null b result }
{
    if b == Kind::STRING {
        Some(Plan::Kind(Kind::STRING))
    } else {
        Some(Plan::Right)
    }
}

pub fn decimal_row(to_string: bool, b: u8) -> Option<Plan>
    requires { Apart Decimal b }
    ensures { result ≡ rule_of to_string Decimal b }
{
    match b {
        Kind::NULL..=Kind::DECIMAL => Some(Plan::Decimals),
        Kind::STRING => string_if(to_string),
        Kind::BINARY..=Kind::TIME => None,
        Kind::UNKNOWN_ANY..=Kind::UNKNOWN_STR => Some(Plan::Kind(Kind::UNKNOWN_ANY)),
        Kind::UNKNOWN_FLOAT => Some(Plan::Kind(Kind::FLOAT64)),
        _ => Some(Plan::DynDecimal),
    }
}

pub fn string_row(to_string: bool, b: u8) -> Option<Plan>
    requires { Apart String b }
    ensures { result ≡ rule_of to_string String b }
{
    match b {
        Kind::NULL..=Kind::BINARY => Some(Plan::Kind(Kind::BINARY)),
        Kind::BINARY_OFFSET => Some(Plan::Kind(Kind::STRING)),
        Kind::DATE..=Kind::TIME => string_if(to_string),
        Kind::UNKNOWN_ANY => Some(Plan::Kind(Kind::UNKNOWN_ANY)),
        Kind::UNKNOWN_STR => Some(Plan::Left),
        // dyn float or a dyn int
        _ => to_string.then_some(Plan::Left),
    }
}

// Binary, BinaryOffset, Date, Datetime, Duration or Time.
pub fn other_row(to_string: bool, a: u8, b: u8) -> Option<Plan>
    requires { Apart a b × (Binary ≤ a) × (a ≤ Time) }
    ensures { result ≡ rule_of to_string a b }
{
    match (a, b) {
        (Kind::DATE, Kind::DATETIME) => Some(Plan::Right),
        (Kind::DATE, Kind::DURATION) => Some(Plan::Kind(Kind::DATE)),
        (Kind::DATETIME, Kind::DATETIME) => Some(Plan::Datetimes),
        (Kind::DATETIME, Kind::DURATION) => Some(Plan::DatetimeDuration),
        (Kind::DURATION, Kind::DURATION) => Some(Plan::Durations),
        (_, Kind::NULL..=Kind::TIME) => None,
        _ => Some(Plan::Kind(Kind::UNKNOWN_ANY)),
    }
}

// Any, str, dyn float or a dyn int.
pub fn unknown_row(to_string: bool, a: u8, b: u8) -> Option<Plan>
    requires { Apart a b × (UnknownAny ≤ a) }
    ensures { result ≡ rule_of to_string a b }
{
    match a {
        Kind::NULL..=Kind::UNKNOWN_ANY => Some(Plan::Kind(Kind::UNKNOWN_ANY)),
        Kind::UNKNOWN_STR if !to_string => Some(Plan::Kind(Kind::UNKNOWN_ANY)),
        _ => Some(Plan::Left),
    }
}
