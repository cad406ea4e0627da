// The rows of Boolean, the integers and the floats, 1 to 14.
ghost use Rattle.std.specs.Prelude.{◌≡◌, ◌≤◌, Some};
ghost use Rattle.flat.specs.Kind.{Boolean, UInt8, UInt128, Int8, Int128, Float16, Float64, Date, Time};
ghost use Rattle.flat.specs.Kind.{UnknownFloat, UnknownIntNeg};
ghost use Rattle.supertype_arms.specs.Rule.{rule_of, Apart, Settles, IsSupertype};

use crate::plan::Plan;
use crate::row::string_if;
use flat::kind::Kind;

// An unsigned integer type with a signed one. Six above UInt8 to UInt32 stands the signed type of twice the width.
fn mixed(a: u8, b: u8) -> u8
    requires { (UInt8 ≤ a) × (a ≤ UInt128) × (Int8 ≤ b) × (b ≤ Int128) }
    ensures { Settles a b (Some (Plan.Kind result)) }
{
    match a {
        Kind::UINT8..=Kind::UINT32 => b.max(a + 6),
        Kind::UINT64 if b < Kind::INT128 => Kind::FLOAT64,
        _ => Kind::INT128,
    }
}

// Boolean, an integer or a float with a float.
fn to_float(a: u8, b: u8) -> u8
    requires { Apart a b × (Boolean ≤ a) × (Float16 ≤ b) × (b ≤ Float64) }
    ensures { Settles a b (Some (Plan.Kind result)) }
{
    match a {
        Kind::UINT16 | Kind::INT16 => b.max(Kind::FLOAT32),
        Kind::UINT32..=Kind::UINT128 | Kind::INT32..=Kind::INT128 => Kind::FLOAT64,
        _ => b,
    }
}

// Two of Boolean, the integers and the floats.
pub fn numeric(a: u8, b: u8) -> u8
    requires { Apart a b × (Boolean ≤ a) × (b ≤ Float64) }
    ensures { Settles a b (Some (Plan.Kind result)) }
{
    match (a, b) {
        (_, Kind::FLOAT16..=Kind::FLOAT64) => to_float(a, b),
        (Kind::UINT8..=Kind::UINT128, Kind::INT8..=Kind::INT128) => mixed(a, b),
        (_, _) => b,
    }
}

// The kind of the supertype of two of Boolean, the integers and the floats, in either order.
pub fn numeric_supertype(a: u8, b: u8) -> u8
    requires { (Boolean ≤ a) × (a ≤ Float64) × (Boolean ≤ b) × (b ≤ Float64) }
    ensures { IsSupertype a b result }
{
    if a == b {
        return a;
    }
    numeric(a.min(b), a.max(b))
}

// Boolean, an integer or a float with Date, Datetime, Duration or Time.
fn timed(a: u8, b: u8) -> Option<Plan>
    requires { (Boolean ≤ a) × (a ≤ Float64) × (Date ≤ b) × (b ≤ Time) }
    ensures { Settles a b result }
{
    match (a, b) {
        (Kind::UINT32..=Kind::UINT64, Kind::DATE..=Kind::DURATION) => Some(Plan::Kind(Kind::INT64)),
        (Kind::INT32, Kind::DATE) => Some(Plan::Kind(Kind::INT32)),
        (Kind::INT32..=Kind::INT64, _) => Some(Plan::Kind(Kind::INT64)),
        (Kind::FLOAT16..=Kind::FLOAT32, Kind::DATE) => Some(Plan::Kind(Kind::FLOAT32)),
        (Kind::FLOAT16..=Kind::FLOAT64, _) => Some(Plan::Kind(Kind::FLOAT64)),
        _ => None,
    }
}

// Boolean, an integer or a float with dyn float or a dyn int.
fn dynamic(a: u8, b: u8) -> Option<Plan>
    requires { (Boolean ≤ a) × (a ≤ Float64) × (UnknownFloat ≤ b) × (b ≤ UnknownIntNeg) }
    ensures { Settles a b result }
{
    match (a, b) {
        (Kind::FLOAT16..=Kind::FLOAT64, _) => Some(Plan::Left),
        (Kind::BOOLEAN, Kind::UNKNOWN_FLOAT) => Some(Plan::Kind(Kind::UNKNOWN_ANY)),
        (_, Kind::UNKNOWN_FLOAT) => Some(Plan::Kind(Kind::FLOAT64)),
        (Kind::BOOLEAN, _) => Some(Plan::DynBoolean),
        (Kind::INT128, _) => Some(Plan::Kind(Kind::INT128)),
        _ => Some(Plan::DynNumber),
    }
}

// Boolean, an integer or a float with any kind that is not below it.
pub fn number_row(to_string: bool, a: u8, b: u8) -> Option<Plan>
    requires { Apart a b × (Boolean ≤ a) × (a ≤ Float64) }
    ensures { result ≡ rule_of to_string a b }
{
    match b {
        Kind::NULL..=Kind::FLOAT64 => Some(Plan::Kind(numeric(a, b))),
        Kind::DECIMAL => match a {
            Kind::NULL..=Kind::BOOLEAN => None,
            Kind::UINT8..=Kind::INT128 => Some(Plan::DecimalInteger),
            _ => Some(Plan::Kind(Kind::FLOAT64)),
        },
        Kind::STRING => string_if(to_string),
        Kind::BINARY..=Kind::BINARY_OFFSET => None,
        Kind::DATE..=Kind::TIME => timed(a, b),
        Kind::UNKNOWN_ANY..=Kind::UNKNOWN_STR => Some(Plan::Kind(Kind::UNKNOWN_ANY)),
        _ => dynamic(a, b),
    }
}
