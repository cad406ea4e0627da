// The rule of each kind's argument.
ghost use Rattle.std.specs.Prelude.{◌≡◌, ◌<◌, ◌+◌, ◌*◌, ◌/◌, ◌%◌, ◌^◌};
ghost use Rattle.flat.specs.Argument.{argument_fits, decimal_fits, datetime_fits, plain_leaf};

use crate::kind::Kind;

// Units of time: 0 ns, 1 µs, 2 ms.
const TIME_UNITS: u64 = 3;

// The most digits of a Decimal.
pub const DEC128_MAX_PREC: u64 = 38;

// The parts of a Decimal's argument, 256 × scale + precision.
#[derive(Clone, Copy, Debug, PartialEq, Eq)]
pub struct DecimalArg {
    pub precision: u64,
    pub scale: u64,
    ghost precision_within: { precision < 256 },
    ghost scale_within: { scale < 2 ^ 56 },
}

impl From<u64> for DecimalArg {
    ghost from_gives = { λ arg parts. (parts.precision ≡ arg % 256) × (parts.scale ≡ arg / 256) };

    fn from(arg: u64) -> DecimalArg {
        DecimalArg {
            precision: arg % 256,
            scale: arg / 256,
        }
    }
}

impl From<DecimalArg> for u64 {
    ghost from_gives = { λ parts arg. arg ≡ 256 * parts.scale + parts.precision };

    fn from(parts: DecimalArg) -> u64 {
        256 * parts.scale + parts.precision
    }
}

// The parts of a Datetime's argument, 4 × zone + unit.
#[derive(Clone, Copy, Debug, PartialEq, Eq)]
pub struct DatetimeArg {
    pub unit: u64,
    pub zone: u64,
    ghost unit_within: { unit < 4 },
    ghost zone_within: { zone < 2 ^ 62 },
}

impl From<u64> for DatetimeArg {
    ghost from_gives = { λ arg parts. (parts.unit ≡ arg % 4) × (parts.zone ≡ arg / 4) };

    fn from(arg: u64) -> DatetimeArg {
        DatetimeArg {
            unit: arg % 4,
            zone: arg / 4,
        }
    }
}

impl From<DatetimeArg> for u64 {
    ghost from_gives = { λ parts arg. arg ≡ 4 * parts.zone + parts.unit };

    fn from(parts: DatetimeArg) -> u64 {
        4 * parts.zone + parts.unit
    }
}

#[tactic(auto, unfolding(crate::specs::Argument::decimal_fits))]
fn decimal_fits(arg: u64) -> bool
    ensures { result ≡ decimal_fits arg }
{
    let parts = DecimalArg::from(arg);
    1 <= parts.precision && parts.precision <= DEC128_MAX_PREC && parts.scale <= parts.precision
}

#[tactic(auto, unfolding(crate::specs::Argument::datetime_fits))]
fn datetime_fits(arg: u64) -> bool
    ensures { result ≡ datetime_fits arg }
{
    let parts = DatetimeArg::from(arg);
    parts.unit < TIME_UNITS && parts.zone < 0x1_0000_0000
}

// Whether arg is an argument of a node of this kind.
pub fn argument_fits(kind: u8, arg: u64) -> bool
    ensures { result ≡ argument_fits kind arg }
{
    match kind {
        Kind::NULL..=Kind::FLOAT64 => arg == 0,
        Kind::DECIMAL => decimal_fits(arg),
        Kind::STRING..=Kind::DATE => arg == 0,
        Kind::DATETIME => datetime_fits(arg),
        Kind::DURATION => arg < TIME_UNITS,
        Kind::TIME..=Kind::UNKNOWN_FLOAT => arg == 0,
        Kind::UNKNOWN_INT_POS..=Kind::UNKNOWN_INT_NEG => true,
        Kind::LIST => arg == 0,
        Kind::ARRAY => true,
        Kind::STRUCT => arg < 256,
        Kind::FIELD => arg < 0x1_0000_0000,
        _ => false,
    }
}

// Whether one node is a leaf whose argument is 0, as most leaves are.
#[tactic(auto, unfolding(crate::specs::Argument::plain_leaf))]
pub fn is_plain(kind: u8, arg: u64) -> bool
    ensures { result ≡ plain_leaf kind arg }
{
    arg == 0 && kind != Kind::DECIMAL && kind < Kind::LIST
}
