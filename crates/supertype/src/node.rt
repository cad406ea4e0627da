// The supertype of two types that are not nested, each one node: by the plan of the two kinds in ascending order.
ghost use Rattle.std.specs.Prelude.{◌≡◌, true, false, ◌+◌, ◌*◌, ◌/◌, ◌%◌, ◌≤◌, max, eqb, Some};
ghost use Rattle.flat.specs.Kind.{Boolean, UInt8, Int64};
ghost use Rattle.flat.specs.Kind as kind;
ghost use Rattle.flat.specs.Argument.{dec128_max_prec};
ghost use Rattle.supertype_numbers.specs.Range.{Listed};
ghost use Rattle.supertype_answer.specs.Join.{node};
ghost use Rattle.supertype_arms.specs.Node.{precision, scale, decimal, value, fits};
ghost use Rattle.supertype_arms.specs.Supertype.{beside_integer, smallest_fitting, dyn_number, known_supertype};
ghost use Rattle.supertype_arms.specs.Supertype.{answered};
ghost use Rattle.supertype_arms.specs.Supertype.{supertype};
ghost use Rattle.supertype_arms.specs.Rule.{rule_of, Apart};

use dtype::node::equal_node;
use flat::Node;
use flat::argument::{DEC128_MAX_PREC, DatetimeArg, DecimalArg};
use flat::kind::Kind;
use supertype_arms::number::numeric_supertype;
use supertype_arms::plan::{Plan, planned};
use supertype_numbers::dyn_int::{
    materialize_dyn_int, materialize_dyn_int_pos, materialize_smallest_dyn_int,
};
use supertype_numbers::integer::digits;

// The type of a kind that has no argument.
pub fn plain(kind: u8) -> Node
    ensures { result ≡ node kind 0 }
{
    Node { kind, arg: 0 }
}

// A Decimal with the larger precision and the larger scale.
fn decimals(l: Node, r: Node) -> Node
    ensures { result ≡ decimal (max (precision l) (precision r)) (max (scale l) (scale r)) }
{
    let a = DecimalArg::from(l.arg);
    let b = DecimalArg::from(r.arg);
    let parts = DecimalArg {
        precision: a.precision.max(b.precision),
        scale: a.scale.max(b.scale),
    };
    Node {
        kind: Kind::DECIMAL,
        arg: parts.into(),
    }
}

// A Decimal with the scale of n and the largest precision.
fn widened(n: Node) -> Node
    ensures { result ≡ decimal dec128_max_prec (scale n) }
{
    let parts = DecimalArg {
        precision: DEC128_MAX_PREC,
        scale: DecimalArg::from(n.arg).scale,
    };
    Node {
        kind: Kind::DECIMAL,
        arg: parts.into(),
    }
}

// The Decimal n beside the integer type dt: n where it has room for the digits of dt before its point.
fn beside_integer(n: Node, dt: u8) -> Node
    requires { (n.kind ≡ kind.Decimal) × (fits n ≡ true) × Listed dt }
    ensures { result ≡ beside_integer n dt }
{
    let parts = DecimalArg::from(n.arg);
    if digits(dt) <= parts.precision - parts.scale {
        n
    } else {
        widened(n)
    }
}

// A Datetime with the zone of l, and the larger unit, which is the coarser one.
fn datetime(l: Node, r: Node) -> Node
    ensures { result ≡ node kind.Datetime (4 * (l.arg / 4) + max (l.arg % 4) (r.arg % 4)) }
{
    let a = DatetimeArg::from(l.arg);
    let b = DatetimeArg::from(r.arg);
    let parts = DatetimeArg {
        unit: a.unit.max(b.unit),
        zone: a.zone,
    };
    Node {
        kind: Kind::DATETIME,
        arg: parts.into(),
    }
}

// Whether two Datetimes have the same zone, or none.
fn same_zone(l: Node, r: Node) -> bool
    ensures { result ≡ eqb (l.arg / 4) (r.arg / 4) }
{
    DatetimeArg::from(l.arg).zone == DatetimeArg::from(r.arg).zone
}

// The smallest type for the dyn int v beside the integer type dt.
fn smallest_fitting(dt: u8, v: Node) -> u8
    requires { (UInt8 ≤ dt) × (dt ≤ Int64) }
    ensures { (result ≡ smallest_fitting dt (value v)) × (result ≤ Int64) × (result ≡ Boolean → ⊥) }
{
    if dt <= Kind::UINT128 && v.kind == Kind::UNKNOWN_INT_POS {
        return materialize_dyn_int_pos(v);
    }
    materialize_smallest_dyn_int(v)
}

// The kind of the supertype of an integer type and the dyn int v.
fn dyn_number(dt: u8, v: Node) -> u8
    requires { (UInt8 ≤ dt) × (dt ≤ Int64) }
    ensures { Some (node result 0) ≡ dyn_number known_supertype (node dt 0) (value v) }
{
    match smallest_fitting(dt, v) {
        Kind::NULL => dt, // no type holds the value
        Kind::INT8..=Kind::INT64 if dt == Kind::UINT64 => Kind::INT64, // no float for a literal
        k => numeric_supertype(dt, k),
    }
}

// The supertype of two different types, in the order of their kinds.
fn ordered(to_string: bool, l: Node, r: Node) -> Option<Node>
    requires { (fits l ≡ true) × (fits r ≡ true) × Apart l.kind r.kind }
    ensures { result ≡ answered known_supertype (rule_of to_string l.kind r.kind) l r }
{
    match planned(to_string, l.kind, r.kind)? {
        Plan::Left => Some(l),
        Plan::Right => Some(r),
        Plan::Kind(k) => Some(plain(k)),
        Plan::Decimals => Some(decimals(l, r)),
        Plan::DecimalInteger => Some(beside_integer(r, l.kind)),
        Plan::DatetimeDuration => Some(datetime(l, r)),
        Plan::Datetimes if same_zone(l, r) => Some(datetime(r, l)),
        Plan::Datetimes => None,
        Plan::Durations => Some(Node {
            kind: Kind::DURATION,
            arg: l.arg.max(r.arg),
        }),
        Plan::DynNumber => Some(plain(dyn_number(l.kind, r))),
        Plan::DynBoolean => Some(plain(materialize_dyn_int(r))),
        Plan::DynDecimal => Some(widened(l)),
    }
}

// The supertype of two types that are not nested: the implode flag has no part in it. The rule is symmetric except for
// any with String, and for dyn float or a dyn int with str. Its answers return at once: a `match` whose value they are
// copies them in pieces.
#[inline(always)]
pub fn node_supertype(to_string: bool, l: Node, r: Node) -> Option<Node>
    requires { (fits l ≡ true) × (fits r ≡ true) }
    ensures { result ≡ supertype false to_string l r }
{
    if equal_node(l, r) {
        return Some(l);
    }
    if l.kind <= r.kind {
        return ordered(to_string, l, r);
    }
    match (l.kind, r.kind) {
        (_, Kind::UNKNOWN_STR) => return Some(plain(Kind::UNKNOWN_ANY)),
        (Kind::UNKNOWN_ANY, Kind::STRING) => return Some(plain(Kind::STRING)),
        _ => {}
    }
    ordered(to_string, r, l)
}
