// What the roots of two types decide of their supertype: the arms of `get_supertype_with_options`, its two tries in one
// step.
#![tactic(auto)]

ghost use Rattle.std.specs.Prelude.{◌≡◌, true, ◌&&◌, ◌≤◌, ◌<◌};
ghost use Rattle.flat.specs.Kind.{Null, String, List, Struct};
ghost use Rattle.supertype_arms.specs.Node.{fits};
ghost use Rattle.supertype_arms.specs.Supertype.{is};
ghost use Rattle.supertype_step.specs.Decided.{options_of, NodeFits, DecidedBy};
ghost use Rattle.supertype_step.specs.Sides.{StepBeside, StructBeside, DecidedBefore};

use dtype::kind::is_primitive_numeric;
use flat::Node;
use flat::kind::Kind;
use supertype::node::{node_supertype, plain};

// `SuperTypeOptions`: the flags of a call.
#[derive(Clone, Copy, Debug, Default, PartialEq, Eq)]
pub struct Options {
    pub allow_implode_list: bool,
    pub allow_primitive_to_string: bool,
}

// One of the two types of a call.
#[derive(Clone, Copy, Debug, PartialEq, Eq)]
pub enum Side {
    Left,
    Right,
}

// One step of a supertype.
#[derive(Clone, Copy, Debug, PartialEq, Eq)]
pub enum Step {
    // one node
    Node(Node),
    // that type
    Whole(Side),
    // the node over the join of both inner types
    Under(Node),
    // a List of that one's inner type with the other type
    Within(Side),
    // the same of the right one, with String where there is none
    StringWithin,
    // that one's first field with the other type
    First(Side),
    // each field of that one with the other type
    Each(Side),
    // the fields of both
    Fields,
}

// Whether a type is a List that takes in the other one.
fn takes_in(implode: bool, kind: u8) -> bool
    ensures { result ≡ (is List kind && implode) }
{
    kind == Kind::LIST && implode
}

// A Struct on one side, with a leaf that is neither String nor Null.
fn struct_beside(side: Side, count: u64, leaf: u8) -> Option<Step>
    requires { (leaf < List) × (leaf ≡ String → ⊥) × (leaf ≡ Null → ⊥) }
    ensures { StructBeside side count leaf result }
{
    let known = leaf < Kind::UNKNOWN_ANY;
    match is_primitive_numeric(leaf) {
        true if known => Some(Step::Each(side)),
        true if count == 0 => None,
        true => Some(Step::First(side)),
        false if known => None,
        false => Some(Step::Node(plain(Kind::UNKNOWN_ANY))),
    }
}

// A nested type on one side, with a leaf.
fn beside(side: Side, implode: bool, n: Node, leaf: u8) -> Option<Step>
    requires { (List ≤ n.kind) × (n.kind ≤ Struct) × (leaf < List) }
    ensures { StepBeside side implode n.kind n.arg leaf result }
{
    match leaf {
        Kind::STRING => Some(Step::Node(plain(Kind::STRING))),
        Kind::NULL => Some(Step::Whole(side)),
        _ if n.kind == Kind::STRUCT => struct_beside(side, n.arg, leaf),
        _ if takes_in(implode, n.kind) => Some(Step::Within(side)),
        _ if leaf < Kind::UNKNOWN_ANY => None,
        _ => Some(Step::Node(plain(Kind::UNKNOWN_ANY))),
    }
}

// A leaf with a nested type on the right: as on the left, but that String tries a List first.
fn before(o: Options, leaf: u8, n: Node) -> Option<Step>
    requires { (leaf < List) × (List ≤ n.kind) × (n.kind ≤ Struct) }
    ensures { DecidedBefore (options_of o) leaf n.kind n.arg result }
{
    match leaf {
        Kind::STRING if takes_in(o.allow_implode_list, n.kind) => Some(Step::StringWithin),
        _ => beside(Side::Right, o.allow_implode_list, n, leaf),
    }
}

// Two nested types.
fn both(o: Options, l: Node, r: Node) -> Option<Step>
    requires { (List ≤ l.kind) × (l.kind ≤ Struct) × (List ≤ r.kind) × (r.kind ≤ Struct) }
    ensures { DecidedBy (options_of o) l.kind l.arg r.kind r.arg result }
{
    let implode = o.allow_implode_list;
    match (l.kind == Kind::STRUCT, r.kind == Kind::STRUCT) {
        (true, true) => Some(Step::Fields),
        (true, false) => takes_in(implode, r.kind).then_some(Step::Within(Side::Right)),
        (false, true) => takes_in(implode, l.kind).then_some(Step::Within(Side::Left)),
        (false, false) if l.kind == Kind::ARRAY && l == r => Some(Step::Under(l)),
        (false, false) => Some(Step::Under(plain(Kind::LIST))),
    }
}

// Two leaves.
fn leaves(o: Options, l: Node, r: Node) -> Option<Step>
    requires { (fits l ≡ true) × (fits r ≡ true) }
    ensures { DecidedBy (options_of o) l.kind l.arg r.kind r.arg result }
{
    node_supertype(o.allow_primitive_to_string, l, r).map(Step::Node)
}

// The step that the roots of two types decide, None where the source answers None.
pub fn decide(o: Options, l: Node, r: Node) -> Option<Step>
    requires { NodeFits l.kind l.arg × NodeFits r.kind r.arg }
    ensures { DecidedBy (options_of o) l.kind l.arg r.kind r.arg result }
{
    match (l.kind < Kind::LIST, r.kind < Kind::LIST) {
        (true, true) => leaves(o, l, r),
        (true, false) => before(o, l.kind, r),
        (false, true) => beside(Side::Left, o.allow_implode_list, l, r.kind),
        (false, false) => both(o, l, r),
    }
}
