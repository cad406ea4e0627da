// What the roots of two types decide, before the arms of nested types.
ghost use Rattle.std.specs.Prelude.{◌≡◌, ◌&&◌};
ghost use Rattle.dtype.specs.Predicate.{is_primitive_numeric};
ghost use Rattle.dtype_cast.specs.Cast.{casts_with_boolean};
ghost use Rattle.dtype_cast.specs.Walk.{early_of, equal_leaves};

use dtype::kind::is_primitive_numeric;
use dtype::node::equal_node;
use flat::Node;
use flat::kind::Kind;

// Whether two nodes are equal types that are not nested.
#[tactic(auto, unfolding(crate::specs::Walk::equal_leaves))]
fn equal_leaves(from: Node, to: Node) -> bool
    ensures { result ≡ equal_leaves from.kind from.arg to.kind to.arg }
{
    from.kind <= Kind::UNKNOWN_INT_NEG && equal_node(from, to)
}

// Two primitive numeric types.
pub fn both_numeric(from: u8, to: u8) -> bool
    ensures { result ≡ (is_primitive_numeric from && is_primitive_numeric to) }
{
    is_primitive_numeric(from) && is_primitive_numeric(to)
}

// The arm of Boolean: whether it casts to and from a type of this kind.
#[tactic(auto, unfolding(crate::specs::Cast::casts_with_boolean, dtype::specs::Match::among))]
fn casts_with_boolean(kind: u8) -> bool
    ensures { result ≡ casts_with_boolean kind }
{
    is_primitive_numeric(kind) || matches!(kind, Kind::DECIMAL | Kind::STRING | Kind::BINARY)
}

// Equal leaves, two primitive numeric types, Null, then Boolean on either side; None where the roots leave it open.
#[tactic(auto, unfolding(crate::specs::Walk::early_of))]
pub fn before_nested(from: Node, to: Node) -> Option<bool>
    ensures { result ≡ early_of from.kind from.arg to.kind to.arg }
{
    if equal_leaves(from, to) || both_numeric(from.kind, to.kind) || from.kind == Kind::NULL {
        return Some(true);
    }
    match (from.kind, to.kind) {
        (Kind::BOOLEAN, other) => Some(casts_with_boolean(other)),
        (other, Kind::BOOLEAN) => Some(casts_with_boolean(other)),
        _ => None,
    }
}
