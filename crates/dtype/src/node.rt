// Equality of two nodes, which is that of two types without children.
ghost use Rattle.std.specs.Prelude.{◌≡◌};
ghost use Rattle.dtype.specs.Equality.{equal_node};

use crate::kind::is_unknown_int;
use flat::Node;

// Whether two nodes are equal: `Unknown(Int(_))` are, whatever they hold.
#[tactic(auto, unfolding(crate::specs::Equality::equal_node))]
pub fn equal_node(l: Node, r: Node) -> bool
    ensures { result ≡ equal_node l.kind l.arg r.kind r.arg }
{
    l == r || (is_unknown_int(l.kind) && is_unknown_int(r.kind))
}
