// The walk over a type that builds it anew: each leaf by the rule of the form, every other node as it is.
ghost use Rattle.flat.specs.Tree.{size, sizes};
ghost use Rattle.flat.specs.Walk.{Valid, type_at, ValidRun, run_at};
ghost use Rattle.dtype_build.specs.Leaf.{leaf_with, map_leaves, map_fields, HasRoom, BuiltType, BuiltFields};

use crate::leaf::{Form, put_leaf};
use flat::Node;
use flat::kind::Kind;

// Builds the type at the front of kinds and args, in the form F, at the front of out_kinds and out_args, and
// returns its number of nodes.
#[cycle(field_form_node_form)]
pub fn node_form<F: Form>(
    kinds: &[u8],
    args: &[u64],
    out_kinds: &mut [u8],
    out_args: &mut [u64],
) -> usize
    requires valid { Valid kinds.now args.now }
    requires has_room { HasRoom (size (type_at kinds.now args.now)) out_kinds.old out_args.old }
    ensures { let built = map_leaves (leaf_with F.kind_in) (type_at kinds.now args.now) in
        let K = out_kinds.old in
        let A = out_args.old in
        let K' = out_kinds.new in
        let A' = out_args.new in
        BuiltType built K A K' A' result }
{
    let node = Node {
        kind: kinds[0],
        arg: args[0],
    };
    if node.kind < Kind::LIST {
        put_leaf::<F>(node, out_kinds, out_args);
        return 1;
    }
    out_kinds[0] = node.kind;
    out_args[0] = node.arg;
    let ks = &kinds[1..];
    let xs = &args[1..];
    if node.kind == Kind::STRUCT {
        let n = field_form::<F>(ks, xs, node.arg, &mut out_kinds[1..], &mut out_args[1..]);
        return n + 1;
    }
    let n = node_form::<F>(ks, xs, &mut out_kinds[1..], &mut out_args[1..]);
    n + 1
}

// Builds the given number of fields at the front of kinds and args, in the form F, at the front of out_kinds and
// out_args, and returns their number of nodes. One place is where a field is read and where it is written, and the walk
// of its type tells the next; an iterator of fields would find each type's end before it is walked.
#[cycle(field_form_node_form)]
fn field_form<F: Form>(
    kinds: &[u8],
    args: &[u64],
    count: u64,
    out_kinds: &mut [u8],
    out_args: &mut [u64],
) -> usize
    requires valid_run { ValidRun count kinds.now args.now }
    requires has_room { HasRoom (sizes (run_at count kinds.now args.now)) out_kinds.old out_args.old }
    ensures { let built = map_fields (leaf_with F.kind_in) (run_at count kinds.now args.now) in
        let K = out_kinds.old in
        let A = out_args.old in
        let K' = out_kinds.new in
        let A' = out_args.new in
        BuiltFields built K A K' A' result }
{
    let mut at = 0;
    for _ in 0..count {
        out_kinds[at] = Kind::FIELD;
        out_args[at] = args[at];
        let next = at + 1;
        let n = node_form::<F>(
            &kinds[next..],
            &args[next..],
            &mut out_kinds[next..],
            &mut out_args[next..],
        );
        at = next + n;
    }
    at
}
