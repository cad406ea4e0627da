// What becomes of a leaf in each form that a type is built in.
ghost use Rattle.std.specs.Prelude.{◌≡◌, ℕ};
ghost use Rattle.flat.specs.Tree.{leaf, head_kind};
ghost use Rattle.dtype.specs.Physical.{physical_kind};
ghost use Rattle.dtype_build.specs.Leaf.{materialized_leaf, physical_in, materialized_in, leaf_with};
ghost use Rattle.dtype_build.specs.Leaf.{HasRoom, BuiltType};

use flat::Node;
use flat::kind::Kind;
use supertype_numbers::dyn_int::materialize_dyn_int;

// A form that a type is built in, told by the kind that each leaf has in it.
pub trait Form {
    ghost kind_in: { ℕ → ℕ → ℕ };

    fn kind(leaf: Node) -> u8
        ensures { result ≡ kind_in leaf.kind leaf.arg };
}

// The form that `to_physical` builds.
#[derive(Clone, Copy)]
pub struct Physical {}

impl Form for Physical {
    ghost kind_in = { physical_in };

    fn kind(leaf: Node) -> u8 {
        physical_kind(leaf.kind)
    }
}

// The form that `materialize_unknown` builds.
#[derive(Clone, Copy)]
pub struct Materialized {}

impl Form for Materialized {
    ghost kind_in = { materialized_in };

    fn kind(leaf: Node) -> u8 {
        materialized_kind(leaf)
    }
}

// The kind of a leaf in its physical form.
fn physical_kind(kind: u8) -> u8
    ensures { result ≡ physical_kind kind }
{
    match kind {
        Kind::DECIMAL => Kind::INT128,
        Kind::DATE => Kind::INT32,
        Kind::DATETIME..=Kind::TIME => Kind::INT64,
        _ => kind,
    }
}

// The kind of a leaf once its type is known: of an unknown type that is known, and else its own.
fn materialized_kind(leaf: Node) -> u8
    ensures { result ≡ head_kind (materialized_leaf leaf.kind leaf.arg) }
{
    match leaf.kind {
        Kind::UNKNOWN_STR => Kind::STRING,
        Kind::UNKNOWN_FLOAT => Kind::FLOAT64,
        Kind::UNKNOWN_INT_POS..=Kind::UNKNOWN_INT_NEG => materialize_dyn_int(leaf),
        _ => leaf.kind,
    }
}

// A leaf in the form F: one that keeps its kind keeps its argument, and any other has 0.
#[tactic(auto, unfolding(crate::specs::Leaf::kept_arg))]
fn leaf_in<F: Form>(old: Node) -> Node
    ensures { leaf result.kind result.arg ≡ leaf_with F.kind_in old.kind old.arg }
{
    let kind = F::kind(old);
    let arg = if kind == old.kind { old.arg } else { 0 };
    Node { kind, arg }
}

// Writes a leaf in the form F to the front of out_kinds and out_args.
pub fn put_leaf<F: Form>(old: Node, out_kinds: &mut [u8], out_args: &mut [u64])
    requires { HasRoom 1 out_kinds.old out_args.old }
    ensures { let K = out_kinds.old in
        let A = out_args.old in
        let K' = out_kinds.new in
        let A' = out_args.new in
        BuiltType (leaf_with F.kind_in old.kind old.arg) K A K' A' 1 }
{
    let new = leaf_in::<F>(old);
    out_kinds[0] = new.kind;
    out_args[0] = new.arg;
}
