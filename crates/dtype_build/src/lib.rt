// Types that are built anew: `materialize_unknown` and `to_physical` of dtype.rs.
#![tactic(auto)]

pub mod leaf;
pub mod walk;

ghost use Rattle.std.specs.Prelude.{◌≡◌, not, ◌&&◌, length};
ghost use Rattle.flat.specs.Tree.{size};
ghost use Rattle.flat.specs.Walk.{Valid, type_at};
ghost use Rattle.flat.specs.Reading.{type, reading};
ghost use Rattle.flat.specs.Output.{fitting, Writes};
ghost use Rattle.dtype_build.specs.Build.{materialized, physical};
ghost use Rattle.dtype_build.specs.Leaf.{leaf_with, map_leaves, has_any};

use dtype::scan;
use flat::error::Error;
use flat::kind::Kind;
use flat::{Flat, Node};
use leaf::{Form, Materialized, Physical};

// Builds a type that was checked, in the form F, at the front of out_kinds and out_args: refusal 8 alone.
fn build<F: Form>(
    kinds: &[u8],
    args: &[u64],
    out_kinds: &mut [u8],
    out_args: &mut [u64],
) -> Result<usize, Error>
    requires { Valid kinds.now args.now × (size (type_at kinds.now args.now) ≡ length kinds.now) }
    ensures { let built = map_leaves (leaf_with F.kind_in) (type_at kinds.now args.now) in
        let K = out_kinds.old in
        let A = out_args.old in
        let K' = out_kinds.new in
        let A' = out_args.new in
        Writes (fitting (length K) (length A) (type built)) K A K' A' result }
{
    if out_kinds.len() < kinds.len() || out_args.len() < kinds.len() {
        return Err(Error::OutputTooShort);
    }
    // a leaf needs no walk
    if kinds[0] < Kind::LIST {
        let old = Node {
            kind: kinds[0],
            arg: args[0],
        };
        leaf::put_leaf::<F>(old, out_kinds, out_args);
        return Ok(1);
    }
    let n = walk::node_form::<F>(kinds, args, out_kinds, out_args);
    Ok(n)
}

// Whether the unknown type any stands in a type and is not allowed.
pub fn any_refused(kinds: &[u8], allow_unknown: bool) -> bool
    ensures { result ≡ (has_any kinds.now && not allow_unknown) }
{
    !allow_unknown && scan::any(kinds, |k| k == Kind::UNKNOWN_ANY)
}

// Writes the type with each unknown type made known to the front of out_kinds and out_args: refusals 1 to 5, 7, then 8.
pub fn materialize_unknown(
    kinds: &[u8],
    args: &[u64],
    allow_unknown: bool,
    out_kinds: &mut [u8],
    out_args: &mut [u64],
) -> Result<usize, Error>
    ensures { let known = materialized allow_unknown (reading Flat.MAX_NODES Flat.MAX_DEPTH kinds.now args.now) in
        let K = out_kinds.old in
        let A = out_args.old in
        let K' = out_kinds.new in
        let A' = out_args.new in
        Writes (fitting (length K) (length A) known) K A K' A' result }
{
    flat::check(kinds, args)?;
    if any_refused(kinds, allow_unknown) {
        return Err(Error::Unknown);
    }
    build::<Materialized>(kinds, args, out_kinds, out_args)
}

// Writes the type's physical form to the front of out_kinds and out_args: refusals 1 to 5, then 8.
pub fn to_physical(
    kinds: &[u8],
    args: &[u64],
    out_kinds: &mut [u8],
    out_args: &mut [u64],
) -> Result<usize, Error>
    ensures { let form = physical (reading Flat.MAX_NODES Flat.MAX_DEPTH kinds.now args.now) in
        let K = out_kinds.old in
        let A = out_args.old in
        let K' = out_kinds.new in
        let A' = out_args.new in
        Writes (fitting (length K) (length A) form) K A K' A' result }
{
    flat::check(kinds, args)?;
    build::<Physical>(kinds, args, out_kinds, out_args)
}
