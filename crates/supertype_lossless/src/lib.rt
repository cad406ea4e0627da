// `get_numeric_upcast_supertype_lossless` of supertype.rs, on flat types.
#![tactic(auto)]

pub mod upcast;

ghost use Rattle.std.specs.Prelude.{◌≡◌, length};
ghost use Rattle.flat.specs.Reading.{reading};
ghost use Rattle.flat.specs.Output.{fitting_found, WritesFound};
ghost use Rattle.supertype_answer.specs.Join.{result_of, joining, joining_roots};
ghost use Rattle.supertype_lossless.specs.Lossless.{root_upcast, lossless_of};

use flat::error::Error;
use flat::{Flat, Node};
use supertype_answer::put;
use upcast::upcast_kinds;

// What is found for the roots of two types: the refusal of the left, of the right, or the upcast by their kinds.
pub fn upcast_roots(
    left: Result<Node, Error>,
    right: Result<Node, Error>,
) -> Result<Option<Node>, Error>
    ensures { result_of result ≡ joining_roots root_upcast left right }
{
    let l = left?;
    let r = right?;
    Ok(upcast_kinds(l.kind, r.kind).map(|kind| Node { kind, arg: 0 }))
}

// The smallest numeric type that keeps every number of both, where there is one and the two differ, to the front of
// out_kinds and out_args: refusals 1 to 5 of the left type, of the right, then 8.
pub fn get_numeric_upcast_supertype_lossless(
    left_kinds: &[u8],
    left_args: &[u64],
    right_kinds: &[u8],
    right_args: &[u64],
    out_kinds: &mut [u8],
    out_args: &mut [u64],
) -> Result<Option<usize>, Error>
    ensures { let left = reading Flat.MAX_NODES Flat.MAX_DEPTH left_kinds.now left_args.now in
        let right = reading Flat.MAX_NODES Flat.MAX_DEPTH right_kinds.now right_args.now in
        let found = joining lossless_of left right in
        let ks = out_kinds.old in
        let xs = out_args.old in
        let fitted = fitting_found (length ks) (length xs) found in
        WritesFound fitted ks xs out_kinds.new out_args.new result }
{
    let left = flat::check_root(left_kinds, left_args);
    let right = flat::check_root(right_kinds, right_args);
    put(upcast_roots(left, right), out_kinds, out_args)
}
