// `get_supertype_with_options` of supertype.rs, on flat types.
#![tactic(auto)]

pub mod node;

ghost use Rattle.std.specs.Prelude.{◌≡◌, false, length};
ghost use Rattle.flat.specs.Reading.{reading, RootFits};
ghost use Rattle.flat.specs.Output.{fitting_found, WritesFound};
ghost use Rattle.supertype_answer.specs.Join.{result_of, joining, joining_roots};
ghost use Rattle.supertype.specs.Pair.{pair_checked, root_supertype, supertype_of};

use dtype::kind::is_nested;
use flat::error::Error;
use flat::{Flat, Node};
use node::node_supertype;
use supertype_answer::put;

// Whether two kinds may be joined: refusal 6.
#[tactic(auto, unfolding(crate::specs::Pair::pair_checked))]
fn check_pair(left: u8, right: u8) -> Result<(), Error>
    ensures { result ≡ pair_checked left right }
{
    if is_nested(left) || is_nested(right) {
        return Err(Error::Nested);
    }
    Ok(())
}

// What is found for the roots of two types: the refusal of the left, of the right, 6, or the rule. Behind a call of its
// own the answer within the answer is copied in pieces, and a join takes half as long again.
#[inline(always)]
pub fn join_roots(
    to_string: bool,
    left: Result<Node, Error>,
    right: Result<Node, Error>,
) -> Result<Option<Node>, Error>
    requires { RootFits left × RootFits right }
    ensures { result_of result ≡ joining_roots (root_supertype false to_string) left right }
{
    let l = left?;
    let r = right?;
    check_pair(l.kind, r.kind)?;
    Ok(node_supertype(to_string, l, r))
}

// The type that two columns get when they are joined, to the front of out_kinds and out_args: refusals 1 to 5 of the
// left type, of the right, 6, then 8.
pub fn get_supertype_with_options(
    left_kinds: &[u8],
    left_args: &[u64],
    right_kinds: &[u8],
    right_args: &[u64],
    allow_implode_list: bool,
    allow_primitive_to_string: bool,
    out_kinds: &mut [u8],
    out_args: &mut [u64],
) -> Result<Option<usize>, Error>
    ensures { let left = reading Flat.MAX_NODES Flat.MAX_DEPTH left_kinds.now left_args.now in
        let right = reading Flat.MAX_NODES Flat.MAX_DEPTH right_kinds.now right_args.now in
        let found = joining (supertype_of allow_implode_list allow_primitive_to_string) left right in
        let ks = out_kinds.old in
        let xs = out_args.old in
        let fitted = fitting_found (length ks) (length xs) found in
        WritesFound fitted ks xs out_kinds.new out_args.new result }
{
    let left = flat::check_root(left_kinds, left_args);
    let right = flat::check_root(right_kinds, right_args);
    put(
        join_roots(allow_primitive_to_string, left, right),
        out_kinds,
        out_args,
    )
}
