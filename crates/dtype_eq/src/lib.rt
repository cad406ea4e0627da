// Equality of flat types, and whether a type contains another: `PartialEq` and `contains_dtype_recursive` of dtype.rs.
#![tactic(auto)]

pub mod nodes;

ghost use Rattle.std.specs.Prelude.{◌≡◌};
ghost use Rattle.flat.specs.Reading.{reading};
ghost use Rattle.dtype.specs.Equality.{equal};
ghost use Rattle.dtype_eq.specs.Contains.{contains_dtype_recursive};
ghost use Rattle.dtype.specs.Answer.{answers_of};

use dtype::node::equal_node;
use flat::error::Error;
use flat::{Flat, Node};

// Whether two types are equal. `Unknown(Int(_))` are, whatever they hold; field names count.
pub fn equal(
    left_kinds: &[u8],
    left_args: &[u64],
    right_kinds: &[u8],
    right_args: &[u64],
) -> Result<bool, Error>
    ensures { let left = reading Flat.MAX_NODES Flat.MAX_DEPTH left_kinds.now left_args.now in
        let right = reading Flat.MAX_NODES Flat.MAX_DEPTH right_kinds.now right_args.now in
        result ≡ answers_of equal left right }
{
    // two plain leaves are compared at once
    if flat::is_plain(left_kinds, left_args) && flat::is_plain(right_kinds, right_args) {
        let left = Node {
            kind: left_kinds[0],
            arg: 0,
        };
        let right = Node {
            kind: right_kinds[0],
            arg: 0,
        };
        return Ok(equal_node(left, right));
    }
    flat::check(left_kinds, left_args)?;
    // what equals a valid type node by node is a valid type: an unknown int takes any argument
    if nodes::alike(left_kinds, left_args, right_kinds, right_args) {
        return Ok(true);
    }
    flat::check(right_kinds, right_args)?;
    Ok(false)
}

// Whether the left type is the right one, or a type under it is.
pub fn contains_dtype_recursive(
    left_kinds: &[u8],
    left_args: &[u64],
    right_kinds: &[u8],
    right_args: &[u64],
) -> Result<bool, Error>
    ensures { let left = reading Flat.MAX_NODES Flat.MAX_DEPTH left_kinds.now left_args.now in
        let right = reading Flat.MAX_NODES Flat.MAX_DEPTH right_kinds.now right_args.now in
        result ≡ answers_of contains_dtype_recursive left right }
{
    flat::check(left_kinds, left_args)?;
    flat::check(right_kinds, right_args)?;
    Ok(nodes::occurs(left_kinds, left_args, right_kinds, right_args))
}
