// The calls of dtype.rs on two encoded types. Each type is checked once, and its arguments are read to an array that is
// lent for them.
#![tactic(auto)]

ghost use Rattle.std.specs.Prelude.{◌≡◌, ◌≤◌, ◌&&◌, leb, length};
ghost use Rattle.flat.specs.Tree.{DataType};
ghost use Rattle.flat.specs.Walk.{type_at};
ghost use Rattle.encoded.specs.Encoding.{encoded_size};
ghost use Rattle.encoded.specs.Limits.{decoded};
ghost use Rattle.dtype.specs.Equality.{equal};
ghost use Rattle.dtype.specs.Answer.{answers_of};
ghost use Rattle.dtype_eq.specs.Contains.{contains_dtype_recursive};
ghost use Rattle.dtype_cast.specs.Cast.{can_cast_to};
ghost use Rattle.dtype_cast.specs.Verdict.{cast_of};
ghost use Rattle.encoded_pair.specs.Asked.{RoomForBoth, asked_of};

use dtype_cast::checked_cast;
use dtype_cast::scan::node_yes;
use dtype_eq::nodes;
use encoded::{Encoding, Opened};
use flat::error::Error;
use flat::{Flat, Node};

// What is asked of two types.
trait Question {
    type Answer;

    // What it says of them.
    ghost says: { DataType → DataType → Self.Answer };

    // The answer on two types that were opened.
    fn answer(left: Opened<'_>, right: Opened<'_>) -> Self::Answer
        ensures { let first = type_at left.entry.kinds.now left.entry.args.now in
            let second = type_at right.entry.kinds.now right.entry.args.now in
            result ≡ says first second };
}

// Whether they are equal.
struct Equals {}

impl Question for Equals {
    type Answer = bool;

    ghost says = { equal };

    fn answer(left: Opened<'_>, right: Opened<'_>) -> bool {
        nodes::starts_with(left.kinds, left.args, right.kinds, right.args)
    }
}

// Whether the left one contains the right one.
struct Contains {}

impl Question for Contains {
    type Answer = bool;

    ghost says = { contains_dtype_recursive };

    fn answer(left: Opened<'_>, right: Opened<'_>) -> bool {
        nodes::occurs(left.kinds, left.args, right.kinds, right.args)
    }
}

// Whether the left one casts to the right one: none where the source is not sure.
struct CastsTo {}

impl Question for CastsTo {
    type Answer = Option<bool>;

    ghost says = { can_cast_to };

    fn answer(left: Opened<'_>, right: Opened<'_>) -> Option<bool> {
        checked_cast(left.kinds, left.args, right.kinds, right.args)
    }
}

// The answer to a question on two encoded types, with arrays of its own for at most N arguments each.
fn ask_in<Q: Question, const N: usize>(left: &[u8], right: &[u8]) -> Result<Q::Answer, Error>
    requires { RoomForBoth N left.now right.now × (N ≤ Flat.MAX_NODES) }
    ensures { result ≡ asked_of Q.says (decoded left.now) (decoded right.now) }
{
    let mut left_args = [0u64; N];
    let first = encoded::open(left, &mut left_args)?;
    let mut right_args = [0u64; N];
    let second = encoded::open(right, &mut right_args)?;
    Ok(Q::answer(first, second))
}

// Whether both are so short that small arrays have room for their arguments. Their lengths alone tell it: so short a
// test is compiled into `ask`, and `ask` into its callers.
fn both_short(left: &[u8], right: &[u8]) -> bool
    ensures { let most = encoded_size Encoding.ARGUMENT_BYTES Encoding.FEW in
        result ≡ (leb (length left.now) most && leb (length right.now) most) }
{
    let most = 2 + (Encoding::ARGUMENT_BYTES + 1) * Encoding::FEW;
    left.len() <= most && right.len() <= most
}

// The answer to a question on two encoded types: refusals 1 to 5 of the left type, then of the right.
fn ask<Q: Question>(left: &[u8], right: &[u8]) -> Result<Q::Answer, Error>
    ensures { result ≡ asked_of Q.says (decoded left.now) (decoded right.now) }
{
    if both_short(left, right) {
        return ask_in::<Q, { Encoding::FEW }>(left, right);
    }
    ask_in::<Q, { Flat::MAX_NODES }>(left, right)
}

// Whether two types are equal. `Unknown(Int(_))` are, whatever they hold; field names count.
pub fn equal(left: &[u8], right: &[u8]) -> Result<bool, Error>
    ensures { result ≡ answers_of equal (decoded left.now) (decoded right.now) }
{
    // equal bytes are one type, and one check tells of both
    if left == right {
        return match encoded::check(left) {
            Ok(()) => Ok(true),
            Err(e) => Err(e),
        };
    }
    ask::<Equals>(left, right)
}

// Whether the left type is the right one, or a type under it is.
pub fn contains_dtype_recursive(left: &[u8], right: &[u8]) -> Result<bool, Error>
    ensures { result ≡ answers_of contains_dtype_recursive (decoded left.now) (decoded right.now) }
{
    ask::<Contains>(left, right)
}

// Whether the cast from the left type to the right one makes sense; None where the source is not sure.
pub fn can_cast_to(left: &[u8], right: &[u8]) -> Result<Option<bool>, Error>
    ensures { result ≡ cast_of (decoded left.now) (decoded right.now) }
{
    // two plain leaves that say yes
    if encoded::is_plain(left) && encoded::is_plain(right) {
        let from = Node {
            kind: left[2],
            arg: 0,
        };
        let to = Node {
            kind: right[2],
            arg: 0,
        };
        if node_yes(from, to) {
            return Ok(Some(true));
        }
    }
    ask::<CastsTo>(left, right)
}
