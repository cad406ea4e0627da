// The walk over two types at once. A type hands its fields to a walk over fields, which hands each field's type back.
ghost use Rattle.std.specs.Prelude.{◌≡◌};
ghost use Rattle.flat.specs.Tree.{size};
ghost use Rattle.flat.specs.Walk.{Valid, ValidRun, type_at, run_at};
ghost use Rattle.dtype_cast.specs.Walk.{cast_answer, fields_answer};

use crate::roots::before_nested;
use flat::Node;
use flat::kind::Kind;

// Why a walk stops: the cast makes no sense, or the source is not sure.
#[derive(Clone, Copy, Debug, PartialEq, Eq)]
pub enum NotYes {
    No,
    NoVerdict,
}

// The number of nodes of the type at the front. It and the walk take the two slices: a FlatType asks also that the
// arguments fit, which the callers of checked_cast are not asked.
fn nodes(kinds: &[u8], args: &[u64]) -> usize
    requires { Valid kinds.now args.now }
    ensures { result ≡ size (type_at kinds.now args.now) }
{
    if kinds[0] < Kind::LIST {
        return 1;
    }
    // no type is deeper than it has nodes
    flat::span::node_span(kinds, args, kinds.len()).unwrap_or(0)
}

// The types at the front of the arrays: a yes is told with the number of nodes of either type, so that a walk over
// fields can move on. Equality is tested of leaves only: equal nested types have yes from their arms.
// Of two Structs, that the first has no field comes before their numbers of fields.
#[cycle(field_cast_node_cast)]
pub fn node_cast(
    from_kinds: &[u8],
    from_args: &[u64],
    to_kinds: &[u8],
    to_args: &[u64],
) -> Result<(usize, usize), NotYes>
    requires from_valid { Valid from_kinds.now from_args.now }
    requires to_valid { Valid to_kinds.now to_args.now }
    ensures { let from = type_at from_kinds.now from_args.now in
        let to = type_at to_kinds.now to_args.now in
        result ≡ cast_answer from to }
{
    let from = Node {
        kind: from_kinds[0],
        arg: from_args[0],
    };
    let to = Node {
        kind: to_kinds[0],
        arg: to_args[0],
    };
    match before_nested(from, to) {
        Some(true) => return Ok((1, nodes(to_kinds, to_args))),
        Some(false) => return Err(NotYes::No),
        None => {}
    }
    if from.kind != to.kind {
        return Err(NotYes::NoVerdict);
    }
    let ks = &from_kinds[1..];
    let xs = &from_args[1..];
    let ls = &to_kinds[1..];
    let ys = &to_args[1..];
    let (n, m) = match from.kind {
        Kind::NULL..=Kind::UNKNOWN_INT_NEG => return Err(NotYes::NoVerdict),
        Kind::STRUCT => {
            if from.arg == 0 {
                return Ok((1, nodes(to_kinds, to_args)));
            }
            if from.arg != to.arg {
                return Err(NotYes::No);
            }
            field_cast(ks, xs, ls, ys, from.arg)?
        }
        _ => {
            // Arrays of unequal width; the argument of a List is 0
            if to.arg != from.arg {
                return Err(NotYes::No);
            }
            node_cast(ks, xs, ls, ys)?
        }
    };
    Ok((1 + n, 1 + m))
}

// The given number of fields at the front of the arrays, left to right: the first no or no verdict decides. Names don't
// count. The walk of a field's type tells where the next field stands. With an iterator of fields, which finds a type's
// end before it is walked, 20 fields took 1000 ns in place of 465, and a nest of 15 Structs 4908 ns in place of 952.
#[cycle(field_cast_node_cast)]
fn field_cast(
    from_kinds: &[u8],
    from_args: &[u64],
    to_kinds: &[u8],
    to_args: &[u64],
    count: u64,
) -> Result<(usize, usize), NotYes>
    requires valid_run { ValidRun count from_kinds.now from_args.now }
    requires valid_run_2 { ValidRun count to_kinds.now to_args.now }
    ensures { let from = run_at count from_kinds.now from_args.now in
        let to = run_at count to_kinds.now to_args.now in
        result ≡ fields_answer from to }
{
    let mut i = 0;
    let mut j = 0;
    for _ in 0..count {
        let from = i + 1;
        let to = j + 1;
        let answer = node_cast(
            &from_kinds[from..],
            &from_args[from..],
            &to_kinds[to..],
            &to_args[to..],
        );
        let (n, m) = match answer {
            Ok(sizes) => sizes,
            Err(no) => return Err(no),
        };
        i = from + n;
        j = to + m;
    }
    Ok((i, j))
}
