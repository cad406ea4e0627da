// Inner and leaf types as parts of the caller's own arrays, and the shape of an Array: dtype.rs.
#![tactic(auto)]

pub mod reply;

ghost use Rattle.std.specs.Prelude.{◌≡◌, ◌≤◌, ◌-◌, length, drop};
ghost use Rattle.std.specs.Prelude.{Some};
ghost use Rattle.std.specs.Mem.{type_size};
ghost use Rattle.flat.specs.Reading.{reading};
ghost use Rattle.dtype_inner.specs.Inner.{inner_dtype, leaf_dtype, array_leaf_dtype};
ghost use Rattle.dtype_inner.specs.Nodes.{inner_nodes, leaf_nodes, array_leaf_nodes};
ghost use Rattle.dtype_inner.specs.Part.{found, inner_of, nodes_told, part_kinds, part_args, EndOf};
ghost use Rattle.dtype_inner.specs.Shape.{shape, shape_of, arrays_at, widths_at};

use flat::Flat;
use flat::error::Error;
use flat::kind::Kind;
use flat::span::leading;

// The widths down an Array's consecutive Arrays: how many, and as many places as a type is deep. A part of the caller's
// arguments would do for flat types, but those of an encoded type end with the call.
#[derive(Clone, Copy, Debug, PartialEq, Eq)]
pub struct Shape {
    pub count: usize,
    pub widths: [u64; Flat::MAX_DEPTH],
}

// How many nodes the inner type has, of a type of these kinds.
#[tactic(auto, unfolding(crate::specs::Nodes::inner_nodes, flat::specs::Kind::between))]
pub fn inner_nodes(kinds: &[u8]) -> Option<usize>
    ensures { result ≡ inner_nodes kinds.now }
{
    match kinds {
        [Kind::LIST..=Kind::ARRAY, inner @ ..] => Some(inner.len()),
        _ => None,
    }
}

// How many nodes the leaf type has, under all Lists and Arrays.
#[tactic(auto, unfolding(crate::specs::Nodes::leaf_nodes))]
pub fn leaf_nodes(kinds: &[u8]) -> usize
    ensures { result ≡ leaf_nodes kinds.now }
{
    kinds.len() - leading(kinds, Kind::LIST, Kind::ARRAY)
}

// How many nodes the type under all Arrays has, where the root is an Array.
#[tactic(auto, unfolding(crate::specs::Nodes::array_leaf_nodes))]
pub fn array_leaf_nodes(kinds: &[u8]) -> Option<usize>
    ensures { result ≡ array_leaf_nodes kinds.now }
{
    let arrays = leading(kinds, Kind::ARRAY, Kind::ARRAY);
    (arrays > 0).then(|| kinds.len() - arrays)
}

// The number of nodes that an answer tells; 0 where there are none.
fn nodes_in(answer: Result<Option<usize>, Error>) -> usize
    ensures { result ≡ nodes_told answer }
{
    answer.ok().flatten().unwrap_or(0)
}

// The last n items, a part of the caller's own slice.
fn end_of<T>(items: &[T], n: usize) -> &[T]
    requires { n ≤ length items.now }
    ensures { EndOf (type_size T.row) (drop (length items.now - n) items.now) items.entry result }
{
    &items[items.len() - n..]
}

// The type under a List or an Array. It and the next two answer with the number of nodes; their sister calls, which
// document 01 names, give the part itself.
pub fn inner_dtype(kinds: &[u8], args: &[u64]) -> Result<Option<usize>, Error>
    ensures { result ≡ inner_of inner_dtype (reading Flat.MAX_NODES Flat.MAX_DEPTH kinds.now args.now) }
{
    flat::check(kinds, args)?;
    Ok(inner_nodes(kinds))
}

// The inner type's kinds, a part of `kinds`; empty where there is none.
pub fn inner_dtype_kinds<'a>(kinds: &'a [u8], args: &[u64]) -> &'a [u8]
    ensures { let inner = found inner_dtype (reading Flat.MAX_NODES Flat.MAX_DEPTH kinds.now args.now) in
        EndOf 1 (part_kinds inner) kinds.entry result }
{
    end_of(kinds, nodes_in(inner_dtype(kinds, args)))
}

// The inner type's arguments, a part of `args`; empty where there is none.
pub fn inner_dtype_args<'a>(kinds: &[u8], args: &'a [u64]) -> &'a [u64]
    ensures { let inner = found inner_dtype (reading Flat.MAX_NODES Flat.MAX_DEPTH kinds.now args.now) in
        EndOf 8 (part_args inner) args.entry result }
{
    end_of(args, nodes_in(inner_dtype(kinds, args)))
}

// The type under all Lists and Arrays.
pub fn leaf_dtype(kinds: &[u8], args: &[u64]) -> Result<Option<usize>, Error>
    ensures { result ≡ inner_of (λ t. Some (leaf_dtype t)) (reading Flat.MAX_NODES Flat.MAX_DEPTH kinds.now args.now) }
{
    flat::check(kinds, args)?;
    Ok(Some(leaf_nodes(kinds)))
}

// The leaf type's kinds, a part of `kinds`; empty where the call is refused.
pub fn leaf_dtype_kinds<'a>(kinds: &'a [u8], args: &[u64]) -> &'a [u8]
    ensures { let leaf = found (λ t. Some (leaf_dtype t)) (reading Flat.MAX_NODES Flat.MAX_DEPTH kinds.now args.now) in
        EndOf 1 (part_kinds leaf) kinds.entry result }
{
    end_of(kinds, nodes_in(leaf_dtype(kinds, args)))
}

// The leaf type's arguments, a part of `args`; empty where the call is refused.
pub fn leaf_dtype_args<'a>(kinds: &[u8], args: &'a [u64]) -> &'a [u64]
    ensures { let leaf = found (λ t. Some (leaf_dtype t)) (reading Flat.MAX_NODES Flat.MAX_DEPTH kinds.now args.now) in
        EndOf 8 (part_args leaf) args.entry result }
{
    end_of(args, nodes_in(leaf_dtype(kinds, args)))
}

// The type under an Array's consecutive Arrays.
pub fn array_leaf_dtype(kinds: &[u8], args: &[u64]) -> Result<Option<usize>, Error>
    ensures { result ≡ inner_of array_leaf_dtype (reading Flat.MAX_NODES Flat.MAX_DEPTH kinds.now args.now) }
{
    flat::check(kinds, args)?;
    Ok(array_leaf_nodes(kinds))
}

// The kinds of the type under an Array's consecutive Arrays, a part of `kinds`; empty where there is none.
pub fn array_leaf_dtype_kinds<'a>(kinds: &'a [u8], args: &[u64]) -> &'a [u8]
    ensures { let leaf = found array_leaf_dtype (reading Flat.MAX_NODES Flat.MAX_DEPTH kinds.now args.now) in
        EndOf 1 (part_kinds leaf) kinds.entry result }
{
    end_of(kinds, nodes_in(array_leaf_dtype(kinds, args)))
}

// The arguments of the type under an Array's consecutive Arrays, a part of `args`; empty where there is none.
pub fn array_leaf_dtype_args<'a>(kinds: &[u8], args: &'a [u64]) -> &'a [u64]
    ensures { let leaf = found array_leaf_dtype (reading Flat.MAX_NODES Flat.MAX_DEPTH kinds.now args.now) in
        EndOf 8 (part_args leaf) args.entry result }
{
    end_of(args, nodes_in(array_leaf_dtype(kinds, args)))
}

// The shape of a type whose two arrays these are: the widths of the Arrays at the front.
#[tactic(auto, unfolding(crate::specs::Shape::padded))]
pub fn array_shape(kinds: &[u8], args: &[u64]) -> Shape
    requires { (length kinds.now ≡ length args.now) × (arrays_at kinds.now ≤ Flat.MAX_DEPTH) }
    ensures { result ≡ shape Flat.MAX_DEPTH (widths_at kinds.now args.now) }
{
    let count = leading(kinds, Kind::ARRAY, Kind::ARRAY);
    let mut widths = [0; Flat::MAX_DEPTH];
    widths[..count].copy_from_slice(&args[..count]);
    Shape { count, widths }
}

// The widths down an Array's consecutive Arrays.
pub fn get_shape(kinds: &[u8], args: &[u64]) -> Result<Shape, Error>
    ensures { result ≡ shape_of Flat.MAX_DEPTH (reading Flat.MAX_NODES Flat.MAX_DEPTH kinds.now args.now) }
{
    flat::check(kinds, args)?;
    Ok(array_shape(kinds, args))
}
