// The parts of a type that its last nodes are.
ghost use Rattle.std.specs.Prelude.{Option, Some};
ghost use Rattle.flat.specs.Tree.{DataType};
ghost use Rattle.dtype_inner.specs.Inner.{inner_dtype, leaf_dtype, array_leaf_dtype};
ghost use Rattle.encoded_dtype.specs.Parts.{TellsPart};

// A part that a type may have.
pub trait Part {
    ghost part: { DataType → Option DataType };

    // How many nodes it has, of a type of these kinds.
    fn nodes(kinds: &[u8]) -> Option<usize>
        ensures { TellsPart part kinds.now result };
}

// The type under a List or an Array.
#[derive(Clone, Copy)]
pub struct Inner {}

impl Part for Inner {
    ghost part = { inner_dtype };

    fn nodes(kinds: &[u8]) -> Option<usize> {
        dtype_inner::inner_nodes(kinds)
    }
}

// The type under all Lists and Arrays.
#[derive(Clone, Copy)]
pub struct Leaf {}

impl Part for Leaf {
    ghost part = { λ t. Some (leaf_dtype t) };

    fn nodes(kinds: &[u8]) -> Option<usize> {
        Some(dtype_inner::leaf_nodes(kinds))
    }
}

// The type under an Array's consecutive Arrays.
#[derive(Clone, Copy)]
pub struct ArrayLeaf {}

impl Part for ArrayLeaf {
    ghost part = { array_leaf_dtype };

    fn nodes(kinds: &[u8]) -> Option<usize> {
        dtype_inner::array_leaf_nodes(kinds)
    }
}
