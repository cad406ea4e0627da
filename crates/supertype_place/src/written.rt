// The nodes that a join writes, one after the other.
ghost use Rattle.std.specs.Prelude.{◌≡◌, [], ◌∷◌, ◌++◌, ◌<◌, ◌≤◌, length, map, take, drop, slice_set};
ghost use Rattle.flat.specs.Kind.{Struct};
ghost use Rattle.flat.specs.Tree.{size};
ghost use Rattle.supertype_answer.specs.Join.{node};
ghost use Rattle.supertype_place.specs.Written.{nodes_at, nodes_of, FitsIn, held_at, HeldAt};
ghost use Rattle.supertype_place.specs.Viewed.{viewed};

use crate::view::FlatType;
use arrayvec::ArrayVec;
use flat::Node;
use flat::kind::Kind;
use std::marker::Model;

// As many nodes as the two largest types have together: no step on the way has more.
pub const ROOM: usize = 1024;

// The kinds and the arguments of nodes.
#[derive(Drop)]
pub struct NodesIn<const N: usize> {
    kinds: ArrayVec<u8, N>,
    args: ArrayVec<u64, N>,
}

// Nodes of a step on the way.
pub type Nodes = NodesIn<ROOM>;

impl<const N: usize> Model for NodesIn<N> {
    ghost use Rattle.std.specs.Prelude.{◌≡◌, List, length};
    ghost use Rattle.flat.specs.declared.Node.{Node};

    ghost Value = { List Node };

    ghost use Rattle.supertype_place.specs.Written.{nodes_at};

    ghost view = { λ n. nodes_at n.kinds.items n.args.items };

    ghost invariant = { λ n. length n.kinds.items ≡ length n.args.items };
}

impl<const N: usize> NodesIn<N> {
    pub fn new() -> NodesIn<N>
        ensures { result ≡ [] }
    {
        NodesIn {
            kinds: ArrayVec::new(),
            args: ArrayVec::new(),
        }
    }

    // How many there are.
    pub fn len(&self) -> usize
        ensures { result ≡ length self.now }
    {
        self.kinds.len()
    }

    // Their kinds.
    pub fn kinds(&self) -> &[u8]
        ensures { result.now ≡ map (λ n. n.kind) self.now }
    {
        self.kinds.as_slice()
    }

    // Their arguments.
    pub fn args(&self) -> &[u64]
        ensures { result.now ≡ map (λ n. n.arg) self.now }
    {
        self.args.as_slice()
    }

    // One node more.
    pub fn push(&mut self, node: Node)
        requires { FitsIn N 1 self.old }
        ensures { self.new ≡ self.old ++ node ∷ [] }
    {
        self.kinds.push(node.kind);
        self.args.push(node.arg);
    }

    // The nodes that two arrays of one length have, whether they are a type or not.
    pub fn extend_from_slices(&mut self, kinds: &[u8], args: &[u64])
        requires even { length kinds.now ≡ length args.now }
        requires room { FitsIn N (length kinds.now) self.old }
        ensures { self.new ≡ self.old ++ nodes_at kinds.now args.now }
    {
        self.kinds.try_extend_from_slice(kinds).unwrap();
        self.args.try_extend_from_slice(args).unwrap();
    }

    // The nodes of a type.
    pub fn extend(&mut self, dtype: FlatType)
        requires { FitsIn N (size (viewed dtype)) self.old }
        ensures { self.new ≡ self.old ++ nodes_of (viewed dtype.entry) }
    {
        let n = dtype.nodes();
        self.extend_from_slices(&dtype.kinds[..n], &dtype.args[..n]);
    }

    // The first n nodes alone.
    pub fn truncate(&mut self, n: usize)
        ensures { self.new ≡ take n self.old }
    {
        self.kinds.truncate(n);
        self.args.truncate(n);
    }

    // The nodes from the mark on, taken away.
    pub fn split_off(&mut self, mark: usize) -> NodesIn<N>
        requires { mark ≤ length self.old }
        ensures rest { result ≡ drop mark self.old }
        ensures kept { self.new ≡ take mark self.old }
    {
        let mut kinds = ArrayVec::new();
        let mut args = ArrayVec::new();
        kinds
            .try_extend_from_slice(&self.kinds.as_slice()[mark..])
            .unwrap();
        args.try_extend_from_slice(&self.args.as_slice()[mark..])
            .unwrap();
        self.truncate(mark);
        NodesIn { kinds, args }
    }

    // The number of fields of the Struct whose node stands at the mark.
    pub fn close(&mut self, mark: usize, names: u64)
        requires { mark < length self.old }
        ensures { self.new ≡ slice_set self.old mark (node Struct names) }
    {
        self.kinds.as_mut_slice()[mark] = Kind::STRUCT;
        self.args.as_mut_slice()[mark] = names;
    }
}

impl NodesIn<ROOM> {
    // The type that stands from the mark on.
    pub fn held(&self, mark: usize) -> FlatType<'_>
        requires { HeldAt mark self.now }
        ensures { viewed result ≡ held_at mark self.now }
    {
        FlatType {
            kinds: &self.kinds.as_slice()[mark..],
            args: &self.args.as_slice()[mark..],
        }
    }
}
