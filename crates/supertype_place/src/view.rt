// A type, and the fields of a Struct, as parts of two arrays: how they are read there.
ghost use Rattle.std.specs.Prelude.{◌≡◌, true};
ghost use Rattle.supertype_place.specs.View.{type_stands, run_stands};

use dtype_eq::nodes::starts_with;
use flat::Node;
use flat::kind::Kind;
use flat::span::node_span;

// A type at the front of two arrays.
#[derive(Clone, Copy)]
pub struct FlatType<'a> {
    pub kinds: &'a [u8],
    pub args: &'a [u64],
    pub ghost stands: { type_stands kinds.now args.now ≡ true },
}

// The fields of a Struct at the front of two arrays.
#[derive(Clone, Copy)]
pub struct FlatFields<'a> {
    pub kinds: &'a [u8],
    pub args: &'a [u64],
    pub left: u64,
    pub ghost stand: { run_stands left kinds.now args.now ≡ true },
}

// One of them.
#[derive(Clone, Copy)]
pub struct FlatField<'a> {
    pub name: u64,
    pub dtype: FlatType<'a>,
}

// A field's type, and the fields behind it.
#[derive(Clone, Copy)]
pub struct Found<'a> {
    pub dtype: FlatType<'a>,
    pub rest: FlatFields<'a>,
}

impl<'a> FlatType<'a> {
    ghost use Rattle.std.specs.Prelude.{◌≤◌, Some};
    ghost use Rattle.flat.specs.Kind.{List, Array, Struct};
    ghost use Rattle.flat.specs.Tree.{size, struct, head_kind, head_arg};
    ghost use Rattle.dtype.specs.Equality.{equal};
    ghost use Rattle.dtype_inner.specs.Inner.{inner_dtype};
    ghost use Rattle.supertype_answer.specs.Join.{node};
    ghost use Rattle.supertype_place.specs.Viewed.{viewed, viewed_run};

    // Its root: a kind and an argument.
    pub fn root(self) -> Node
        ensures { let t = viewed self.entry in result ≡ node (head_kind t) (head_arg t) }
    {
        Node {
            kind: self.kinds[0],
            arg: self.args[0],
        }
    }

    // How many nodes it has.
    pub fn nodes(self) -> usize
        ensures { result ≡ size (viewed self.entry) }
    {
        if self.kinds[0] < Kind::LIST {
            return 1;
        }
        // no type is deeper than its nodes are many
        node_span(self.kinds, self.args, self.kinds.len()).unwrap()
    }

    // The type under a List or an Array.
    pub fn inner(self) -> FlatType<'a>
        requires { let k = head_kind (viewed self) in (List ≤ k) × (k ≤ Array) }
        ensures { inner_dtype (viewed self.entry) ≡ Some (viewed result) }
    {
        FlatType {
            kinds: &self.kinds[1..],
            args: &self.args[1..],
        }
    }

    // The fields of a Struct.
    pub fn fields(self) -> FlatFields<'a>
        requires { head_kind (viewed self) ≡ Struct }
        ensures { viewed self.entry ≡ struct (viewed_run result) }
    {
        FlatFields {
            kinds: &self.kinds[1..],
            args: &self.args[1..],
            left: self.args[0],
        }
    }

    // `==` of two types.
    pub fn same(self, other: FlatType) -> bool
        ensures { result ≡ equal (viewed self.entry) (viewed other.entry) }
    {
        let n = other.nodes();
        starts_with(self.kinds, self.args, &other.kinds[..n], &other.args[..n])
    }
}

impl<'a> Iterator for FlatFields<'a> {
    ghost use Rattle.std.specs.Iterator.{at_most};
    ghost use Rattle.supertype_place.specs.Viewed.{GivesField};

    type Item = FlatField<'a>;

    ghost next_gives = { GivesField };

    ghost remaining = { λ fs. at_most fs.left };

    fn next(&mut self) -> Option<FlatField<'a>> {
        let field = self.first()?;
        *self = self.behind(field);
        Some(field)
    }
}

impl<'a> FlatFields<'a> {
    ghost use Rattle.std.specs.Prelude.{◌-◌, ◌<◌, ◌≤◌, []};
    ghost use Rattle.supertype_nested.specs.Step.{in_place};
    ghost use Rattle.supertype_nested.specs.Union.{last_or, seen, with_names};
    ghost use Rattle.supertype_place.specs.Viewed.{viewed, viewed_run, FirstAt, FirstIn, Gives};
    ghost use Rattle.supertype_place.specs.Viewed.{FoundFrom, FoundIn, front_of};

    // The first field. The end of its type is not looked for.
    pub fn first(self) -> Option<FlatField<'a>>
        ensures { FirstIn self.entry result }
    {
        if self.left == 0 {
            return None;
        }
        Some(FlatField {
            name: self.args[0],
            dtype: FlatType {
                kinds: &self.kinds[1..],
                args: &self.args[1..],
            },
        })
    }

    // The fields behind the first one.
    pub fn behind(self, first: FlatField<'a>) -> FlatFields<'a>
        requires { FirstAt self first }
        ensures { Gives self.entry first.entry result }
    {
        let n = first.dtype.nodes();
        FlatFields {
            kinds: &first.dtype.kinds[n..],
            args: &first.dtype.args[n..],
            left: self.left - 1,
        }
    }

    // The first n fields.
    pub fn front(self, n: u64) -> FlatFields<'a>
        requires { n ≤ self.left }
        ensures { viewed_run result ≡ front_of n (viewed_run self.entry) }
    {
        FlatFields {
            kinds: self.kinds,
            args: self.args,
            left: n,
        }
    }

    // The fields before the one that has `rest` behind it.
    pub fn up_to(self, rest: FlatFields) -> FlatFields<'a>
        requires { rest.left < self.left }
        ensures { viewed_run result ≡ front_of (self.entry.left - rest.entry.left - 1) (viewed_run self.entry) }
    {
        self.front(self.left - rest.left - 1)
    }

    // The fields from the first of the name on. The end of that field's type is not looked for.
    pub fn from_first(self, name: u64) -> Option<FlatFields<'a>>
        ensures { FoundFrom name (viewed_run self.entry) result }
    {
        let mut rest = self;
        while let Some(field) = rest.first() {
            if field.name == name {
                return Some(rest);
            }
            rest = rest.behind(field);
        }
        None
    }

    // The first field of the name.
    pub fn first_of(self, name: u64) -> Option<Found<'a>>
        ensures { FoundIn name (viewed_run self.entry) result }
    {
        let mut rest = self.from_first(name)?;
        let dtype = rest.next()?.dtype;
        Some(Found { dtype, rest })
    }

    // Whether a field has the name.
    pub fn has(self, name: u64) -> bool
        ensures { result ≡ seen (with_names (viewed_run self.entry) []) name }
    {
        self.from_first(name).is_some()
    }

    // The last type of the name: that of a field, else the held one.
    pub fn last_of(self, name: u64, held: FlatType<'a>) -> FlatType<'a>
        ensures { viewed result ≡ last_or name (viewed held.entry) (viewed_run self.entry) }
    {
        let mut last = held;
        for field in self {
            if field.name == name {
                last = field.dtype;
            }
        }
        last
    }

    // Whether the names of both are the same at each place.
    pub fn in_place(self, other: FlatFields) -> bool
        ensures { result ≡ in_place (viewed_run self.entry) (viewed_run other.entry) }
    {
        let mut l = self;
        let mut r = other;
        // by `first`: where two names differ, the ends of their types are not looked for
        while let Some(a) = l.first() {
            let Some(b) = r.first() else {
                return true;
            };
            if a.name != b.name {
                return false;
            }
            l = l.behind(a);
            r = r.behind(b);
        }
        true
    }
}
