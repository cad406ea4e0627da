// The join of two types, whose nodes are written behind those that stand there. o has the flags of a call itself, i
// those of inner calls.
ghost use Rattle.std.specs.Prelude.{◌≡◌, false, [], ◌∷◌, suc, ◌+◌, take, option_map};
ghost use Rattle.flat.specs.Kind.{Field, Struct};
ghost use Rattle.flat.specs.Tree.{size, sizes, struct};
ghost use Rattle.supertype_answer.specs.Join.{node};
ghost use Rattle.supertype_nested.specs.Nested.{supertype_tree, join_held, join_each, zip_fields, union_fields};
ghost use Rattle.supertype_nested.specs.Step.{in_place};
ghost use Rattle.supertype_nested.specs.Union.{named, join_named, old_names, new_names, with_names, outside};
ghost use Rattle.supertype_place.specs.Written.{nodes_of, Fits, HeldAt, held_at};
ghost use Rattle.supertype_place.specs.Viewed.{viewed, viewed_run};
ghost use Rattle.supertype_step.specs.Decided.{options_of, either_fields, at_side};
ghost use Rattle.supertype_walk.specs.Comes.{get_supertype, Joins, Fills, Zipped};

use flat::Node;
use flat::kind::Kind;
use supertype::node::plain;
use supertype_place::names::{Named, SLOTS};
use supertype_place::view::{FlatField, FlatFields, FlatType};
use supertype_place::written::Nodes;
use supertype_step::{Options, Side, Step, decide};

// Why the fields of two Structs have no join one by one: names that differ, or the source's None.
#[derive(Clone, Copy, Debug, PartialEq, Eq)]
pub enum Unzipped {
    Apart,
    Nothing,
}

// The type on that side, and the other one.
fn sided<'a>(side: Side, l: FlatType<'a>, r: FlatType<'a>) -> (FlatType<'a>, FlatType<'a>)
    ensures one { viewed result.0 ≡ at_side side (viewed l.entry) (viewed r.entry) }
    ensures other { viewed result.1 ≡ at_side side (viewed r.entry) (viewed l.entry) }
{
    match side {
        Side::Left => (l, r),
        Side::Right => (r, l),
    }
}

// `get_supertype_with_options` with flags of its own, by what the two roots decide.
#[cycle(joins)]
pub fn join(o: Options, i: Options, l: FlatType, r: FlatType, out: &mut Nodes) -> Option<()>
    requires { Fits (size (viewed l) + size (viewed r)) out.old }
    ensures { let answer = supertype_tree (options_of o) (options_of i) (viewed l.entry) (viewed r.entry) in
        Joins nodes_of answer out.old out.new result }
{
    match decide(o, l.root(), r.root())? {
        Step::Node(n) => {
            out.push(n);
            Some(())
        }
        Step::Whole(side) => {
            out.extend(sided(side, l, r).0);
            Some(())
        }
        Step::Under(n) => under(n, i, l.inner(), r.inner(), out),
        Step::Within(side) => {
            let (list, other) = sided(side, l, r);
            under(plain(Kind::LIST), i, list.inner(), other, out)
        }
        Step::StringWithin => {
            let mark = out.len();
            if under(plain(Kind::LIST), i, r.inner(), l, out).is_none() {
                out.truncate(mark);
                out.push(plain(Kind::STRING));
            }
            Some(())
        }
        Step::First(side) => {
            let (one, other) = sided(side, l, r);
            let first = one.fields().first()?;
            join(i, i, first.dtype, other, out)
        }
        Step::Each(side) => {
            let (one, other) = sided(side, l, r);
            each(i, one.fields(), other, out)
        }
        Step::Fields => fields(i, l.fields(), r.fields(), out),
    }
}

// A node, and below it the join: of a List, of an Array, of a field.
#[cycle(joins)]
fn under(n: Node, i: Options, l: FlatType, r: FlatType, out: &mut Nodes) -> Option<()>
    requires { Fits (suc (size (viewed l) + size (viewed r))) out.old }
    ensures { let answer = get_supertype (options_of i) (viewed l.entry) (viewed r.entry) in
        Joins (λ t. n ∷ nodes_of t) answer out.old out.new result }
{
    out.push(n);
    join(i, i, l, r, out)
}

// The node of a Struct of so many fields.
fn struct_node(names: u64) -> Node
    ensures { result ≡ node Struct names }
{
    Node {
        kind: Kind::STRUCT,
        arg: names,
    }
}

// The node of a field.
fn field_node(name: u64) -> Node
    ensures { result ≡ node Field name }
{
    Node {
        kind: Kind::FIELD,
        arg: name,
    }
}

// A Struct of each field with one type.
#[cycle(joins)]
fn each(i: Options, fields: FlatFields, other: FlatType, out: &mut Nodes) -> Option<()>
    requires leaf { size (viewed other) ≡ 1 }
    requires room { Fits (suc (sizes (viewed_run fields) + size (viewed other))) out.old }
    ensures { let answer = join_each (get_supertype (options_of i)) (viewed_run fields.entry) (viewed other.entry) in
        Joins nodes_of (option_map struct answer) out.old out.new result }
{
    out.push(struct_node(fields.left));
    let mut rest = fields;
    // by `first`: where a join is None, the end of the field's type is not looked for
    while let Some(field) = rest.first() {
        under(field_node(field.name), i, field.dtype, other, out)?;
        rest = rest.behind(field);
    }
    Some(())
}

// The source's loop over the fields of both: up to names that differ, or to a join that is None.
#[cycle(joins)]
fn zip(i: Options, l: FlatFields, r: FlatFields, out: &mut Nodes) -> Result<(), Unzipped>
    requires many { l.left ≡ r.left }
    requires room { Fits (suc (sizes (viewed_run l) + sizes (viewed_run r))) out.old }
    ensures { let answer = zip_fields (get_supertype (options_of i)) (viewed_run l.entry) (viewed_run r.entry) in
        Zipped answer out.old out.new result }
{
    out.push(struct_node(l.left));
    for (a, b) in l.zip(r) {
        if a.name != b.name {
            return Err(Unzipped::Apart);
        }
        let joined = under(field_node(a.name), i, a.dtype, b.dtype, out);
        joined.ok_or(Unzipped::Nothing)?;
    }
    Ok(())
}

// The fields of two Structs.
#[cycle(joins)]
fn fields(i: Options, l: FlatFields, r: FlatFields, out: &mut Nodes) -> Option<()>
    requires { Fits (suc (sizes (viewed_run l) + sizes (viewed_run r))) out.old }
    ensures { let answer = either_fields (get_supertype (options_of i)) (viewed_run l.entry) (viewed_run r.entry) in
        Joins nodes_of (option_map struct answer) out.old out.new result }
{
    if l.left == r.left && l.in_place(r) {
        return zip(i, l, r, out).ok();
    }
    merge(i, l, r, out)
}

// The fields of two Structs by their names. The order of the two counts for as many fields with a repeated name only.
#[cycle(joins)]
fn merge(i: Options, l: FlatFields, r: FlatFields, out: &mut Nodes) -> Option<()>
    requires unlike { l.left ≡ r.left → in_place (viewed_run l) (viewed_run r) ≡ false }
    requires room { Fits (suc (sizes (viewed_run l) + sizes (viewed_run r))) out.old }
    ensures { let answer = either_fields (get_supertype (options_of i)) (viewed_run l.entry) (viewed_run r.entry) in
        Joins nodes_of (option_map struct answer) out.old out.new result }
{
    let mut lt = [None; SLOTS];
    let mut rt = [None; SLOTS];
    let p = Named::new(l, &mut lt);
    let q = Named::new(r, &mut rt);
    if l.left < r.left {
        return union(i, q, p, out);
    }
    if r.left < l.left || (p.table.is_some() && q.table.is_some()) {
        return union(i, p, q, out);
    }
    let mark = out.len();
    match zip(i, l, r, out) {
        Ok(()) => return Some(()),
        Err(Unzipped::Nothing) => return None,
        Err(Unzipped::Apart) => out.truncate(mark),
    }
    if union(i, p, q, out).is_some() {
        return Some(());
    }
    out.truncate(mark);
    union(i, q, p, out)
}

// `union_struct_fields`, the longest first.
#[cycle(joins)]
fn union(i: Options, longest: Named, shortest: Named, out: &mut Nodes) -> Option<()>
    requires { Fits (suc (sizes (viewed_run longest.fields) + sizes (viewed_run shortest.fields))) out.old }
    ensures { let fs = viewed_run longest.entry.fields in
        let answer = union_fields (get_supertype (options_of i)) fs (viewed_run shortest.entry.fields) in
        Joins nodes_of (option_map struct answer) out.old out.new result }
{
    let mark = out.len();
    out.push(struct_node(0));
    let first = old(i, longest, shortest, out)?;
    let more = new(i, longest, shortest, out)?;
    out.close(mark, first + more);
    Some(())
}

// The names of the longest, each once, at its first place, with its last type.
#[cycle(joins)]
fn old(i: Options, longest: Named, shortest: Named, out: &mut Nodes) -> Option<u64>
    requires { Fits (sizes (viewed_run longest.fields) + sizes (viewed_run shortest.fields)) out.old }
    ensures { let gs = viewed_run shortest.entry.fields in
        let answer = old_names (get_supertype (options_of i)) gs [] (viewed_run longest.entry.fields) in
        Fills answer out.old out.new result }
{
    let mut names = 0;
    let mut rest = longest.fields;
    while let Some(field) = rest.next() {
        if let Some(kept) = longest.kept(field, rest) {
            named(i, kept, shortest, out)?;
            names += 1;
        }
    }
    Some(names)
}

// The names that only the shortest has, with their first type.
#[cycle(joins)]
fn new(i: Options, longest: Named, shortest: Named, out: &mut Nodes) -> Option<u64>
    requires { let ns = with_names (viewed_run longest.fields) [] in
        Fits (sizes (outside ns (viewed_run shortest.fields))) out.old }
    ensures { let ns = with_names (viewed_run longest.entry.fields) [] in
        let answer = new_names (get_supertype (options_of i)) ns (viewed_run shortest.entry.fields) in
        Fills answer out.old out.new result }
{
    let mut names = 0;
    let mut rest = shortest.fields;
    while let Some(field) = rest.next() {
        if !longest.knows(shortest, field, rest) {
            named(i, field, Named::plain(rest), out)?;
            names += 1;
        }
    }
    Some(names)
}

// A field: its type with all the fields of its name.
#[cycle(joins)]
fn named(i: Options, field: FlatField, fields: Named, out: &mut Nodes) -> Option<()>
    requires { Fits (suc (size (viewed field.dtype) + sizes (named field.name (viewed_run fields.fields)))) out.old }
    ensures { let gs = viewed_run fields.entry.fields in
        let name = field.entry.name in
        let answer = join_named (get_supertype (options_of i)) name (viewed field.entry.dtype) gs in
        Joins (λ t. node Field name ∷ nodes_of t) answer out.old out.new result }
{
    out.push(field_node(field.name));
    let Some(found) = fields.find(field.name) else {
        out.extend(field.dtype);
        return Some(());
    };
    let mark = out.len();
    held(i, found.dtype, field.dtype, out)?;
    again(i, mark, field.name, found.rest, out)
}

// The type that stands from the mark on, with all the fields of the name: one that the shortest repeats.
#[cycle(joins)]
fn again(i: Options, mark: usize, name: u64, fields: FlatFields, out: &mut Nodes) -> Option<()>
    requires stands { HeldAt mark out.old }
    requires room { Fits (sizes (named name (viewed_run fields))) out.old }
    ensures { let t = held_at mark out.old in
        let answer = join_named (get_supertype (options_of i)) name t (viewed_run fields.entry) in
        Joins nodes_of answer (take mark out.old) out.new result }
{
    for field in fields {
        if field.name == name {
            next(i, mark, field.dtype, out)?;
        }
    }
    Some(())
}

// One field's type with the type that stands from the mark on.
#[cycle(joins)]
fn next(i: Options, mark: usize, dtype: FlatType, out: &mut Nodes) -> Option<()>
    requires stands { HeldAt mark out.old }
    requires room { Fits (size (viewed dtype)) out.old }
    ensures { let answer = join_held (get_supertype (options_of i)) (viewed dtype.entry) (held_at mark out.old) in
        Joins nodes_of answer (take mark out.old) out.new result }
{
    if dtype.same(out.held(mark)) {
        return Some(());
    }
    let held = out.split_off(mark);
    join(i, i, dtype, held.held(0), out)
}

// A field's type with the held one: the held one stays where they are equal.
#[cycle(joins)]
fn held(i: Options, dtype: FlatType, held: FlatType, out: &mut Nodes) -> Option<()>
    requires { Fits (size (viewed dtype) + size (viewed held)) out.old }
    ensures { let answer = join_held (get_supertype (options_of i)) (viewed dtype.entry) (viewed held.entry) in
        Joins nodes_of answer out.old out.new result }
{
    if dtype.same(held) {
        out.extend(held);
        return Some(());
    }
    join(i, i, dtype, held, out)
}
