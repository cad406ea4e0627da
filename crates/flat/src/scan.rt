// The scan of the check: one pass over the nodes, without a stack, which passes types only and nearly every type.
// Whether the nodes form exactly one type is told by the number of fields still owed; the depth is bounded by how
// much is nested, counted anew from each field of the outermost Struct. The numbers in what its functions ask keep
// sums from overflowing.
ghost use Rattle.std.specs.Prelude.{◌≡◌, ◌+◌, ◌≤◌, ◌<◌, length};
ghost use Rattle.flat.specs.Scan.{NoDeeper, start, settled, wrapped, opened, paid};
ghost use Rattle.flat.specs.Scan.{type_fits, field_fits, scan_type};

use crate::argument::argument_fits;
use crate::kind::Kind;

// Where the scan stands; at the start nothing is owed.
#[derive(Clone, Copy, Default)]
pub struct Scan {
    // The fields still owed: a Struct owes its fields, and each field that is met pays for one.
    pub owed: usize,
    // Those of them that the outermost Struct owes, as they were when last counted.
    pub outer: usize,
    // How deep the types of the outermost Struct's fields are.
    pub base: usize,
    // How deep the type that stands next is, at most.
    pub depth: usize,
}

// Before a node that has children: where the inner Structs' fields are all paid, the node is a field's type of the
// outermost Struct again.
fn settled(s: Scan) -> Scan
    ensures { result ≡ settled s }
{
    if s.owed < s.outer {
        return Scan {
            outer: s.owed,
            depth: s.base,
            ..s
        };
    }
    s
}

// Under a List or an Array.
fn wrapped(s: Scan) -> Scan
    requires { NoDeeper 65536 s }
    ensures { result ≡ wrapped s }
{
    let at = settled(s);
    Scan {
        depth: at.depth + 1,
        ..at
    }
}

// Under a Struct of so many fields. Where nothing is owed, it is the outermost one.
fn opened(s: Scan, fields: usize) -> Scan
    requires { NoDeeper 65536 s × (s.owed + fields ≤ 16777216) }
    ensures { result ≡ opened fields s }
{
    let at = settled(s);
    let depth = at.depth + 2;
    if at.owed == 0 {
        return Scan {
            owed: fields,
            outer: fields,
            base: depth,
            depth,
        };
    }
    Scan {
        owed: at.owed + fields,
        depth,
        ..at
    }
}

// After a field: one is paid for.
fn paid(s: Scan) -> Scan
    requires { 0 < s.owed }
    ensures { result ≡ paid s }
{
    Scan {
        owed: s.owed - 1,
        ..s
    }
}

// Whether a node can be the root of a type: no field, and its argument follows its kind's rule. Most are leaves with
// the argument 0, which are told by it alone: by `is_plain` each other leaf would be asked for a Decimal twice.
#[tactic(auto, unfolding(crate::specs::Scan::type_fits, crate::specs::Argument::plain_leaf))]
fn type_fits(kind: u8, arg: u64) -> bool
    ensures { result ≡ type_fits kind arg }
{
    if kind < Kind::LIST {
        if arg == 0 {
            return kind != Kind::DECIMAL;
        }
        return argument_fits(kind, arg);
    }
    kind != Kind::FIELD && argument_fits(kind, arg)
}

// Whether a node is a field.
#[tactic(auto, unfolding(crate::specs::Scan::field_fits))]
fn field_fits(kind: u8, arg: u64) -> bool
    ensures { result ≡ field_fits kind arg }
{
    kind == Kind::FIELD && argument_fits(Kind::FIELD, arg)
}

// Whether the nodes form exactly one type, with no more nested than so many levels.
pub fn passes(kinds: &[u8], args: &[u64], deep: usize) -> bool
    requires { let n = length kinds.now in
        (n ≡ length args.now) × (n ≤ 65536) × (deep ≤ 65536) }
    ensures { result ≡ scan_type deep start kinds.now args.now }
{
    let mut s = Scan::default();
    let mut at = 0;
    // by an index: over a zip of the two slices, with two `next`s a round, a Struct of 20 fields took 100 ns for 42
    while at < kinds.len() {
        let kind = kinds[at];
        let arg = args[at];
        if !type_fits(kind, arg) {
            return false;
        }
        at += 1;
        match kind {
            Kind::NULL..=Kind::UNKNOWN_INT_NEG => {}
            Kind::LIST..=Kind::ARRAY => {
                s = wrapped(s);
                if s.depth > deep {
                    return false;
                }
                continue;
            }
            _ => {
                s = opened(s, arg as usize);
                if s.depth > deep {
                    return false;
                }
            }
        }
        if s.owed == 0 {
            return at == kinds.len();
        }
        if at == kinds.len() {
            return false;
        }
        if !field_fits(kinds[at], args[at]) {
            return false;
        }
        at += 1;
        s = paid(s);
    }
    false
}
