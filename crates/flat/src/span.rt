// The walk of the check: a node hands its fields to a walk over fields, which hands each field back. It goes no
// deeper than it is asked to.
ghost use Rattle.std.specs.Prelude.{◌≡◌, length, ◌≤◌};
ghost use Rattle.std.specs.List.{prefix_len};
ghost use Rattle.flat.specs.Kind.{between};
ghost use Rattle.flat.specs.Span.{span_within, spans_within};
ghost use Rattle.flat.specs.Walk.{Valid, type_at, ValidRun, run_at};

use crate::kind::Kind;

// How many kinds from low to high stand at the front.
#[tactic(auto, unfolding(crate::specs::Kind::between))]
pub fn leading(kinds: &[u8], low: u8, high: u8) -> usize
    ensures { (result ≡ prefix_len (between low high) kinds.now) × (result ≤ length kinds.now) }
{
    kinds
        .iter()
        .take_while(|k| (low..=high).contains(k))
        .count()
}

// The type at the front of the two arrays, if it is no deeper than so many levels.
#[cycle(field_span_node_span)]
pub fn node_span(kinds: &[u8], args: &[u64], levels: usize) -> Option<usize>
    requires { Valid kinds.now args.now }
    ensures { let front = type_at kinds.now args.now in
        result ≡ span_within levels front }
{
    // the Lists and Arrays that stand at the front, one under the other
    let at = leading(kinds, Kind::LIST, Kind::ARRAY);
    if at > levels {
        return None;
    }
    let next = at + 1;
    if kinds[at] < Kind::LIST {
        return Some(next);
    }
    let fields = field_span(&kinds[next..], &args[next..], args[at], levels - at)?;
    Some(next + fields)
}

// The given number of fields at the front of the two arrays, if none is deeper than so many levels below their Struct.
#[cycle(field_span_node_span)]
pub fn field_span(kinds: &[u8], args: &[u64], count: u64, levels: usize) -> Option<usize>
    requires { ValidRun count kinds.now args.now }
    ensures { let front = run_at count kinds.now args.now in
        result ≡ spans_within levels front }
{
    let mut at = 0;
    for _ in 0..count {
        // the Struct and the field stand above the field's type
        let below = levels.checked_sub(2)?;
        let next = at + 1;
        at = next + node_span(&kinds[next..], &args[next..], below)?;
    }
    Some(at)
}
