// Flat types: a type is a tree in preorder in two parallel arrays, kinds and arguments.
#![tactic(auto)]

pub mod argument;
pub mod error;
pub mod kind;
pub mod reply;
pub mod root_reply;
mod scan;
pub mod span;

ghost use Rattle.std.specs.Prelude.{◌≡◌, true, ◌*◌, length};
ghost use Rattle.flat.specs.Reader.{node_at};
ghost use Rattle.flat.specs.Reading.{kinds_fit, arguments_fit, shaped, reading, one_plain};
ghost use Rattle.flat.specs.Reading.{checked_of, root_of, RootFits};
ghost use Rattle.flat.specs.Scan.{scan_accepts, start, scan_type};

use argument::argument_fits;
use error::Error;
use kind::Kind;

// A flat type, and its limits.
#[derive(Clone, Copy)]
pub struct Flat {}

impl Flat {
    // The most nodes that a type has.
    pub const MAX_NODES: usize = 512;

    // The most nodes that stand above a node.
    pub const MAX_DEPTH: usize = 32;
}

// One node: a kind and its argument. The root of a type is all of it where the type has no children.
#[derive(Clone, Copy, Debug, PartialEq, Eq)]
pub struct Node {
    pub kind: u8,
    pub arg: u64,
}

// Refusal 2 is not given.
#[tactic(auto, unfolding(crate::specs::Reading::kinds_fit))]
fn kinds_fit(kinds: &[u8]) -> bool
    ensures { result ≡ kinds_fit kinds.now }
{
    kinds.iter().all(|&k| k <= Kind::FIELD)
}

// Refusal 3 is not given.
#[tactic(auto, unfolding(crate::specs::Reading::arguments_fit))]
fn arguments_fit(kinds: &[u8], args: &[u64]) -> bool
    ensures { result ≡ arguments_fit kinds.now args.now }
{
    kinds
        .iter()
        .zip(args)
        .all(|(&kind, &arg)| argument_fits(kind, arg))
}

// Refusal 5, of nodes that form exactly one type.
fn check_depth(kinds: &[u8], args: &[u64]) -> Result<(), Error>
    requires { scan_type (2 * Flat.MAX_NODES) start kinds.now args.now ≡ true }
    ensures { let ks = kinds.now in
        let xs = args.now in
        result ≡ checked_of (shaped Flat.MAX_DEPTH (length ks) (node_at ks xs)) }
{
    match span::node_span(kinds, args, Flat::MAX_DEPTH) {
        Some(_) => Ok(()),
        None => Err(Error::Depth),
    }
}

// Whether two arrays are a type: refusals 1 to 5, each looking at the whole type before the next. For arrays that the
// scan didn't accept.
#[cold]
fn examine(kinds: &[u8], args: &[u64]) -> Result<(), Error>
    ensures { let is = reading Flat.MAX_NODES Flat.MAX_DEPTH kinds.now args.now in
        result ≡ checked_of is }
{
    if kinds.len() != args.len() || kinds.is_empty() || kinds.len() > Flat::MAX_NODES {
        return Err(Error::Length);
    }
    // no type of so few nodes has more nested than twice their number, so with that bound the scan passes whatever
    // keeps 2 to 4
    if scan::passes(kinds, args, 2 * Flat::MAX_NODES) {
        return check_depth(kinds, args);
    }
    // an argument fits no code above 31, so where all fit, so do the kinds
    if arguments_fit(kinds, args) {
        return Err(Error::Shape);
    }
    if kinds_fit(kinds) {
        return Err(Error::Argument);
    }
    Err(Error::Kind)
}

// Whether two arrays are one plain leaf, the commonest type. So short a test is compiled into its callers.
#[tactic(auto, unfolding(crate::specs::Reading::one_plain))]
pub fn is_plain(kinds: &[u8], args: &[u64]) -> bool
    ensures { result ≡ one_plain kinds.now args.now }
{
    kinds.len() == 1 && args.len() == 1 && argument::is_plain(kinds[0], args[0])
}

// Whether the scan accepts two arrays, for arrays that are not one plain leaf.
fn accepts(kinds: &[u8], args: &[u64]) -> bool
    ensures { result ≡ scan_accepts Flat.MAX_NODES Flat.MAX_DEPTH kinds.now args.now }
{
    kinds.len() == args.len()
        && kinds.len() <= Flat::MAX_NODES
        && scan::passes(kinds, args, Flat::MAX_DEPTH)
}

// Whether two arrays that are not one plain leaf are a type: the scan accepts types only, and nearly every one. What it
// doesn't accept is examined.
#[inline(always)]
fn check_nodes(kinds: &[u8], args: &[u64]) -> Result<(), Error>
    ensures { let is = reading Flat.MAX_NODES Flat.MAX_DEPTH kinds.now args.now in
        result ≡ checked_of is }
{
    if accepts(kinds, args) {
        return Ok(());
    }
    examine(kinds, args)
}

// Whether two arrays are a type: refusals 1 to 5.
pub fn check(kinds: &[u8], args: &[u64]) -> Result<(), Error>
    ensures { let is = reading Flat.MAX_NODES Flat.MAX_DEPTH kinds.now args.now in
        result ≡ checked_of is }
{
    if is_plain(kinds, args) {
        return Ok(());
    }
    check_nodes(&kinds[0..], &args[0..])
}

// The root of arrays that are not one plain leaf.
fn root_of(kinds: &[u8], args: &[u64]) -> Result<Node, Error>
    ensures { let is = reading Flat.MAX_NODES Flat.MAX_DEPTH kinds.now args.now in
        (result ≡ root_of is) × RootFits result }
{
    check_nodes(kinds, args)?;
    Ok(Node {
        kind: kinds[0],
        arg: args[0],
    })
}

// Checks a type, and gives its root: refusals 1 to 5.
pub fn check_root(kinds: &[u8], args: &[u64]) -> Result<Node, Error>
    ensures { let is = reading Flat.MAX_NODES Flat.MAX_DEPTH kinds.now args.now in
        (result ≡ root_of is) × RootFits result }
{
    if is_plain(kinds, args) {
        return Ok(Node {
            kind: kinds[0],
            arg: 0,
        });
    }
    root_of(&kinds[0..], &args[0..])
}
