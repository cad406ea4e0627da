// Encoded types (document 01's stored sheets): checked, decoded to the two arrays of a flat type, and encoded from
// them.
#![tactic(auto)]

mod bytes;
mod opened;

ghost use Rattle.std.specs.Prelude.{◌≡◌, ◌≤◌, length, IfSome};
ghost use Rattle.flat.specs.Reading.{checked_of, root_of, RootFits};
ghost use Rattle.encoded.specs.Answer.{plain_in, EncodeEnsures, DecodeEnsures, Puts, ReadsArgs};
ghost use Rattle.encoded.specs.Limits.{decoded, counted};
ghost use Rattle.encoded.specs.Opening.{flat_of, arrays_of};

use flat::error::Error;
use flat::{Flat, Node, argument};
pub use opened::Opened;

// The layout of an encoded type.
#[derive(Clone, Copy)]
pub struct Encoding {}

impl Encoding {
    // How many bytes an argument takes.
    pub const ARGUMENT_BYTES: usize = 8;

    // The arguments of a type of at most FEW nodes are read to a small array: a larger one takes longer to clear than
    // to use.
    pub const FEW: usize = 24;

    // The arguments of a type of at most SOME nodes are read to an array of middle size.
    pub const SOME: usize = 64;
}

// How many nodes an encoded type has; none where its length is not that of any.
#[tactic(auto, unfolding(crate::specs::Answer::nodes_in, crate::specs::Encoding::size_fits))]
pub fn node_count(encoded: &[u8]) -> Option<usize>
    ensures { result ≡ counted encoded.now }
{
    let n = bytes::count(encoded)?;
    let fits = (1..=Flat::MAX_NODES).contains(&n)
        && encoded.len() == 2 + (Encoding::ARGUMENT_BYTES + 1) * n;
    fits.then_some(n)
}

// Whether bytes are one plain leaf. So short a test is compiled into its callers.
pub fn is_plain(encoded: &[u8]) -> bool
    ensures { result ≡ plain_in Encoding.ARGUMENT_BYTES Flat.MAX_NODES encoded.now }
{
    node_count(encoded) == Some(1) && argument::is_plain(encoded[2], bytes::word(encoded, 3))
}

// Checks an encoded type and reads its arguments to the front of args, and answers the number of nodes: refusals 1 to
// 5. Not an entry point, but a helper for the crates here, as `open` is: it asks for room, and it reads the arguments
// before it checks them, so a refusal can leave args changed.
pub fn read(encoded: &[u8], args: &mut [u64]) -> Result<usize, Error>
    requires { IfSome (counted encoded.now) (λ n. n ≤ length args.old) }
    ensures { let s = encoded.now in
        ReadsArgs Encoding.ARGUMENT_BYTES Flat.MAX_NODES Flat.MAX_DEPTH s args.old args.new result }
{
    let n = node_count(encoded).ok_or(Error::Length)?;
    let (kinds, words) = encoded[2..].split_at(n);
    bytes::read_args(words, &mut args[..n]);
    flat::check(kinds, &args[..n])?;
    Ok(n)
}

// Checks an encoded type, and gives its two arrays, its arguments in the array lent for them: refusals 1 to 5.
pub fn open<'a>(encoded: &'a [u8], args: &'a mut [u64]) -> Result<Opened<'a>, Error>
    requires { IfSome (counted encoded.now) (λ n. n ≤ length args.old) }
    ensures { arrays_of result ≡ flat_of (decoded encoded.now) }
{
    let n = read(encoded, args)?;
    Ok(Opened {
        kinds: &encoded[2..2 + n],
        args: &args[..n],
    })
}

// Checks an encoded type, with an array of its own for at most N arguments.
fn check_in<const N: usize>(encoded: &[u8]) -> Result<(), Error>
    requires { IfSome (counted encoded.now) (λ n. n ≤ N) × (N ≤ Flat.MAX_NODES) }
    ensures { result ≡ checked_of (decoded encoded.now) }
{
    let mut args = [0u64; N];
    read(encoded, &mut args)?;
    Ok(())
}

// Whether bytes are an encoded type, of any number of nodes. Four calls of the crates above choose a size too: a trait
// whose method takes the size would add a struct and an impl to each, and of a closure that is lent the array a proof
// would not know what it writes to `out`.
fn check_nodes(encoded: &[u8]) -> Result<(), Error>
    ensures { result ≡ checked_of (decoded encoded.now) }
{
    let n = node_count(encoded).ok_or(Error::Length)?;
    if n <= Encoding::FEW {
        return check_in::<{ Encoding::FEW }>(encoded);
    }
    if n <= Encoding::SOME {
        return check_in::<{ Encoding::SOME }>(encoded);
    }
    check_in::<{ Flat::MAX_NODES }>(encoded)
}

// Whether bytes are an encoded type.
pub fn check(encoded: &[u8]) -> Result<(), Error>
    ensures { result ≡ checked_of (decoded encoded.now) }
{
    if is_plain(encoded) {
        return Ok(());
    }
    check_nodes(&encoded[0..])
}

// Decodes a type to the front of kinds and args: refusals 1 to 5, then 8.
pub fn decode(encoded: &[u8], kinds: &mut [u8], args: &mut [u64]) -> Result<usize, Error>
    ensures { let s = encoded.now in
        let ks = kinds.old in
        let xs = args.old in
        DecodeEnsures Encoding.ARGUMENT_BYTES Flat.MAX_NODES Flat.MAX_DEPTH s ks xs kinds.new args.new result }
{
    check(encoded)?;
    let n = node_count(encoded).unwrap();
    if kinds.len() < n || args.len() < n {
        return Err(Error::OutputTooShort);
    }
    let m = 2 + n;
    bytes::copy(&encoded[2..m], &mut kinds[..n]);
    bytes::read_args(&encoded[m..], &mut args[..n]);
    Ok(n)
}

// The root of bytes that are not one plain leaf.
fn root_of(encoded: &[u8]) -> Result<Node, Error>
    ensures { (result ≡ root_of (decoded encoded.now)) × RootFits result }
{
    check_nodes(encoded)?;
    let n = node_count(encoded).unwrap();
    Ok(Node {
        kind: encoded[2],
        arg: bytes::word(encoded, 2 + n),
    })
}

// Checks an encoded type, and gives its root: refusals 1 to 5.
pub fn check_root(encoded: &[u8]) -> Result<Node, Error>
    ensures { (result ≡ root_of (decoded encoded.now)) × RootFits result }
{
    if is_plain(encoded) {
        return Ok(Node {
            kind: encoded[2],
            arg: 0,
        });
    }
    root_of(&encoded[0..])
}

// Encodes two arrays, which it doesn't check, to the front of out, unless that is too short: refusal 8.
pub fn put(kinds: &[u8], args: &[u64], out: &mut [u8]) -> Result<usize, Error>
    requires { let n = length kinds.now in
        (n ≡ length args.now) × (n ≤ Flat.MAX_NODES) }
    ensures { let ks = kinds.now in
        let xs = args.now in
        Puts Encoding.ARGUMENT_BYTES ks xs out.old out.new result }
{
    let n = kinds.len();
    let size = 2 + (Encoding::ARGUMENT_BYTES + 1) * n;
    if out.len() < size {
        return Err(Error::OutputTooShort);
    }
    let m = 2 + n;
    out[..2].copy_from_slice(&(n as u16).to_le_bytes());
    bytes::copy(kinds, &mut out[2..m]);
    bytes::write_args(args, &mut out[m..size]);
    Ok(size)
}

// Encodes a flat type to the front of out: refusals 1 to 5, then 8.
pub fn encode(kinds: &[u8], args: &[u64], out: &mut [u8]) -> Result<usize, Error>
    ensures { let ks = kinds.now in
        let xs = args.now in
        EncodeEnsures Encoding.ARGUMENT_BYTES Flat.MAX_NODES Flat.MAX_DEPTH ks xs out.old out.new result }
{
    flat::check(kinds, args)?;
    put(kinds, args, out)
}
