// The C entry points, one line each: a call of a proved function, whose answer is given as two numbers.
// Slices, flags as bytes and numbers are what C can hand in: a slice is a pointer and a length there.
#![tactic(auto)]

mod build;
mod channel;
mod flat_type;
mod join;
mod pair;
mod part;
mod predicate;
mod time_unit;

ghost use Rattle.std.specs.Prelude.{◌≡◌};
ghost use Rattle.flat.specs.Reading.{checked_of};
ghost use Rattle.capi.specs.Reply.{check_reply, RepliesArrays, RepliesBytes, read_encoded, read_flat};

use flat::reply::Reply;

// Whether bytes are an encoded type.
#[unsafe(no_mangle)]
pub extern "C" fn lz_check(encoded: &[u8]) -> Reply
    ensures { result ≡ check_reply (checked_of (read_encoded encoded.now)) }
{
    Reply::from(encoded::check(encoded))
}

// Decodes a type to the front of kinds and args, and gives its number of nodes.
#[unsafe(no_mangle)]
pub extern "C" fn lz_decode(encoded: &[u8], kinds: &mut [u8], args: &mut [u64]) -> Reply
    ensures { RepliesArrays (read_encoded encoded.now) kinds.old args.old kinds.new args.new result }
{
    Reply::from(encoded::decode(encoded, kinds, args))
}

// Encodes a flat type to the front of out, and gives the number of bytes.
#[unsafe(no_mangle)]
pub extern "C" fn lz_encode(kinds: &[u8], args: &[u64], out: &mut [u8]) -> Reply
    ensures { RepliesBytes (read_flat kinds.now args.now) out.old out.new result }
{
    Reply::from(encoded::encode(kinds, args, out))
}
