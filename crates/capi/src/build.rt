// The calls that build an encoded type anew.
ghost use Rattle.dtype_build.specs.Build.{materialized, physical};
ghost use Rattle.capi.specs.Reply.{RepliesBytes, flag_on, read_encoded};

use flat::reply::Reply;

// The type with each unknown type made known; where the flag is 0, an `Unknown(Any)` refuses the call.
#[unsafe(no_mangle)]
pub extern "C" fn lz_materialize_unknown(encoded: &[u8], allow_unknown: u8, out: &mut [u8]) -> Reply
    ensures { RepliesBytes (materialized (flag_on allow_unknown) (read_encoded encoded.now)) out.old out.new result }
{
    Reply::from(encoded_dtype::materialize_unknown(encoded, allow_unknown != 0, out))
}

// The type's physical form.
#[unsafe(no_mangle)]
pub extern "C" fn lz_to_physical(encoded: &[u8], out: &mut [u8]) -> Reply
    ensures { RepliesBytes (physical (read_encoded encoded.now)) out.old out.new result }
{
    Reply::from(encoded_dtype::to_physical(encoded, out))
}
