// The calls of dtype.rs on two encoded types.
ghost use Rattle.std.specs.Prelude.{◌≡◌};
ghost use Rattle.dtype.specs.Equality.{equal};
ghost use Rattle.dtype.specs.Answer.{answers_of};
ghost use Rattle.dtype_eq.specs.Contains.{contains_dtype_recursive};
ghost use Rattle.dtype_cast.specs.Verdict.{cast_of};
ghost use Rattle.capi.specs.Reply.{answer_reply, verdict_reply, read_encoded};

use flat::reply::Reply;

// Whether two types are equal. `Unknown(Int(_))` are, whatever they hold; field names count.
#[unsafe(no_mangle)]
pub extern "C" fn lz_equal(left: &[u8], right: &[u8]) -> Reply
    ensures { result ≡ answer_reply (answers_of equal (read_encoded left.now) (read_encoded right.now)) }
{
    Reply::from(encoded_pair::equal(left, right))
}

// Whether the left type is the right one, or a type under it is.
#[unsafe(no_mangle)]
pub extern "C" fn lz_contains_dtype_recursive(left: &[u8], right: &[u8]) -> Reply
    ensures { let one = read_encoded left.now in
        result ≡ answer_reply (answers_of contains_dtype_recursive one (read_encoded right.now)) }
{
    Reply::from(encoded_pair::contains_dtype_recursive(left, right))
}

// Whether the cast from the left type to the right one makes sense.
#[unsafe(no_mangle)]
pub extern "C" fn lz_can_cast_to(left: &[u8], right: &[u8]) -> Reply
    ensures { result ≡ verdict_reply (cast_of (read_encoded left.now) (read_encoded right.now)) }
{
    Reply::from(encoded_pair::can_cast_to(left, right))
}
