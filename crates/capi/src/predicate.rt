// The predicates of a type, on an encoded one.
ghost use Rattle.std.specs.Prelude.{◌≡◌};
ghost use Rattle.dtype.specs.Predicate.{root, is_temporal, is_float, is_signed_integer, is_unsigned_integer};
ghost use Rattle.dtype.specs.Predicate.{is_integer};
ghost use Rattle.dtype.specs.Predicate.{is_primitive_numeric, is_primitive, is_nested, is_string, is_unknown};
ghost use Rattle.dtype.specs.Recursive.{is_known, is_logical, contains_list_recursive, contains_unknown};
ghost use Rattle.dtype.specs.Predicates.{predicate_of};
ghost use Rattle.dtype.specs.Answer.{answer_of};
ghost use Rattle.capi.specs.Reply.{answer_reply, read_encoded};

use dtype::predicate::Predicate;
use flat::reply::Reply;

// What a predicate says of the type.
fn tell(p: Predicate, encoded: &[u8]) -> Reply
    ensures { result ≡ answer_reply (answer_of (predicate_of p) (read_encoded encoded.now)) }
{
    Reply::from(encoded_dtype::ask(p, encoded))
}

// Whether it is a List, an Array or a Struct.
#[unsafe(no_mangle)]
pub extern "C" fn lz_is_nested(encoded: &[u8]) -> Reply
    ensures { result ≡ answer_reply (answer_of (root is_nested) (read_encoded encoded.now)) }
{
    tell(Predicate::IsNested, encoded)
}

// Whether it is a primitive numeric type, Boolean, String or Binary.
#[unsafe(no_mangle)]
pub extern "C" fn lz_is_primitive(encoded: &[u8]) -> Reply
    ensures { result ≡ answer_reply (answer_of (root is_primitive) (read_encoded encoded.now)) }
{
    tell(Predicate::IsPrimitive, encoded)
}

// Whether it is a float or an integer; a Decimal is neither.
#[unsafe(no_mangle)]
pub extern "C" fn lz_is_primitive_numeric(encoded: &[u8]) -> Reply
    ensures { result ≡ answer_reply (answer_of (root is_primitive_numeric) (read_encoded encoded.now)) }
{
    tell(Predicate::IsPrimitiveNumeric, encoded)
}

// Whether it is Date, Datetime, Duration or Time.
#[unsafe(no_mangle)]
pub extern "C" fn lz_is_temporal(encoded: &[u8]) -> Reply
    ensures { result ≡ answer_reply (answer_of (root is_temporal) (read_encoded encoded.now)) }
{
    tell(Predicate::IsTemporal, encoded)
}

// Whether it is a float; `Unknown(Float)` is one.
#[unsafe(no_mangle)]
pub extern "C" fn lz_is_float(encoded: &[u8]) -> Reply
    ensures { result ≡ answer_reply (answer_of (root is_float) (read_encoded encoded.now)) }
{
    tell(Predicate::IsFloat, encoded)
}

// Whether it is an integer; `Unknown(Int(_))` is one.
#[unsafe(no_mangle)]
pub extern "C" fn lz_is_integer(encoded: &[u8]) -> Reply
    ensures { result ≡ answer_reply (answer_of (root is_integer) (read_encoded encoded.now)) }
{
    tell(Predicate::IsInteger, encoded)
}

// Whether it is Int8 to Int128.
#[unsafe(no_mangle)]
pub extern "C" fn lz_is_signed_integer(encoded: &[u8]) -> Reply
    ensures { result ≡ answer_reply (answer_of (root is_signed_integer) (read_encoded encoded.now)) }
{
    tell(Predicate::IsSignedInteger, encoded)
}

// Whether it is UInt8 to UInt128.
#[unsafe(no_mangle)]
pub extern "C" fn lz_is_unsigned_integer(encoded: &[u8]) -> Reply
    ensures { result ≡ answer_reply (answer_of (root is_unsigned_integer) (read_encoded encoded.now)) }
{
    tell(Predicate::IsUnsignedInteger, encoded)
}

// Whether it is String; `Unknown(Str)` is one.
#[unsafe(no_mangle)]
pub extern "C" fn lz_is_string(encoded: &[u8]) -> Reply
    ensures { result ≡ answer_reply (answer_of (root is_string) (read_encoded encoded.now)) }
{
    tell(Predicate::IsString, encoded)
}

// Whether it is `Unknown(_)`.
#[unsafe(no_mangle)]
pub extern "C" fn lz_is_unknown(encoded: &[u8]) -> Reply
    ensures { result ≡ answer_reply (answer_of (root is_unknown) (read_encoded encoded.now)) }
{
    tell(Predicate::IsUnknown, encoded)
}

// Whether no type in it is unknown.
#[unsafe(no_mangle)]
pub extern "C" fn lz_is_known(encoded: &[u8]) -> Reply
    ensures { result ≡ answer_reply (answer_of is_known (read_encoded encoded.now)) }
{
    tell(Predicate::IsKnown, encoded)
}

// Whether it differs from its physical form.
#[unsafe(no_mangle)]
pub extern "C" fn lz_is_logical(encoded: &[u8]) -> Reply
    ensures { result ≡ answer_reply (answer_of is_logical (read_encoded encoded.now)) }
{
    tell(Predicate::IsLogical, encoded)
}

// Whether a type in it is unknown.
#[unsafe(no_mangle)]
pub extern "C" fn lz_contains_unknown(encoded: &[u8]) -> Reply
    ensures { result ≡ answer_reply (answer_of contains_unknown (read_encoded encoded.now)) }
{
    tell(Predicate::ContainsUnknown, encoded)
}

// Whether a type in it is a List.
#[unsafe(no_mangle)]
pub extern "C" fn lz_contains_list_recursive(encoded: &[u8]) -> Reply
    ensures { result ≡ answer_reply (answer_of contains_list_recursive (read_encoded encoded.now)) }
{
    tell(Predicate::ContainsListRecursive, encoded)
}
