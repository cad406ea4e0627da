// The dyn integer helpers of supertype.rs, on the node of `Unknown(Int(v))`. A signed type that holds v holds −1 − v
// too, so that the sign counts only past the largest of them.
ghost use Rattle.std.specs.Prelude.{◌≡◌};
ghost use Rattle.supertype_numbers.specs.DynInt.{value_of, materialize_dyn_int};
ghost use Rattle.supertype_numbers.specs.DynInt.{materialize_dyn_int_pos, materialize_smallest_dyn_int};

use flat::Node;
use flat::kind::Kind;

// The first of Int32, Int64 and UInt64 that holds v, else Int128.
pub fn materialize_dyn_int(v: Node) -> u8
    ensures { result ≡ materialize_dyn_int (value_of v.kind v.arg) }
{
    if v.arg <= i32::MAX as u64 {
        Kind::INT32
    } else if v.arg <= i64::MAX as u64 {
        Kind::INT64
    } else if v.kind == Kind::UNKNOWN_INT_POS {
        Kind::UINT64
    } else {
        Kind::INT128
    }
}

// The first unsigned type up to UInt64 that holds v, else Null.
pub fn materialize_dyn_int_pos(v: Node) -> u8
    ensures { result ≡ materialize_dyn_int_pos (value_of v.kind v.arg) }
{
    if v.kind != Kind::UNKNOWN_INT_POS {
        return Kind::NULL;
    }
    if v.arg <= u8::MAX as u64 {
        Kind::UINT8
    } else if v.arg <= u16::MAX as u64 {
        Kind::UINT16
    } else if v.arg <= u32::MAX as u64 {
        Kind::UINT32
    } else {
        Kind::UINT64
    }
}

// The first signed type up to Int64 that holds v, else UInt64 if it does, else Null.
pub fn materialize_smallest_dyn_int(v: Node) -> u8
    ensures { result ≡ materialize_smallest_dyn_int (value_of v.kind v.arg) }
{
    if v.arg <= i8::MAX as u64 {
        Kind::INT8
    } else if v.arg <= i16::MAX as u64 {
        Kind::INT16
    } else if v.arg <= i32::MAX as u64 {
        Kind::INT32
    } else if v.arg <= i64::MAX as u64 {
        Kind::INT64
    } else if v.kind == Kind::UNKNOWN_INT_POS {
        Kind::UINT64
    } else {
        Kind::NULL
    }
}
