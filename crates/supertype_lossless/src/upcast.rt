// The lossless upcast by the kinds of two types, on which alone it rests: the kind of the upcast, where there is one.
// Of two kinds of one class the larger code is the wider type.
ghost use Rattle.std.specs.Prelude.{◌≡◌, ◌≤◌};
ghost use Rattle.flat.specs.Kind.{UInt8, UInt128, Int8, Int128};
ghost use Rattle.supertype_lossless.specs.Lossless.{upcast_of};

use flat::kind::Kind;

// The upcast of an unsigned type and a signed one. Six above UInt8 to UInt64 stands the signed type of twice the width.
fn mixed(u: u8, s: u8) -> Option<u8>
    requires { (UInt8 ≤ u) × (u ≤ UInt128) × (Int8 ≤ s) × (s ≤ Int128) }
    ensures { (result ≡ upcast_of u s) × (result ≡ upcast_of s u) }
{
    if u == Kind::UINT128 {
        return None; // no signed type has all its numbers
    }
    Some(s.max(u + 6))
}

// The upcast of any two kinds.
pub fn upcast_kinds(l: u8, r: u8) -> Option<u8>
    ensures { result ≡ upcast_of l r }
{
    if l == r {
        return None; // the source's None for equal types
    }
    match (l, r) {
        (Kind::UINT8..=Kind::UINT128, Kind::INT8..=Kind::INT128) => mixed(l, r),
        (Kind::INT8..=Kind::INT128, Kind::UINT8..=Kind::UINT128) => mixed(r, l),
        (Kind::UINT8..=Kind::UINT128, Kind::UINT8..=Kind::UINT128)
        | (Kind::INT8..=Kind::INT128, Kind::INT8..=Kind::INT128)
        | (Kind::FLOAT16..=Kind::FLOAT64, Kind::FLOAT16..=Kind::FLOAT64) => Some(l.max(r)),
        _ => None,
    }
}
