// The predicates of dtype.rs by name, and how the kinds of a valid type tell them: by the root's kind, or by a scan of
// them all.
ghost use Rattle.std.specs.Prelude.{◌≡◌, ◌<◌, length};
ghost use Rattle.dtype.specs.Predicates.{told_by};

use crate::{kind, scan};

#[derive(Clone, Copy)]
pub enum Predicate {
    IsNested,
    IsKnown,
    IsLogical,
    IsPrimitive,
    IsPrimitiveNumeric,
    IsTemporal,
    IsFloat,
    IsInteger,
    IsSignedInteger,
    IsUnsignedInteger,
    IsString,
    IsUnknown,
    ContainsUnknown,
    ContainsListRecursive,
}

// Whether the predicate holds of a type of these kinds. A name stands for two facts, what the kinds tell and what that
// is of the type; a test handed in would leave both to each caller, here, in encoded_dtype and in capi.
pub fn told_by(p: Predicate, kinds: &[u8]) -> bool
    requires { 0 < length kinds.now }
    ensures { result ≡ told_by p kinds.now }
{
    let k = kinds[0];
    match p {
        Predicate::IsNested => kind::is_nested(k),
        Predicate::IsKnown => !scan::contains_unknown(kinds),
        Predicate::IsLogical => scan::is_logical(kinds),
        Predicate::IsPrimitive => kind::is_primitive(k),
        Predicate::IsPrimitiveNumeric => kind::is_primitive_numeric(k),
        Predicate::IsTemporal => kind::is_temporal(k),
        Predicate::IsFloat => kind::is_float(k),
        Predicate::IsInteger => kind::is_integer(k),
        Predicate::IsSignedInteger => kind::is_signed_integer(k),
        Predicate::IsUnsignedInteger => kind::is_unsigned_integer(k),
        Predicate::IsString => kind::is_string(k),
        Predicate::IsUnknown => kind::is_unknown(k),
        Predicate::ContainsUnknown => scan::contains_unknown(kinds),
        Predicate::ContainsListRecursive => scan::contains_list(kinds),
    }
}
