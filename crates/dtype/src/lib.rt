// src/datatypes of the crate: the fourteen predicates of a flat type (dtype.rs), each under the source's name, as
// document 01 and docs/ENTRY_POINTS.md have them, units of time, and what every rule of dtype.rs rests on. Equality,
// inner types, casts and the types that are built anew have a crate each (dtype_…), so that a proof stays quick to
// check.
#![tactic(auto)]

pub mod kind;
pub mod node;
pub mod predicate;
pub mod scan;
pub mod time_unit;
pub mod time_units;

ghost use Rattle.std.specs.Prelude.{◌≡◌};
ghost use Rattle.flat.specs.Reading.{reading};
ghost use Rattle.dtype.specs.Predicate.{root, is_temporal, is_float, is_signed_integer, is_unsigned_integer};
ghost use Rattle.dtype.specs.Predicate.{is_integer};
ghost use Rattle.dtype.specs.Predicate.{is_primitive_numeric, is_primitive, is_nested, is_string, is_unknown};
ghost use Rattle.dtype.specs.Recursive.{is_known, is_logical, contains_list_recursive, contains_unknown};
ghost use Rattle.dtype.specs.Predicates.{predicate_of};
ghost use Rattle.dtype.specs.Answer.{answer_of};

use flat::Flat;
use flat::error::Error;
use predicate::{Predicate, told_by};

// What a predicate says of two arrays.
fn ask(p: Predicate, kinds: &[u8], args: &[u64]) -> Result<bool, Error>
    ensures { result ≡ answer_of (predicate_of p) (reading Flat.MAX_NODES Flat.MAX_DEPTH kinds.now args.now) }
{
    // one plain leaf is told at once
    if !flat::is_plain(kinds, args) {
        flat::check(kinds, args)?;
    }
    Ok(told_by(p, kinds))
}

// Whether it is a List, an Array or a Struct.
pub fn is_nested(kinds: &[u8], args: &[u64]) -> Result<bool, Error>
    ensures { result ≡ answer_of (root is_nested) (reading Flat.MAX_NODES Flat.MAX_DEPTH kinds.now args.now) }
{
    ask(Predicate::IsNested, kinds, args)
}

// Whether it is a primitive numeric type, Boolean, String or Binary.
pub fn is_primitive(kinds: &[u8], args: &[u64]) -> Result<bool, Error>
    ensures { result ≡ answer_of (root is_primitive) (reading Flat.MAX_NODES Flat.MAX_DEPTH kinds.now args.now) }
{
    ask(Predicate::IsPrimitive, kinds, args)
}

// Whether it is a float or an integer; a Decimal is neither.
pub fn is_primitive_numeric(kinds: &[u8], args: &[u64]) -> Result<bool, Error>
    ensures { result ≡ answer_of (root is_primitive_numeric)
        (reading Flat.MAX_NODES Flat.MAX_DEPTH kinds.now args.now) }
{
    ask(Predicate::IsPrimitiveNumeric, kinds, args)
}

pub fn is_temporal(kinds: &[u8], args: &[u64]) -> Result<bool, Error>
    ensures { result ≡ answer_of (root is_temporal) (reading Flat.MAX_NODES Flat.MAX_DEPTH kinds.now args.now) }
{
    ask(Predicate::IsTemporal, kinds, args)
}

// `Unknown(Float)` is one.
pub fn is_float(kinds: &[u8], args: &[u64]) -> Result<bool, Error>
    ensures { result ≡ answer_of (root is_float) (reading Flat.MAX_NODES Flat.MAX_DEPTH kinds.now args.now) }
{
    ask(Predicate::IsFloat, kinds, args)
}

// `Unknown(Int(_))` is one.
pub fn is_integer(kinds: &[u8], args: &[u64]) -> Result<bool, Error>
    ensures { result ≡ answer_of (root is_integer) (reading Flat.MAX_NODES Flat.MAX_DEPTH kinds.now args.now) }
{
    ask(Predicate::IsInteger, kinds, args)
}

pub fn is_signed_integer(kinds: &[u8], args: &[u64]) -> Result<bool, Error>
    ensures { result ≡ answer_of (root is_signed_integer) (reading Flat.MAX_NODES Flat.MAX_DEPTH kinds.now args.now) }
{
    ask(Predicate::IsSignedInteger, kinds, args)
}

pub fn is_unsigned_integer(kinds: &[u8], args: &[u64]) -> Result<bool, Error>
    ensures { result ≡ answer_of (root is_unsigned_integer) (reading Flat.MAX_NODES Flat.MAX_DEPTH kinds.now args.now) }
{
    ask(Predicate::IsUnsignedInteger, kinds, args)
}

// `Unknown(Str)` is one.
pub fn is_string(kinds: &[u8], args: &[u64]) -> Result<bool, Error>
    ensures { result ≡ answer_of (root is_string) (reading Flat.MAX_NODES Flat.MAX_DEPTH kinds.now args.now) }
{
    ask(Predicate::IsString, kinds, args)
}

pub fn is_unknown(kinds: &[u8], args: &[u64]) -> Result<bool, Error>
    ensures { result ≡ answer_of (root is_unknown) (reading Flat.MAX_NODES Flat.MAX_DEPTH kinds.now args.now) }
{
    ask(Predicate::IsUnknown, kinds, args)
}

// Whether no type in it is unknown.
pub fn is_known(kinds: &[u8], args: &[u64]) -> Result<bool, Error>
    ensures { result ≡ answer_of is_known (reading Flat.MAX_NODES Flat.MAX_DEPTH kinds.now args.now) }
{
    ask(Predicate::IsKnown, kinds, args)
}

pub fn contains_unknown(kinds: &[u8], args: &[u64]) -> Result<bool, Error>
    ensures { result ≡ answer_of contains_unknown (reading Flat.MAX_NODES Flat.MAX_DEPTH kinds.now args.now) }
{
    ask(Predicate::ContainsUnknown, kinds, args)
}

pub fn contains_list_recursive(kinds: &[u8], args: &[u64]) -> Result<bool, Error>
    ensures { result ≡ answer_of contains_list_recursive (reading Flat.MAX_NODES Flat.MAX_DEPTH kinds.now args.now) }
{
    ask(Predicate::ContainsListRecursive, kinds, args)
}

// Whether it differs from its physical form.
pub fn is_logical(kinds: &[u8], args: &[u64]) -> Result<bool, Error>
    ensures { result ≡ answer_of is_logical (reading Flat.MAX_NODES Flat.MAX_DEPTH kinds.now args.now) }
{
    ask(Predicate::IsLogical, kinds, args)
}
