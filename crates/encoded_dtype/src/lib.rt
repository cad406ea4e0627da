// The calls of dtype.rs on one encoded type: predicates, parts, the shape of an Array, and the forms that it is built
// in anew.
#![tactic(auto)]

mod part;

ghost use Rattle.std.specs.Prelude.{◌≡◌, ◌≤◌, Some, IfSome};
ghost use Rattle.flat.specs.Reading.{type};
ghost use Rattle.encoded.specs.Limits.{decoded, counted, PutsType, PutsFound};
ghost use Rattle.dtype.specs.Answer.{answer_of};
ghost use Rattle.dtype.specs.Predicates.{predicate_of};
ghost use Rattle.dtype_inner.specs.Inner.{inner_dtype, leaf_dtype, array_leaf_dtype};
ghost use Rattle.dtype_inner.specs.Part.{part_reading};
ghost use Rattle.dtype_inner.specs.Shape.{shape_of};
ghost use Rattle.dtype_build.specs.Build.{materialized, physical};
ghost use Rattle.dtype_build.specs.Leaf.{leaf_with};
ghost use Rattle.encoded_dtype.specs.Forms.{form_of};

use dtype::predicate::{Predicate, told_by};
use dtype_build::any_refused;
use dtype_build::leaf::{Form, Materialized, Physical};
use dtype_build::walk::node_form;
use dtype_inner::Shape;
use encoded::Encoding;
use flat::error::Error;
use flat::{Flat, Node};
use part::{ArrayLeaf, Inner, Leaf, Part};

// What a predicate says of any type, told by the kinds where they stand.
fn ask_nodes(p: Predicate, encoded: &[u8]) -> Result<bool, Error>
    ensures { result ≡ answer_of (predicate_of p) (decoded encoded.now) }
{
    encoded::check(encoded)?;
    let n = encoded::node_count(encoded).unwrap();
    Ok(told_by(p, &encoded[2..2 + n]))
}

// What a predicate says of the type: refusals 1 to 5.
pub fn ask(p: Predicate, encoded: &[u8]) -> Result<bool, Error>
    ensures { result ≡ answer_of (predicate_of p) (decoded encoded.now) }
{
    if encoded::is_plain(encoded) {
        return Ok(told_by(p, &encoded[2..3]));
    }
    ask_nodes(p, &encoded[0..])
}

// Encodes a part of a type, with an array of its own for at most N arguments.
fn put_part_in<P: Part, const N: usize>(
    encoded: &[u8],
    out: &mut [u8],
) -> Result<Option<usize>, Error>
    requires { IfSome (counted encoded.now) (λ n. n ≤ N) × (N ≤ Flat.MAX_NODES) }
    ensures { PutsFound (part_reading P.part (decoded encoded.now)) out.old out.new result }
{
    let mut args = [0u64; N];
    let whole = encoded::open(encoded, &mut args)?;
    let Some(nodes) = P::nodes(whole.kinds) else {
        return Ok(None);
    };
    let at = whole.kinds.len() - nodes;
    Ok(Some(encoded::put(&whole.kinds[at..], &whole.args[at..], out)?))
}

// Encodes a part of a type to the front of out: refusals 1 to 5, then 8. None where there is none.
fn put_part<P: Part>(encoded: &[u8], out: &mut [u8]) -> Result<Option<usize>, Error>
    ensures { PutsFound (part_reading P.part (decoded encoded.now)) out.old out.new result }
{
    if encoded::node_count(encoded).is_none_or(|n| n <= Encoding::FEW) {
        return put_part_in::<P, { Encoding::FEW }>(encoded, out);
    }
    put_part_in::<P, { Flat::MAX_NODES }>(encoded, out)
}

// Encodes the type under a List or an Array to the front of out: refusals 1 to 5, then 8. None where there is none.
pub fn inner_dtype(encoded: &[u8], out: &mut [u8]) -> Result<Option<usize>, Error>
    ensures { PutsFound (part_reading inner_dtype (decoded encoded.now)) out.old out.new result }
{
    put_part::<Inner>(encoded, out)
}

// Encodes the type under all Lists and Arrays to the front of out: refusals 1 to 5, then 8.
pub fn leaf_dtype(encoded: &[u8], out: &mut [u8]) -> Result<Option<usize>, Error>
    ensures { let part = part_reading (λ t. Some (leaf_dtype t)) (decoded encoded.now) in
        PutsFound part out.old out.new result }
{
    put_part::<Leaf>(encoded, out)
}

// Encodes the type under an Array's consecutive Arrays to the front of out: refusals 1 to 5, then 8. None where there
// is none.
pub fn array_leaf_dtype(encoded: &[u8], out: &mut [u8]) -> Result<Option<usize>, Error>
    ensures { PutsFound (part_reading array_leaf_dtype (decoded encoded.now)) out.old out.new result }
{
    put_part::<ArrayLeaf>(encoded, out)
}

// The shape, with an array of its own for at most N arguments.
fn shape_in<const N: usize>(encoded: &[u8]) -> Result<Shape, Error>
    requires { IfSome (counted encoded.now) (λ n. n ≤ N) × (N ≤ Flat.MAX_NODES) }
    ensures { result ≡ shape_of Flat.MAX_DEPTH (decoded encoded.now) }
{
    let mut args = [0u64; N];
    let whole = encoded::open(encoded, &mut args)?;
    Ok(dtype_inner::array_shape(whole.kinds, whole.args))
}

// The widths down an Array's consecutive Arrays: refusals 1 to 5.
pub fn get_shape(encoded: &[u8]) -> Result<Shape, Error>
    ensures { result ≡ shape_of Flat.MAX_DEPTH (decoded encoded.now) }
{
    if encoded::node_count(encoded).is_none_or(|n| n <= Encoding::FEW) {
        return shape_in::<{ Encoding::FEW }>(encoded);
    }
    shape_in::<{ Flat::MAX_NODES }>(encoded)
}

// Encodes a plain leaf in the form F to the front of out: it needs no arrays.
fn put_plain<F: Form>(kind: u8, out: &mut [u8]) -> Result<usize, Error>
    ensures { PutsType (type (leaf_with F.kind_in kind 0)) out.old out.new result }
{
    let new = F::kind(Node { kind, arg: 0 });
    encoded::put(&[new], &[0], out)
}

// Builds the type in the form F in arrays of its own for at most N nodes, and encodes it from there to the front of
// out.
fn form_in<F: Form, const N: usize>(
    allow_unknown: bool,
    encoded: &[u8],
    out: &mut [u8],
) -> Result<usize, Error>
    requires { IfSome (counted encoded.now) (λ n. n ≤ N) × (N ≤ Flat.MAX_NODES) }
    ensures { PutsType (form_of F.kind_in allow_unknown (decoded encoded.now)) out.old out.new result }
{
    let mut args = [0u64; N];
    let whole = encoded::open(encoded, &mut args)?;
    if any_refused(whole.kinds, allow_unknown) {
        return Err(Error::Unknown);
    }
    let mut new_kinds = [0u8; N];
    let mut new_args = [0u64; N];
    let m = node_form::<F>(whole.kinds, whole.args, &mut new_kinds, &mut new_args);
    encoded::put(&new_kinds[..m], &new_args[..m], out)
}

// Encodes the type in the form F to the front of out. Small and large arrays stand in functions of their own, so that
// no call has both on its stack.
fn form_of<F: Form>(allow_unknown: bool, encoded: &[u8], out: &mut [u8]) -> Result<usize, Error>
    ensures { PutsType (form_of F.kind_in allow_unknown (decoded encoded.now)) out.old out.new result }
{
    if encoded.len() <= 2 + (Encoding::ARGUMENT_BYTES + 1) * Encoding::FEW {
        return form_in::<F, { Encoding::FEW }>(allow_unknown, encoded, out);
    }
    form_in::<F, { Flat::MAX_NODES }>(allow_unknown, encoded, out)
}

// The type with each unknown type made known: refusals 1 to 5, 7, then 8.
pub fn materialize_unknown(
    encoded: &[u8],
    allow_unknown: bool,
    out: &mut [u8],
) -> Result<usize, Error>
    ensures { PutsType (materialized allow_unknown (decoded encoded.now)) out.old out.new result }
{
    if encoded::is_plain(encoded) {
        if any_refused(&encoded[2..3], allow_unknown) {
            return Err(Error::Unknown);
        }
        return put_plain::<Materialized>(encoded[2], out);
    }
    form_of::<Materialized>(allow_unknown, &encoded[0..], out)
}

// Its physical form: refusals 1 to 5, then 8. An `Unknown(Any)` is no reason to refuse it.
pub fn to_physical(encoded: &[u8], out: &mut [u8]) -> Result<usize, Error>
    ensures { PutsType (physical (decoded encoded.now)) out.old out.new result }
{
    if encoded::is_plain(encoded) {
        return put_plain::<Physical>(encoded[2], out);
    }
    form_of::<Physical>(true, &encoded[0..], out)
}
