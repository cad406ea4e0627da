// The rules of dtype.rs on flat types, for callers that keep types in two arrays.
ghost use Rattle.std.specs.Prelude.{◌≡◌};
ghost use Rattle.std.specs.Prelude.{Some};
ghost use Rattle.dtype.specs.Equality.{equal};
ghost use Rattle.dtype.specs.Recursive.{is_known};
ghost use Rattle.dtype.specs.Answer.{answer_of, answers_of};
ghost use Rattle.dtype_inner.specs.Inner.{inner_dtype, leaf_dtype, array_leaf_dtype};
ghost use Rattle.dtype_inner.specs.Part.{inner_of};
ghost use Rattle.dtype_cast.specs.Verdict.{cast_of};
ghost use Rattle.dtype_build.specs.Build.{materialized, physical};
ghost use Rattle.capi.specs.Reply.{answer_reply, verdict_reply, optional_reply, RepliesArrays, flag_on, read_flat};

use flat::reply::Reply;

// Whether no type in it is unknown.
#[unsafe(no_mangle)]
pub extern "C" fn lz_flat_is_known(kinds: &[u8], args: &[u64]) -> Reply
    ensures { result ≡ answer_reply (answer_of is_known (read_flat kinds.now args.now)) }
{
    Reply::from(dtype::is_known(kinds, args))
}

// Whether two types are equal.
#[unsafe(no_mangle)]
pub extern "C" fn lz_flat_equal(
    left_kinds: &[u8],
    left_args: &[u64],
    right_kinds: &[u8],
    right_args: &[u64],
) -> Reply
    ensures { let left = read_flat left_kinds.now left_args.now in
        result ≡ answer_reply (answers_of equal left (read_flat right_kinds.now right_args.now)) }
{
    Reply::from(dtype_eq::equal(left_kinds, left_args, right_kinds, right_args))
}

// Whether the cast makes sense.
#[unsafe(no_mangle)]
pub extern "C" fn lz_flat_can_cast_to(
    from_kinds: &[u8],
    from_args: &[u64],
    to_kinds: &[u8],
    to_args: &[u64],
) -> Reply
    ensures { let from = read_flat from_kinds.now from_args.now in
        result ≡ verdict_reply (cast_of from (read_flat to_kinds.now to_args.now)) }
{
    Reply::from(dtype_cast::can_cast_to(from_kinds, from_args, to_kinds, to_args))
}

// The type under a List or an Array: how many nodes it has, which stand at the end of kinds and args; 0 for None.
#[unsafe(no_mangle)]
pub extern "C" fn lz_flat_inner_dtype(kinds: &[u8], args: &[u64]) -> Reply
    ensures { result ≡ optional_reply (inner_of inner_dtype (read_flat kinds.now args.now)) }
{
    Reply::from(dtype_inner::inner_dtype(kinds, args))
}

// The type under all Lists and Arrays: how many nodes it has, which stand at the end of kinds and args.
#[unsafe(no_mangle)]
pub extern "C" fn lz_flat_leaf_dtype(kinds: &[u8], args: &[u64]) -> Reply
    ensures { result ≡ optional_reply (inner_of (λ t. Some (leaf_dtype t)) (read_flat kinds.now args.now)) }
{
    Reply::from(dtype_inner::leaf_dtype(kinds, args))
}

// The type under an Array's consecutive Arrays: how many nodes it has, which stand at the end of kinds and args; 0 for
// None.
#[unsafe(no_mangle)]
pub extern "C" fn lz_flat_array_leaf_dtype(kinds: &[u8], args: &[u64]) -> Reply
    ensures { result ≡ optional_reply (inner_of array_leaf_dtype (read_flat kinds.now args.now)) }
{
    Reply::from(dtype_inner::array_leaf_dtype(kinds, args))
}

// The type with each unknown type made known, to the front of out_kinds and out_args; any is allowed unless
// allow_unknown is 0. Gives its number of nodes.
#[unsafe(no_mangle)]
pub extern "C" fn lz_flat_materialize_unknown(
    kinds: &[u8],
    args: &[u64],
    allow_unknown: u8,
    out_kinds: &mut [u8],
    out_args: &mut [u64],
) -> Reply
    ensures { let known = materialized (flag_on allow_unknown) (read_flat kinds.now args.now) in
        RepliesArrays known out_kinds.old out_args.old out_kinds.new out_args.new result }
{
    Reply::from(dtype_build::materialize_unknown(
        kinds,
        args,
        allow_unknown != 0,
        out_kinds,
        out_args,
    ))
}

// The type's physical form, to the front of out_kinds and out_args. Gives its number of nodes.
#[unsafe(no_mangle)]
pub extern "C" fn lz_flat_to_physical(
    kinds: &[u8],
    args: &[u64],
    out_kinds: &mut [u8],
    out_args: &mut [u64],
) -> Reply
    ensures { let form = physical (read_flat kinds.now args.now) in
        RepliesArrays form out_kinds.old out_args.old out_kinds.new out_args.new result }
{
    Reply::from(dtype_build::to_physical(kinds, args, out_kinds, out_args))
}
