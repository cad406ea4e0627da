// The calls that join two types.
ghost use Rattle.std.specs.Prelude.{◌≡◌, not};
ghost use Rattle.supertype_answer.specs.Join.{joining};
ghost use Rattle.supertype_lossless.specs.Lossless.{lossless_of};
ghost use Rattle.supertype.specs.Pair.{supertype_of};
ghost use Rattle.supertype_report.specs.Report.{types_report};
ghost use Rattle.capi.specs.Reply.{report_reply, flag_on, read_encoded, read_flat};
ghost use Rattle.capi.specs.Reply.{RepliesFoundArrays, RepliesFoundBytes};

use flat::reply::Reply;

// The type that two columns get when they are joined, encoded to the front of out; each flag is off where it is 0.
// Gives the number of bytes, 0 for None.
#[unsafe(no_mangle)]
pub extern "C" fn lz_get_supertype_with_options(
    left: &[u8],
    right: &[u8],
    allow_implode_list: u8,
    allow_primitive_to_string: u8,
    out: &mut [u8],
) -> Reply
    ensures { let rule = supertype_of (flag_on allow_implode_list) (flag_on allow_primitive_to_string) in
        let found = joining rule (read_encoded left.now) (read_encoded right.now) in
        RepliesFoundBytes found out.old out.new result }
{
    Reply::from(encoded_join::get_supertype_with_options(
        left,
        right,
        allow_implode_list != 0,
        allow_primitive_to_string != 0,
        out,
    ))
}

// The smallest numeric type that keeps every number of both, where there is one and the two differ, encoded to the
// front of out. Gives the number of bytes, 0 for None.
#[unsafe(no_mangle)]
pub extern "C" fn lz_get_numeric_upcast_supertype_lossless(
    left: &[u8],
    right: &[u8],
    out: &mut [u8],
) -> Reply
    ensures { let found = joining lossless_of (read_encoded left.now) (read_encoded right.now) in
        RepliesFoundBytes found out.old out.new result }
{
    Reply::from(encoded_join::get_numeric_upcast_supertype_lossless(left, right, out))
}

// What joining does to the whole numbers of two columns: 0 the supertype keeps all of both, 1 it doesn't and an integer
// type does, 2 it doesn't and none does, 3 they are not two integer types.
#[unsafe(no_mangle)]
pub extern "C" fn lz_join_report(left: &[u8], right: &[u8]) -> Reply
    ensures { result ≡ report_reply (types_report (read_encoded left.now) (read_encoded right.now)) }
{
    Reply::from(encoded_join::join_report(left, right))
}

// The supertype of two flat types, to the front of out_kinds and out_args. Gives the number of nodes, 0 for None.
#[unsafe(no_mangle)]
pub extern "C" fn lz_flat_get_supertype_with_options(
    left_kinds: &[u8],
    left_args: &[u64],
    right_kinds: &[u8],
    right_args: &[u64],
    allow_implode_list: u8,
    allow_primitive_to_string: u8,
    out_kinds: &mut [u8],
    out_args: &mut [u64],
) -> Reply
    ensures { let rule = supertype_of (flag_on allow_implode_list) (flag_on allow_primitive_to_string) in
        let found = joining rule (read_flat left_kinds.now left_args.now) (read_flat right_kinds.now right_args.now) in
        RepliesFoundArrays found out_kinds.old out_args.old out_kinds.new out_args.new result }
{
    Reply::from(supertype::get_supertype_with_options(
        left_kinds,
        left_args,
        right_kinds,
        right_args,
        allow_implode_list != 0,
        allow_primitive_to_string != 0,
        out_kinds,
        out_args,
    ))
}

// The lossless upcast of two flat types, to the front of out_kinds and out_args. Gives the number of nodes, 0 for None.
#[unsafe(no_mangle)]
pub extern "C" fn lz_flat_get_numeric_upcast_supertype_lossless(
    left_kinds: &[u8],
    left_args: &[u64],
    right_kinds: &[u8],
    right_args: &[u64],
    out_kinds: &mut [u8],
    out_args: &mut [u64],
) -> Reply
    ensures { let left = read_flat left_kinds.now left_args.now in
        let found = joining lossless_of left (read_flat right_kinds.now right_args.now) in
        RepliesFoundArrays found out_kinds.old out_args.old out_kinds.new out_args.new result }
{
    Reply::from(supertype_lossless::get_numeric_upcast_supertype_lossless(
        left_kinds,
        left_args,
        right_kinds,
        right_args,
        out_kinds,
        out_args,
    ))
}
