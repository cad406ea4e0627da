// The calls that join two encoded types, and that merge one into a channel, by their roots. Each reads its roots and
// hands them on to the function that the call on flat types has too; a trait for what a type is read from would only
// add its two impls to these.
#![tactic(auto)]

ghost use Rattle.std.specs.Prelude.{◌≡◌};
ghost use Rattle.encoded.specs.Limits.{decoded, PutsFound};
ghost use Rattle.supertype_answer.specs.Join.{result_of, joining};
ghost use Rattle.supertype_lossless.specs.Lossless.{lossless_of};
ghost use Rattle.supertype.specs.Pair.{supertype_of};
ghost use Rattle.supertype_report.specs.Report.{types_report};
ghost use Rattle.channels.specs.Merge.{outcome_of};

use channels::{ChannelTypes, merge_codes};
use encoded::check_root;
use flat::Node;
use flat::error::Error;
use supertype::join_roots;
use supertype_lossless::upcast_roots;
use supertype_report::{Report, report_roots};

// Encodes the type that was found to the front of out: refusal 8.
fn put(found: Result<Option<Node>, Error>, out: &mut [u8]) -> Result<Option<usize>, Error>
    ensures { PutsFound (result_of found) out.old out.new result }
{
    let Some(node) = found? else {
        return Ok(None);
    };
    Ok(Some(encoded::put(&[node.kind], &[node.arg], out)?))
}

// `get_supertype_with_options`: refusals 1 to 5 of the left type, of the right, 6, then 8.
pub fn get_supertype_with_options(
    left: &[u8],
    right: &[u8],
    allow_implode_list: bool,
    allow_primitive_to_string: bool,
    out: &mut [u8],
) -> Result<Option<usize>, Error>
    ensures { let found = joining (supertype_of allow_implode_list allow_primitive_to_string) (decoded left.now)
        (decoded right.now) in
        PutsFound found out.old out.new result }
{
    let l = check_root(left);
    let r = check_root(right);
    put(join_roots(allow_primitive_to_string, l, r), out)
}

// `get_numeric_upcast_supertype_lossless`: refusals 1 to 5 of the left type, of the right, then 8.
pub fn get_numeric_upcast_supertype_lossless(
    left: &[u8],
    right: &[u8],
    out: &mut [u8],
) -> Result<Option<usize>, Error>
    ensures { PutsFound (joining lossless_of (decoded left.now) (decoded right.now)) out.old out.new result }
{
    let l = check_root(left);
    let r = check_root(right);
    put(upcast_roots(l, r), out)
}

// What joining does to the whole numbers of two columns: refusals 1 to 5 of the left type, then of the right.
pub fn join_report(left: &[u8], right: &[u8]) -> Result<Report, Error>
    ensures { result ≡ types_report (decoded left.now) (decoded right.now) }
{
    let l = check_root(left);
    let r = check_root(right);
    report_roots(l, r)
}

// Merges the type of a column into a channel of the lent codes: refusals 1 to 5, then 9 to 12.
pub fn merge(
    codes: &mut [u8; ChannelTypes::CHANNELS],
    channel: usize,
    column: &[u8],
) -> Result<u8, Error>
    ensures { record { types = record { codes = codes.new }; answer = result }
        ≡ outcome_of ChannelTypes.CHANNELS (record { codes = codes.old }) channel (decoded column.now) }
{
    let root = check_root(column);
    merge_codes(codes, channel, root)
}
