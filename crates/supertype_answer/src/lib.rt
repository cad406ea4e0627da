// What a call answers that joins two types: the source's Option, the type that two types have in common, where there is
// one, or the refusal of the call.
#![tactic(auto)]

ghost use Rattle.std.specs.Prelude.{length};
ghost use Rattle.flat.specs.Output.{fitting_found, WritesFound};
ghost use Rattle.supertype_answer.specs.Join.{result_of};

use flat::Node;
use flat::error::Error;

// Writes the type that was found to the front of out_kinds and out_args: refusal 8.
#[inline(always)]
pub fn put(
    found: Result<Option<Node>, Error>,
    out_kinds: &mut [u8],
    out_args: &mut [u64],
) -> Result<Option<usize>, Error>
    ensures { let ks = out_kinds.old in
        let xs = out_args.old in
        let fitted = fitting_found (length ks) (length xs) (result_of found) in
        WritesFound fitted ks xs out_kinds.new out_args.new result }
{
    let Some(node) = found? else {
        return Ok(None);
    };
    if out_kinds.is_empty() || out_args.is_empty() {
        return Err(Error::OutputTooShort);
    }
    out_kinds[0] = node.kind;
    out_args[0] = node.arg;
    Ok(Some(1))
}
