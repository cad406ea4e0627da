// The calls that write a type to lent arrays: what they write, and that they leave the rest as it was.
use crate::answer::is_answer;
use crate::reader::{Fault, Line, NODES};
use flat::error::Error;
use flat::reply::{Reply, Value};

// What stands in the arrays before a call: no kind, and an argument that no recorded type has.
const KIND: u8 = 255;

const ARG: u64 = 0x5EED_5EED_5EED_5EED;

// Whether a reply and its result, which has as many nodes as the reply's value says, are the recorded ones, and past
// the result nothing is changed.
fn is_output(given: Reply, kinds: &[u8], args: &[u64], recorded: &[u64]) -> bool {
    let nodes = given.value as usize;
    let Some((kinds, kinds_after)) = kinds.split_at_checked(nodes) else {
        return false;
    };
    let Some((args, args_after)) = args.split_at_checked(nodes) else {
        return false;
    };
    kinds_after.iter().all(|&kind| kind == KIND)
        && args_after.iter().all(|&arg| arg == ARG)
        && is_answer(recorded, given, kinds, args)
}

// Whether a call writes a type as recorded. How many places of the arrays it is given, no more
// than NODES, is recorded first.
pub fn is_written<T: Value, F: FnOnce(&mut [u8], &mut [u64]) -> Result<T, Error>>(
    mut line: Line<'_>,
    call: F,
) -> Result<bool, Fault>
    requires { F.IsAlwaysCallable call }
{
    let room = line.number()? as usize;
    if room > NODES {
        return Err(Fault::Unreadable);
    }
    let mut kinds = vec![in line.alloc; KIND; room]?;
    let mut args = vec![in line.alloc; ARG; room]?;
    let answer = call(&mut kinds, &mut args);
    Ok(is_output(answer.into(), &kinds, &args, line.rest))
}
