// Whether a recorded answer is the one that a call gave.
ghost use Rattle.std.specs.Prelude.{◌≡◌, [], ◌++◌, Decides};
ghost use Rattle.replay.specs.Answer.{record_of};

use flat::reply::Reply;

// Whether the numbers are these kinds. By `zip` and `all`: of what `eq` of two iterators says no proof knows enough.
fn same_kinds(numbers: &[u64], kinds: &[u8]) -> bool
    ensures { Decides result (numbers.now ≡ kinds.now) }
{
    numbers.len() == kinds.len()
        && numbers
            .iter()
            .zip(kinds)
            .all(|(&number, &kind)| number == u64::from(kind))
}

// An answer without a result.
#[tactic(auto, unfolding(crate::specs::Answer::record_of))]
pub fn is_reply(recorded: &[u64], given: Reply) -> bool
    ensures { Decides result (recorded.now ≡ record_of given [] []) }
{
    recorded == [given.number, given.value].as_slice()
}

// Whether the numbers are these kinds and then these arguments.
fn is_result(numbers: &[u64], kinds: &[u8], args: &[u64]) -> bool
    ensures { Decides result (numbers.now ≡ kinds.now ++ args.now) }
{
    let Some((its_kinds, its_args)) = numbers.split_at_checked(kinds.len()) else {
        return false;
    };
    same_kinds(its_kinds, kinds) && its_args == args
}

// An answer whose result is kinds and arguments.
#[tactic(auto, unfolding(crate::specs::Answer::record_of))]
pub fn is_answer(recorded: &[u64], given: Reply, kinds: &[u8], args: &[u64]) -> bool
    ensures { Decides result (recorded.now ≡ record_of given kinds.now args.now) }
{
    let [number, value, result @ ..] = recorded else {
        return false;
    };
    *number == given.number && *value == given.value && is_result(result, kinds, args)
}
