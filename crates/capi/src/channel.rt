// The calls that merge a column's type into a channel: the codes of the channels are lent, or come and go by value.
ghost use Rattle.std.specs.Prelude.{◌≡◌};
ghost use Rattle.channels.specs.Merge.{outcome_of};
ghost use Rattle.capi.specs.Reply.{outcome_reply, read_encoded, read_flat};

use channels::ChannelTypes;
use flat::reply::Reply;

// The reply to a merge, beside the types as it leaves them.
#[repr(C)]
#[derive(Clone, Copy, Debug, PartialEq, Eq)]
pub struct TypesReply {
    pub reply: Reply,
    pub types: ChannelTypes,
}

// Merges the type of a column into a channel of the lent codes. Gives the code that the channel now holds.
#[unsafe(no_mangle)]
pub extern "C" fn lz_channel_merge(
    codes: &mut [u8; ChannelTypes::CHANNELS],
    channel: usize,
    column: &[u8],
) -> Reply
    ensures { let given = read_encoded column.now in
        let outcome = outcome_of ChannelTypes.CHANNELS (record { codes = codes.old }) channel given in
        record { reply = result; types = record { codes = codes.new } } ≡ outcome_reply outcome }
{
    Reply::from(encoded_join::merge(codes, channel, column))
}

// Merges a column of a flat type into a channel of the lent types. Gives the code that the channel now holds.
#[unsafe(no_mangle)]
pub extern "C" fn lz_flat_channel_merge(
    types: &mut ChannelTypes,
    channel: usize,
    kinds: &[u8],
    args: &[u64],
) -> Reply
    ensures { let outcome = outcome_of ChannelTypes.CHANNELS types.old channel (read_flat kinds.now args.now) in
        record { reply = result; types = types.new } ≡ outcome_reply outcome }
{
    Reply::from(channels::merge_in_place(types, channel, kinds, args))
}

// Merges a column of a flat type into a channel, with the types by value. Gives the code that the channel now holds.
#[unsafe(no_mangle)]
pub extern "C" fn lz_flat_channel_merged(
    types: ChannelTypes,
    channel: usize,
    kinds: &[u8],
    args: &[u64],
) -> TypesReply
    ensures { result ≡ outcome_reply (outcome_of ChannelTypes.CHANNELS types channel (read_flat kinds.now args.now)) }
{
    // No From of an outcome: a C entry point's file may not say `for`, so that no logic stands in it.
    let next = types.merge(channel, kinds, args);
    TypesReply {
        reply: Reply::from(next.answer),
        types: next.types,
    }
}
