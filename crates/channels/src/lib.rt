// The type of each channel, document 01's season record: a column's type is merged into a channel (document 01's offer)
// without ever losing a number.
#![tactic(auto)]

ghost use Rattle.std.specs.Prelude.{◌≡◌, ◌||◌, eqb};
ghost use Rattle.flat.specs.Reading.{reading};
ghost use Rattle.supertype_numbers.specs.Range.{is_listed};
ghost use Rattle.flat.specs.Both.{root_reading};
ghost use Rattle.channels.specs.Merge.{merged_with, started, outcome_of};

use flat::error::Error;
use flat::kind::Kind;
use flat::{Flat, Node};
use supertype_lossless::upcast::upcast_kinds;
use supertype_numbers::integer::is_listed;

// For each channel the kind of the integer type that it holds, or 0 while it is empty.
#[repr(C)]
#[derive(Clone, Copy, Debug, PartialEq, Eq)]
pub struct ChannelTypes {
    pub codes: [u8; ChannelTypes::CHANNELS],
}

// What a merge answers, the code that its channel now holds or the refusal, beside the types as it leaves them.
#[derive(Clone, Copy, Debug, PartialEq, Eq)]
pub struct Outcome {
    pub types: ChannelTypes,
    pub answer: Result<u8, Error>,
}

// Whether a channel may hold a code: 0, or an integer type's.
fn is_channel_code(code: u8) -> bool
    ensures { result ≡ (eqb code 0 || is_listed code) }
{
    code == 0 || is_listed(code)
}

// The answer of a channel that holds `held` to a column of this kind: refusals 10, 11 and 12. A column of type Null has
// no number that the channel could miss, and leaves it as it is.
fn merge_kind(held: u8, kind: u8) -> Result<u8, Error>
    ensures { result ≡ merged_with held kind }
{
    if !is_channel_code(held) {
        return Err(Error::ChannelCode);
    }
    if !is_listed(kind) {
        return match kind {
            Kind::NULL => Ok(held),
            _ => Err(Error::NotInteger),
        };
    }
    if held == 0 {
        return Ok(kind);
    }
    if held == kind {
        return Ok(held);
    }
    match upcast_kinds(held, kind) {
        Some(code) => Ok(code),
        None => Err(Error::NoUpcast),
    }
}

// Merges a column, told by the root of its type, into a channel of the lent codes: its refusal, then 9 to 12.
pub fn merge_codes(
    codes: &mut [u8; ChannelTypes::CHANNELS],
    channel: usize,
    column: Result<Node, Error>,
) -> Result<u8, Error>
    ensures { record { types = record { codes = codes.new }; answer = result }
        ≡ outcome_of ChannelTypes.CHANNELS (record { codes = codes.old }) channel (root_reading column) }
{
    let root = column?;
    if channel >= ChannelTypes::CHANNELS {
        return Err(Error::Channel);
    }
    let code = merge_kind(codes[channel], root.kind)?;
    codes[channel] = code;
    Ok(code)
}

impl ChannelTypes {
    // The number of channels.
    pub const CHANNELS: usize = 32;

    // All channels empty.
    pub fn empty() -> Self
        ensures { result ≡ started ChannelTypes.CHANNELS }
    {
        Self {
            codes: [0; ChannelTypes::CHANNELS],
        }
    }

    // Merges a column's type into a channel, by value: refusals 1 to 5, then 9 to 12.
    pub fn merge(self, channel: usize, kinds: &[u8], args: &[u64]) -> Outcome
        ensures { let column = reading Flat.MAX_NODES Flat.MAX_DEPTH kinds.now args.now in
            result ≡ outcome_of ChannelTypes.CHANNELS self channel column }
    {
        let mut types = self;
        let answer = merge_in_place(&mut types, channel, kinds, args);
        Outcome { types, answer }
    }
}

// Merges a column's type into a channel of the lent types: refusals 1 to 5, then 9 to 12. The codes are lent on, of
// which a merge reads one and writes one.
pub fn merge_in_place(
    types: &mut ChannelTypes,
    channel: usize,
    kinds: &[u8],
    args: &[u64],
) -> Result<u8, Error>
    ensures { let column = reading Flat.MAX_NODES Flat.MAX_DEPTH kinds.now args.now in
        record { types = types.new; answer = result } ≡ outcome_of ChannelTypes.CHANNELS types.old channel column }
{
    merge_codes(&mut types.codes, channel, flat::check_root(kinds, args))
}
