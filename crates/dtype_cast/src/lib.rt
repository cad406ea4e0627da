// Which casts make sense: `can_cast_to` of dtype.rs.
#![tactic(auto)]

mod roots;
pub mod scan;
mod walk;

ghost use Rattle.std.specs.Prelude.{◌≡◌};
ghost use Rattle.flat.specs.Reading.{reading};
ghost use Rattle.flat.specs.Walk.{Valid, type_at};
ghost use Rattle.dtype_cast.specs.Cast.{can_cast_to};
ghost use Rattle.dtype_cast.specs.Verdict.{cast_of};

use flat::Flat;
use flat::error::Error;
use walk::NotYes;

// The walk's verdict on two types that were checked, at the front of the arrays: the source's Option, None where it is
// not sure.
fn walk_verdict(
    from_kinds: &[u8],
    from_args: &[u64],
    to_kinds: &[u8],
    to_args: &[u64],
) -> Option<bool>
    requires from_valid { Valid from_kinds.now from_args.now }
    requires to_valid { Valid to_kinds.now to_args.now }
    ensures { let from = type_at from_kinds.now from_args.now in
        let to = type_at to_kinds.now to_args.now in
        result ≡ can_cast_to from to }
{
    match walk::node_cast(from_kinds, from_args, to_kinds, to_args) {
        Ok(_) => Some(true),
        Err(NotYes::No) => Some(false),
        Err(NotYes::NoVerdict) => None,
    }
}

// The verdict on two types that were checked, at the front of the arrays: the scan says yes, or the walk decides.
pub fn checked_cast(
    from_kinds: &[u8],
    from_args: &[u64],
    to_kinds: &[u8],
    to_args: &[u64],
) -> Option<bool>
    requires from_valid { Valid from_kinds.now from_args.now }
    requires to_valid { Valid to_kinds.now to_args.now }
    ensures { let from = type_at from_kinds.now from_args.now in
        let to = type_at to_kinds.now to_args.now in
        result ≡ can_cast_to from to }
{
    if scan::all_yes(from_kinds, from_args, to_kinds, to_args) {
        return Some(true);
    }
    walk_verdict(from_kinds, from_args, to_kinds, to_args)
}

// Whether the cast makes sense: each type is checked once, then both have a verdict. The scan settles most casts, and
// is asked here and not behind a call, for which the slices would be stored.
pub fn can_cast_to(
    from_kinds: &[u8],
    from_args: &[u64],
    to_kinds: &[u8],
    to_args: &[u64],
) -> Result<Option<bool>, Error>
    ensures { let from = reading Flat.MAX_NODES Flat.MAX_DEPTH from_kinds.now from_args.now in
        let to = reading Flat.MAX_NODES Flat.MAX_DEPTH to_kinds.now to_args.now in
        result ≡ cast_of from to }
{
    flat::check(from_kinds, from_args)?;
    flat::check(to_kinds, to_args)?;
    if !scan::all_yes(from_kinds, from_args, to_kinds, to_args) {
        return Ok(walk_verdict(from_kinds, from_args, to_kinds, to_args));
    }
    Ok(Some(true))
}
