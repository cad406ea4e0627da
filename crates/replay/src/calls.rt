// The calls, by the numbers of their entry points. A line has the types of a call, then its other inputs, then its
// answer.
use crate::answer::{is_answer, is_reply};
use crate::output::is_written;
use crate::reader::{Fault, Line};
use channels::ChannelTypes;
use dtype::time_units::coarser_unit;
use dtype_cast::can_cast_to;
use dtype_eq::{contains_dtype_recursive, equal};
use dtype_inner::{
    array_leaf_dtype, array_leaf_dtype_args, array_leaf_dtype_kinds, get_shape, inner_dtype,
    inner_dtype_args, inner_dtype_kinds, leaf_dtype, leaf_dtype_args, leaf_dtype_kinds,
};
use flat::error::Error;
use flat::reply::{Reply, Value};
use std::array;
use supertype::get_supertype_with_options;
use supertype_lossless::get_numeric_upcast_supertype_lossless;
use supertype_report::join_report;

// A call on one type, whose answer has no result.
fn on_one<T: Value, F: FnOnce(&[u8], &[u64]) -> Result<T, Error>>(
    mut line: Line<'_>,
    call: F,
) -> Result<bool, Fault>
    requires { F.IsAlwaysCallable call }
{
    let read = line.read_type()?;
    Ok(is_reply(line.rest, call(&read.kinds, read.args).into()))
}

// A call on two types, whose answer has no result.
fn on_two<T: Value, F: FnOnce(&[u8], &[u64], &[u8], &[u64]) -> Result<T, Error>>(
    mut line: Line<'_>,
    call: F,
) -> Result<bool, Fault>
    requires { F.IsAlwaysCallable call }
{
    let left = line.read_type()?;
    let right = line.read_type()?;
    let answer = call(&left.kinds, left.args, &right.kinds, right.args);
    Ok(is_reply(line.rest, answer.into()))
}

// A call that gives a part of a type: how many nodes it has, its kinds and its arguments. The room is recorded first.
// The port gives parts of the input and the recorded call copies, so only that one is refused for its room.
fn on_part<
    N: FnOnce(&[u8], &[u64]) -> Result<Option<usize>, Error>,
    K: for<'a> FnOnce(&'a [u8], &[u64]) -> &'a [u8],
    A: for<'a> FnOnce(&[u8], &'a [u64]) -> &'a [u64],
>(mut line: Line<'_>, nodes: N, kinds: K, args: A) -> Result<bool, Fault>
    requires nodes { N.IsAlwaysCallable nodes }
    requires kinds { K.IsAlwaysCallable kinds }
    requires args { A.IsAlwaysCallable args }
{
    let read = line.read_type()?;
    let room = line.number()?;
    let given = Reply::from(nodes(&read.kinds, read.args));
    if given.value > room {
        let refused: Result<(), Error> = Err(Error::OutputTooShort);
        return Ok(is_reply(line.rest, refused.into()));
    }
    let part_kinds = kinds(&read.kinds, read.args);
    let part_args = args(&read.kinds, read.args);
    Ok(is_answer(line.rest, given, part_kinds, part_args))
}

fn is_physical(mut line: Line<'_>) -> Result<bool, Fault> {
    let read = line.read_type()?;
    is_written(line, |kinds, args| {
        dtype_build::to_physical(&read.kinds, read.args, kinds, args)
    })
}

// The flag is recorded first.
fn is_materialized(mut line: Line<'_>) -> Result<bool, Fault> {
    let read = line.read_type()?;
    let allow_unknown = line.flag()?;
    is_written(line, |kinds, args| {
        dtype_build::materialize_unknown(&read.kinds, read.args, allow_unknown, kinds, args)
    })
}

// The widths are recorded as arguments; unused ones are 0.
fn is_shaped(mut line: Line<'_>) -> Result<bool, Fault> {
    let read = line.read_type()?;
    let shape = get_shape(&read.kinds, read.args);
    let given = Reply::from(shape.map(|shape| shape.count));
    let Ok(shape) = shape else {
        return Ok(is_reply(line.rest, given));
    };
    let (widths, unused) = shape
        .widths
        .split_at_checked(shape.count)
        .ok_or(Fault::Unreadable)?;
    Ok(unused.iter().all(|&width| width == 0) && is_answer(line.rest, given, &[], widths))
}

// The channel and the codes are recorded first, and as the result the codes that the merge leaves, beside a refusal
// too.
fn is_merged(mut line: Line<'_>) -> Result<bool, Fault> {
    let read = line.read_type()?;
    let channel = line.number()? as usize;
    let codes = array::try_from_fn(|_| line.byte())?;
    let merged = ChannelTypes { codes }.merge(channel, &read.kinds, read.args);
    let answer = merged.answer.into();
    Ok(is_answer(line.rest, answer, &merged.types.codes, &[]))
}

fn is_lossless(mut line: Line<'_>) -> Result<bool, Fault> {
    let left = line.read_type()?;
    let right = line.read_type()?;
    is_written(line, |kinds, args| {
        get_numeric_upcast_supertype_lossless(
            &left.kinds,
            left.args,
            &right.kinds,
            right.args,
            kinds,
            args,
        )
    })
}

// The flags are recorded first.
fn is_supertype(mut line: Line<'_>) -> Result<bool, Fault> {
    let left = line.read_type()?;
    let right = line.read_type()?;
    let implode_list = line.flag()?;
    let to_string = line.flag()?;
    is_written(line, |kinds, args| {
        get_supertype_with_options(
            &left.kinds,
            left.args,
            &right.kinds,
            right.args,
            implode_list,
            to_string,
            kinds,
            args,
        )
    })
}

// Units stand by their numbers.
fn is_coarser_unit(mut line: Line<'_>) -> Result<bool, Fault> {
    let left = line.byte()?;
    let right = line.byte()?;
    Ok(is_reply(line.rest, coarser_unit(left, right).into()))
}

// Whether the port answers a call as a line has it.
pub fn agrees(mut line: Line<'_>) -> Result<bool, Fault> {
    // An enum of the entry points would say each number with a name, and each name again with its call.
    match line.number()? {
        1 => on_one(line, flat::check),
        2 => on_one(line, dtype::is_nested),
        3 => on_one(line, dtype::is_known),
        4 => on_one(line, dtype::is_logical),
        5 => on_one(line, dtype::is_primitive),
        6 => on_one(line, dtype::is_primitive_numeric),
        7 => on_one(line, dtype::is_temporal),
        8 => on_one(line, dtype::is_float),
        9 => on_one(line, dtype::is_integer),
        10 => on_one(line, dtype::is_signed_integer),
        11 => on_one(line, dtype::is_unsigned_integer),
        12 => on_one(line, dtype::is_string),
        13 => on_one(line, dtype::is_unknown),
        14 => on_one(line, dtype::contains_unknown),
        15 => on_one(line, dtype::contains_list_recursive),
        16 => on_two(line, equal),
        17 => on_two(line, contains_dtype_recursive),
        18 => on_two(line, can_cast_to),
        19 => on_part(line, inner_dtype, inner_dtype_kinds, inner_dtype_args),
        20 => on_part(line, leaf_dtype, leaf_dtype_kinds, leaf_dtype_args),
        21 => on_part(
            line,
            array_leaf_dtype,
            array_leaf_dtype_kinds,
            array_leaf_dtype_args,
        ),
        22 => is_physical(line),
        23 => is_materialized(line),
        24 => is_shaped(line),
        25 => is_coarser_unit(line),
        26 => is_lossless(line),
        27 => is_supertype(line),
        28 => on_two(line, join_report),
        29 => is_merged(line),
        _ => Err(Fault::Unreadable),
    }
}
