// Which numbers a column could hold: the integer types (one table of width and sign), and the dyn integer helpers of
// supertype.rs.
#![tactic(auto)]

pub mod dyn_int;
pub mod integer;
