// Which arm of `get_supertype_with_options` of supertype.rs answers for two kinds, in rows by the lesser kind. The arms
// stand in specs/Supertype.antt.
#![tactic(auto)]

pub mod number;
pub mod plan;
mod row;
