// `get_supertype_with_options` of supertype.rs for all types, on flat types.
#![tactic(auto)]

mod walk;
