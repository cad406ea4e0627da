// `get_supertype_with_options` of supertype.rs for all types, nested ones among them. It stands in specs/Nested.antt.
#![tactic(auto)]
