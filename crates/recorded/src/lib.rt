// Recorded answers of the crate's own text, which the prover computes from the definitions.
#![tactic(auto)]
