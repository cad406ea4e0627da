// The worked cases of document 01 and of the requests: one table over all the definitions (specs/Cases.antt), and one
// claim, which holds at the code's own limits (proofs/Claim.antt).
#![tactic(auto)]
