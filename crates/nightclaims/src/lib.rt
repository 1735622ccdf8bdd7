// What is claimed of a night that is played over a rack: no code, only claims over the definitions of
// `night` and `playing`, each in a file of `proofs/` that is named after what it claims.
#![tactic(auto)]
