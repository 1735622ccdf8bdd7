// The demands in plain terms: no code, only claims over the layers below, each in a file of
// `proofs/` that is named after what it claims. docs/PROMISES.md leads here.
#![tactic(auto)]
