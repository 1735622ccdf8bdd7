// What the port's demands say in plain terms: no code, only claims over the port's definitions, each in
// a file of `proofs/` that is named after what it claims. docs/PROMISES.md leads here.
#![tactic(auto)]
