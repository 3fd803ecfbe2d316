// The model: uncapacitated facility location as plain functions on numbers, local search, and their laws.
//
// There is no code here. specs/ has the definitions that every contract cites, proofs/ the laws about them.

#![tactic(auto)]
