// How far a local optimum can be from the best: the theorems of local search, over any instance of the model.
//
// There is no code here. specs/Optimum.antt says what is claimed, proofs/Theorems.antt has the theorems.

#![tactic(auto)]
