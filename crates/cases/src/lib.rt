// The marked cases of documents 01 and 02: what each call gives on small sheets, computed from the definitions.
//
// There is no code here. proofs/MarkedCases.antt has the table of calls and answers.

#![tactic(auto)]
