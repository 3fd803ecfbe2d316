// The plan area: the records of a plan in an area that the caller lends.
//
// `write_plan`, with `plan_fits`, writes the plan of any set for callers that have read the sheet. Every call is total.

#![tactic(auto)]

mod open_yards;
mod plan;

pub use plan::{Total, plan_fits, write_plan};
