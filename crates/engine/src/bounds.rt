// The numbers of the engine (specs/Bounds.antt says what each is for).
use tables::{MOST_CLIENTS, MOST_ENTRY, MOST_FACILITIES};

// No search makes so many moves: no set comes twice in it.
pub const NO_LIMIT: u64 = 4294967295;

// A facility and its cost stand in one number: the cost times this, and the facility.
pub(crate) const COST_STEP: u64 = MOST_FACILITIES as u64;

// Stands for a facility that is missing: the highest cost and the last facility.
// Stays a number, and no Option: a cost and its facility are compared, and kept in the table of 64 bits, as one number, and so is this.
pub(crate) const NO_FACILITY: u64 = COST_STEP * MOST_ENTRY as u64 + 31;

// Stands for the opening cost of a place that is no facility.
// Stays a number, and no Option: all 32 places of a row are priced and counted alike, and by this one such a place is dear, with no test.
pub(crate) const NO_OPENING: u64 = 1000000000000;

pub(crate) const TOP_BIT: u64 = 9223372036854775808;

// Where the stretches of the kept table begin, after the nearest facilities, and its length.
// Stays one table with stretches: `rows::shift_in` and `rows::shift_out`, which may not change, take two of one slice; with the others there too, one is lent and not four.
pub(crate) const SECONDS: usize = MOST_CLIENTS;

pub(crate) const ADDED: usize = SECONDS + MOST_CLIENTS;

pub(crate) const LOSS: usize = ADDED + MOST_FACILITIES;

pub(crate) const MORE: usize = LOSS + MOST_FACILITIES;

pub(crate) const KEPT: usize = MORE + MOST_FACILITIES * MOST_FACILITIES;

// The rows of all clients, and a row behind them.
pub(crate) const SERVICE: usize = MOST_CLIENTS * MOST_FACILITIES + MOST_FACILITIES;
