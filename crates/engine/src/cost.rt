// What a set costs by the tables: opening costs of the listed facilities, and for each client the cost of its nearest facility.
ghost use Rattle.std.specs.Prelude.{◌≡◌, ◌/◌, ◌≤◌, length, get_or};
ghost use Rattle.model.specs.Loops.{sum};
ghost use Rattle.tables.specs.Bounds.{most_facilities, most_clients, most_opening};
ghost use Rattle.engine.specs.Rows.{Adding, Added};
ghost use Rattle.engine.specs.Sums.{FirstsWithin};
ghost use Rattle.engine.specs.Moves.{ListedWithin, listed_openings};

use crate::bounds::{ADDED, COST_STEP};
use tables::MOST_FACILITIES;

// What opening the listed facilities costs.
pub(crate) fn openings_of(opening: &[u64], list: &[u8]) -> u64
    requires { ListedWithin opening.now list.now most_opening }
    ensures { result ≡ listed_openings opening.now list.now }
{
    let mut total: u64 = 0;
    for o in list {
        total += opening[*o as usize];
    }
    total
}

// What it costs to serve all clients from these, their nearest facilities.
pub(crate) fn nearest_costs(firsts: &[u64]) -> u64
    requires { (length firsts.now ≤ most_clients) × FirstsWithin firsts.now }
    ensures { result ≡ sum (length firsts.now) (λ j. get_or firsts.now j 0 / most_facilities) }
{
    let mut total: u64 = 0;
    for first in firsts {
        total += *first / COST_STEP;
    }
    total
}

// The cost with each facility added: opening costs of the set and of the facility, and the service cost with it.
pub(crate) fn add_up(opened: u64, opening: &[u64], kept: &[u64], costs: &mut [u64])
    requires { Adding opened opening.now kept.now costs.old }
    ensures { Added most_facilities opened opening.now kept.now costs.new }
{
    for i in 0..MOST_FACILITIES {
        costs[i] = opened + opening[i] + kept[ADDED + i];
    }
}
