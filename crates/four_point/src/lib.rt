// The four-point rule on a table of service costs: metric service costs (document 000, 3.2), document 01's question 6.
//
// `keeps_rule` takes, for each two facilities, the cheapest route between them through a client, and holds against it what the costs
// of a client at the two differ by. It takes any table at all.

#![tactic(auto)]

mod costs;
mod pairs;
mod pass;
mod units;

ghost use Rattle.std.specs.Prelude.{◌≡◌};
ghost use Rattle.four_point.specs.Table.{keeps_rule};

pub const MOST_FACILITIES: usize = 32;

// Each facility's row has a place for so many clients.
pub const ROW_PLACES: usize = 128;

pub const PLACES: usize = MOST_FACILITIES * ROW_PLACES;

// Every cost is below this.
const COST_LIMIT: u32 = 1048576;

// Whether the costs of the first clients at the first facilities keep the rule. No, too, for more facilities or clients than the
// limits above, for a table that ends before their rows do, and where a cost reaches the limit.
pub fn keeps_rule(table: &[u32], facilities: usize, clients: usize) -> bool
    ensures { result ≡ keeps_rule table.now facilities clients }
{
    if MOST_FACILITIES < facilities {
        return false;
    }
    if ROW_PLACES < clients {
        return false;
    }
    if table.len() < ROW_PLACES * facilities {
        return false;
    }
    let mut units = [0u16; PLACES];
    if units::round(table, ROW_PLACES * facilities, &mut units) != 0 {
        return false;
    }
    pairs::every_pair(table, &units, facilities, clients)
}
