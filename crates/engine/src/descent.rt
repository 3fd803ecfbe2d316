// The search: from a start, the best move while it lowers the cost and a move is left.
ghost use Rattle.std.specs.Prelude.{◌≡◌, true, ◌^◌, ◌≤◌, ◌<◌, length};
ghost use Rattle.model.specs.Least.{any};
ghost use Rattle.model.specs.Sets.{member};
ghost use Rattle.model.specs.Search.{next};
ghost use Rattle.model.specs.Limit.{search_within};
ghost use Rattle.model.specs.Plans.{open_start};
ghost use Rattle.engine.specs.Bounds.{kept_length};
ghost use Rattle.engine.specs.Rows.{Rows, ColumnSums};
ghost use Rattle.engine.specs.Sums.{Kept, KeptOf, NearUpTo};
ghost use Rattle.engine.specs.Moves.{priced, neighbours_by};
ghost use Rattle.engine.specs.SearchOnTables.{cost_by, instance_of, start_set, found};

use crate::bounds::ADDED;
use crate::clients::{begin, move_to};
use crate::cost::{add_up, nearest_costs, openings_of};
use crate::moves::{Priced, best_move, better_of};
use crate::service::Tables;
use crate::{Found, Neighbourhood, Start};
use tables::MOST_FACILITIES;

// The single facility of least cost, the lowest number among equals: its opening cost and the sum of its column.
fn cheapest(tables: Tables, kept: &[u64]) -> Priced
    requires { (1 ≤ tables.service.m) × (kept_length ≤ length kept.now) × ColumnSums tables.service.m tables.service.n tables.service.costs.now kept.now }
    ensures { result ≡ priced (cost_by tables.entry) (open_start (instance_of tables.entry)) }
{
    let mut b = Priced {
        set: 1,
        cost: tables.opening[0] + kept[ADDED],
    };
    for i in 1..tables.service.m {
        b = better_of(sets::added(0, i), tables.opening[i] + kept[ADDED + i], b);
    }
    b
}

// The set that a search begins at.
pub(crate) fn first_set(start: Start, tables: Tables, kept: &[u64]) -> u32
    requires { (1 ≤ tables.service.m) × (kept_length ≤ length kept.now) × ColumnSums tables.service.m tables.service.n tables.service.costs.now kept.now }
    ensures { result ≡ start_set start (instance_of tables.entry) }
{
    // Stays a match: each kind of start gives a set in its own way, as the contract says.
    match start {
        Start::Cheapest => {
            let alone = cheapest(tables, kept);
            alone.set
        }
        Start::Set(set) => set,
    }
}

// What the set costs that the kept table is that of.
fn cost_now(tables: Tables, set: u32, kept: &[u64]) -> u64
    requires { KeptOf tables.service.m tables.service.n tables.service.costs.now set kept.now }
    ensures { result ≡ cost_by tables.entry set }
{
    let members = sets::members_of(set);
    let opened = openings_of(tables.opening, &members.list[..members.count]);
    opened + nearest_costs(&kept[..tables.service.n])
}

// The set after the best move, or the set itself where no move lowers the cost.
fn choose(neighbourhood: Neighbourhood, tables: Tables, b: Priced, kept: &[u64]) -> Priced
    requires { KeptOf tables.service.m tables.service.n tables.service.costs.now b.set kept.now × (b ≡ priced (cost_by tables) b.set) }
    ensures { result ≡ priced (cost_by tables.entry) (next (cost_by tables.entry) (neighbours_by neighbourhood tables.entry.service.m) b.set) }
{
    let members = sets::members_of(b.set);
    let list = &members.list[..members.count];
    let mut costs = [0u64; MOST_FACILITIES];
    let opened = openings_of(tables.opening, list);
    add_up(opened, tables.opening, kept, &mut costs);
    best_move(
        neighbourhood,
        tables.opening,
        tables.service.m,
        b,
        &costs,
        kept,
        list,
    )
}

// The search from a set with at most so many moves, by the table that is lent: nothing is counted in it yet.
pub(crate) fn descend(
    neighbourhood: Neighbourhood,
    start: u32,
    limit: u64,
    tables: Tables,
    kept: &mut [u64],
) -> Found
    requires { Kept tables.service.m tables.service.n tables.service.costs.now kept.old × NearUpTo tables.service.m tables.service.n tables.service.costs.now kept.old start 0 × (start < 2 ^ tables.service.m) × (any tables.service.m (member start) ≡ true) }
    ensures { result ≡ found (cost_by tables.entry) (search_within (cost_by tables.entry) (neighbours_by neighbourhood tables.entry.service.m) limit start) }
{
    begin(tables.service, start, kept);
    let mut b = Priced {
        set: start,
        cost: cost_now(tables, start, kept),
    };
    let mut moves: u64 = 0;
    // Stays a loop: no count of turns is known before it, and it has two ends, each with an answer of its own.
    loop {
        let next = choose(neighbourhood, tables, b, kept);
        let set = b.set;
        let cost = b.cost;
        let lowest = next.cost;
        if cost <= lowest {
            break Found::Settled { set, cost, moves };
        }
        if limit <= moves {
            break Found::Stopped { set, cost, moves };
        }
        move_to(tables.service, set, next.set, kept);
        b = next;
        moves += 1;
    }
}
