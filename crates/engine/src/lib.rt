// Local search over sets of facilities, on tables: no sheet, no record, no area.
//
// `search` goes from a start by the moves asked for, adds, drops and swaps or swaps alone, while they lower the total cost of the set by the
// tables, and with at most so many of them. It prices every move by sums over the clients that it keeps from move to move. It has the
// tables looked through (crate `tables`) and looks at the start itself: it takes any, and turns down what specs/SearchOnTables.antt says.

#![tactic(auto)]

mod bounds;
mod clients;
mod columns;
mod cost;
mod descent;
mod moves;
mod near;
mod service;
mod sums;

ghost use Rattle.std.specs.Prelude.{◌≡◌, ◌≤◌, true};
ghost use Rattle.model.specs.Limit.{search_within};
ghost use Rattle.tables.specs.Bounds.{most_facilities};
ghost use Rattle.tables.specs.Tables.{tabled, table_cost, good_tables};
ghost use Rattle.engine.specs.Tables.{Blank};
ghost use Rattle.engine.specs.Sums.{Prepared};
ghost use Rattle.engine.specs.Moves.{neighbours_by};
ghost use Rattle.engine.specs.SearchOnTables.{good_start, start_set, found, searching};

pub use bounds::NO_LIMIT;
use bounds::{ADDED, KEPT, NO_FACILITY, NO_OPENING, SERVICE};
use service::{Service, Tables};
use tables::MOST_FACILITIES;

// Which moves a search makes.
#[derive(Clone, Copy)]
pub enum Neighbourhood {
    AddDropSwap,
    Swap,
}

// Where a search begins: at the single facility of least total cost, the lowest number among equals, or at a set.
#[derive(Clone, Copy)]
pub enum Start {
    Cheapest,
    Set(u32),
}

// How a search comes out. Stopped: all the moves that it may were made, and another would lower the cost. Settled: no move lowers the cost. With the
// set, its cost and the moves made.
#[derive(Clone, Copy)]
pub enum Found {
    Stopped { set: u32, cost: u64, moves: u64 },
    Settled { set: u32, cost: u64, moves: u64 },
}

// The search with at most `limit` moves, on one opening cost for each of m facilities and a row of m service costs for each of n clients. None where
// the tables or the start are not good.
pub fn search(
    moves: Neighbourhood,
    start: Start,
    limit: u64,
    opening: &[u64],
    service: &[u32],
    m: usize,
    n: usize,
) -> Option<Found>
    ensures { result ≡ searching moves start limit opening.now service.now m n }
{
    if !tables::tables_good(opening, service, m, n) {
        return None;
    }
    if !start_good(m, start) {
        return None;
    }
    Some(search_on(moves, start, limit, opening, service, m, n))
}

// Does a search begin there?
fn start_good(m: usize, start: Start) -> bool
    requires { m ≤ most_facilities }
    ensures { result ≡ good_start m start }
{
    // Stays a match: it asks one question of one kind of start.
    match start {
        Start::Cheapest => true,
        Start::Set(set) => 1 <= set && (set as u64) < (1u64 << (m as u64)),
    }
}

// Copies the tables, and prepares the kept one: no client is counted, and the sums are those of the columns.
fn prepare(
    opening: &[u64],
    service: &[u32],
    m: usize,
    n: usize,
    openings: &mut [u64],
    rows: &mut [u32],
    kept: &mut [u64],
)
    requires { (good_tables m n opening.now service.now ≡ true) × Blank openings.old rows.old kept.old }
    ensures { Prepared m n opening.now service.now openings.new rows.new kept.new }
{
    openings[..m].copy_from_slice(&opening[..m]);
    rows[..n * m].copy_from_slice(&service[..n * m]);
    kept[..ADDED].fill(NO_FACILITY);
    columns::add_rows(Service { costs: rows, m, n }, kept);
}

fn search_on(
    moves: Neighbourhood,
    start: Start,
    limit: u64,
    opening: &[u64],
    service: &[u32],
    m: usize,
    n: usize,
) -> Found
    requires { (good_tables m n opening.now service.now ≡ true) × (good_start m start ≡ true) }
    ensures { result ≡ found (table_cost m n opening.now service.now) (search_within (table_cost m n opening.now service.now) (neighbours_by moves m) limit (start_set start (tabled m n opening.now service.now))) }
{
    let mut openings = [NO_OPENING; MOST_FACILITIES];
    let mut rows = [0u32; SERVICE];
    let mut kept = [0u64; KEPT];
    prepare(opening, service, m, n, &mut openings, &mut rows, &mut kept);
    let tables = Tables {
        opening: &openings,
        service: Service { costs: &rows, m, n },
    };
    let first = descent::first_set(start, tables, &kept);
    descent::descend(moves, first, limit, tables, &mut kept)
}
