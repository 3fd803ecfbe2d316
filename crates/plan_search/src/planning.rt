// From an accepted sheet to the plan in the area: the tables, the search on them, and the records.
ghost use Rattle.std.specs.Prelude.{◌≡◌, true, ◌<◌, length};
ghost use Rattle.record.specs.Records.{amount_end};
ghost use Rattle.stretch.specs.CountedSheet.{instance_on};
ghost use Rattle.plan_area.specs.Plan.{question9};
ghost use Rattle.price.specs.Pricing.{area_after};
ghost use Rattle.engine.specs.SearchOnTables.{found};
ghost use Rattle.plan_search.specs.Kinds.{cost_by_kind, outcome_by};
ghost use Rattle.plan_search.specs.Planning.{searched_answer, search_answer, plan_left};
ghost use Rattle.starts.specs.Starts.{start_refusal};
ghost use Rattle.plan_search.specs.Terms.{terms_of, outcome_of, plan_of};

use crate::read_sheet::ReadSheet;
use crate::{PlanKind, Searched, sheet_tables};
use engine::{Found, Neighbourhood};
use plan_area::Total;
use sheet::{MOST_FARMS, MOST_YARDS};
use starts::PlanStart;
use stretch::CountedSheet;

const HAULS: usize = MOST_YARDS * MOST_FARMS;

// What a kind of plan asks of the search: its moves, and how many times a fee and a haul count in its costs.
// fees and hauls stay factors: a branch by the kind is no faster, and would want each law of the tables twice
#[derive(Clone, Copy)]
pub struct Terms {
    pub moves: Neighbourhood,
    pub fees: u64,
    pub hauls: u64,
}

fn terms_of(kind: PlanKind) -> Terms
    ensures { result ≡ terms_of kind }
{
    // Stays a match: it gives a value for each kind, and runs nothing.
    match kind {
        PlanKind::Open => Terms {
            moves: Neighbourhood::AddDropSwap,
            fees: 1,
            hauls: 1,
        },
        PlanKind::Limited => Terms {
            moves: Neighbourhood::Swap,
            fees: 0,
            hauls: 1,
        },
    }
}

// The plan of a sheet from a start that passes its question: the tables, the search on them, the records.
pub(crate) fn plan_on(
    kind: PlanKind,
    start: PlanStart,
    limit: u64,
    sheet: ReadSheet,
    area: &mut [u8],
) -> Searched
    requires { (start_refusal start sheet.counted.yards ≡ 0) × (question9 sheet.counted.yards sheet.counted.farms (length area.old) ≡ true) }
    ensures answer { searched_answer (Ok result) ≡ search_answer (plan_of kind sheet.entry.counted (outcome_by kind start limit (instance_on sheet.entry.counted))) }
    ensures area { area.new ≡ area_after (plan_left (plan_of kind sheet.entry.counted (outcome_by kind start limit (instance_on sheet.entry.counted)))) area.old }
{
    // stay tables of the most places with their counts beside: there is no heap, and the engine's public call takes them so
    let mut opening = [0u64; MOST_YARDS];
    let mut service = [0u32; HAULS];
    let terms = terms_of(kind);
    sheet_tables::fill_fees(sheet, terms.fees, &mut opening);
    sheet_tables::fill_rows(sheet, terms.hauls, &mut service);
    let begins = starts::engine_start(start);
    let CountedSheet { yards, farms, .. } = sheet.counted;
    match engine::search(terms.moves, begins, limit, &opening, &service, yards, farms) {
        Some(end) => write(kind, sheet, end, area),
        None => unreachable!(),
    }
}

// Writes the plan of the set that a search ended in; the total is the cost that the search goes by, and the moves are those made.
fn write(kind: PlanKind, sheet: ReadSheet, end: Found, area: &mut [u8]) -> Searched
    requires { (question9 sheet.counted.yards sheet.counted.farms (length area.old) ≡ true) × (end ≡ found (cost_by_kind kind (instance_on sheet.counted)) (outcome_of end)) × ((outcome_of end).steps < amount_end) }
    ensures answer { searched_answer (Ok result) ≡ search_answer (plan_of kind sheet.entry.counted (outcome_of end)) }
    ensures area { area.new ≡ area_after (plan_left (plan_of kind sheet.entry.counted (outcome_of end))) area.old }
{
    // stay two arms: of one arm for both the proof does not learn which it was, and the answer below depends on it
    let (set, cost, moves) = match end {
        Found::Settled { set, cost, moves } => (set, cost, moves),
        Found::Stopped { set, cost, moves } => (set, cost, moves),
    };
    let moves = moves as u32;
    let total = Total::Given(cost as u32);
    let CountedSheet { yards, farms, .. } = sheet.counted;
    let bytes = plan_area::write_plan(sheet.counted.bytes, yards, farms, set, total, moves, area);
    match end {
        Found::Stopped { .. } => Searched::Stopped { set, bytes, moves },
        _ => Searched::Settled { set, bytes, moves },
    }
}
