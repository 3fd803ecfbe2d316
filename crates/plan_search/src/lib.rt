// From a sheet to the plan that a search reaches, whatever its kind, its start and its limit on moves.
//
// `search_plan` asks what reading asks, the question of the start and question 9, reads the sheet once into tables, runs the search of `engine`
// on them and writes the plan of the set reached. Every plan that is searched goes this one way. The call is total.

#![tactic(auto)]

mod planning;
mod read_sheet;
mod sheet_tables;

ghost use Rattle.std.specs.Prelude.{◌≡◌, length};
ghost use Rattle.price.specs.Pricing.{area_after};
ghost use Rattle.plan_search.specs.Planning.{searched_answer, search_answer, plan_left, search_planning};

use read_sheet::ReadSheet;
use refusal::Refusal;
use sheet::Counts;
use starts::PlanStart;
use stretch::CountedSheet;

// What a search goes by. Open: fees and hauls, by adds, drops and swaps of yards. Limited: hauls alone, by swaps.
#[derive(Clone, Copy)]
pub enum PlanKind {
    Open,
    Limited,
}

// How a search came out. Settled: no move lowers the cost. Stopped: as many moves as it may were made, and another would lower the cost. With the
// set reached, the bytes of its plan and the moves made.
#[derive(Clone, Copy)]
pub enum Searched {
    Settled { set: u32, bytes: usize, moves: u32 },
    Stopped { set: u32, bytes: usize, moves: u32 },
}

// Writes the plan that a search with at most `limit` moves reaches to the front of the area. A refused call leaves the area as it was.
pub fn search_plan(
    kind: PlanKind,
    start: PlanStart,
    limit: u64,
    sheet: &[u8],
    area: &mut [u8],
) -> Result<Searched, Refusal>
    ensures answer { searched_answer result ≡ search_answer (search_planning kind start limit sheet.now (length area.old)) }
    ensures area { area.new ≡ area_after (plan_left (search_planning kind start limit sheet.now (length area.old))) area.old }
{
    let Counts { yards, farms } = sheet::read(sheet)?;
    starts::ask_start(start, yards)?;
    if !plan_area::plan_fits(yards, farms, area.len()) {
        return Err(Refusal::Area);
    }
    let counted = CountedSheet {
        bytes: sheet,
        yards,
        farms,
    };
    let read = ReadSheet { counted };
    Ok(planning::plan_on(kind, start, limit, read, area))
}
