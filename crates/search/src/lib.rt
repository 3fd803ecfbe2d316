// The two plans: local search over sets of yards from document 01's starts, by its moves.
//
// `open_plan` goes by fees and hauls and adds, drops and swaps yards; `limited_plan` keeps k yards and goes by hauls alone. Each is the search of
// `plan_search` with a limit on moves that no search reaches. Every call is total.

#![tactic(auto)]

ghost use Rattle.std.specs.Prelude.{◌≡◌, length};
ghost use Rattle.refusal.specs.Numbers.{answer_of};
ghost use Rattle.price.specs.Pricing.{answer, area_after};
ghost use Rattle.plan_search.specs.Planning.{searched_answer};
ghost use Rattle.search.specs.Planning.{open_planning, limited_planning};
ghost use Rattle.search.specs.Promises.{OpenPlanSettled, OpenPlanBounded, LimitedPlanSized, LimitedPlanSettled, LimitedPlanBounded};
ghost use Rattle.search.specs.Written.{written_answer};

use engine::NO_LIMIT;
use plan_search::{PlanKind, Searched, search_plan};
use price::Written;
use refusal::Refusal;
use starts::PlanStart;

// Writes the open plan of a sheet to the front of the area. A refused call leaves the area as it was.
pub fn open_plan(sheet: &[u8], area: &mut [u8]) -> Result<Written, Refusal>
    ensures answer { answer_of result ≡ answer (open_planning sheet.now (length area.old)) }
    ensures area { area.new ≡ area_after (open_planning sheet.now (length area.old)) area.old }
    ensures settled { OpenPlanSettled sheet.now result area.new }
    ensures bounded { OpenPlanBounded sheet.now result area.new }
{
    written(search_plan(PlanKind::Open, PlanStart::Cheapest, NO_LIMIT, sheet, area))
}

// Writes the limited plan of a sheet for k yards to the front of the area. A refused call leaves the area as it was.
pub fn limited_plan(sheet: &[u8], k: usize, area: &mut [u8]) -> Result<Written, Refusal>
    ensures answer { answer_of result ≡ answer (limited_planning sheet.now k (length area.old)) }
    ensures area { area.new ≡ area_after (limited_planning sheet.now k (length area.old)) area.old }
    ensures sized { LimitedPlanSized sheet.now k result area.new }
    ensures settled { LimitedPlanSettled sheet.now result area.new }
    ensures bounded { LimitedPlanBounded sheet.now k result area.new }
{
    written(search_plan(
        PlanKind::Limited,
        PlanStart::First(k),
        NO_LIMIT,
        sheet,
        area,
    ))
}

// The bytes and the moves of the plan that a search gives. Without a limit on moves none is stopped.
// stays a function: both types belong to other crates, where a `From` would be a public function more
fn written(searched: Result<Searched, Refusal>) -> Result<Written, Refusal>
    ensures { answer_of result ≡ written_answer (searched_answer searched) }
{
    match searched {
        Ok(Searched::Settled { bytes, moves, .. } | Searched::Stopped { bytes, moves, .. }) => {
            Ok(Written { bytes, moves })
        }
        Err(refusal) => Err(refusal),
    }
}
