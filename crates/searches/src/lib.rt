// The searches with a limit on moves, from document 01's starts or from a given set (document 02, paper 7), by a tariff or by none.
//
// An open search goes by fees and hauls, a limited one keeps its count of yards and goes by hauls alone. Each is that of `plan_search`, on the sheet of
// hauls that the tariff makes; what is promised is promised of that sheet, by which the rival's prices go too. Every call is total: it takes any bytes,
// any set, any count and any limit.

#![tactic(auto)]

ghost use Rattle.std.specs.Prelude.{◌≡◌, length};
ghost use Rattle.model.specs.Sets.{count, member};
ghost use Rattle.questions.specs.Sheet.{yards};
ghost use Rattle.distances.specs.Priced.{sheet_by, OnHauls};
ghost use Rattle.price.specs.Pricing.{area_after};
ghost use Rattle.plan_search.specs.declared.PlanKind.TheVariants.{Open, Limited};
ghost use Rattle.starts.specs.declared.PlanStart.TheVariants.{Cheapest, First, Given};
ghost use Rattle.plan_search.specs.Planning.{searched_answer, search_answer, plan_left};
ghost use Rattle.searches.specs.SearchingBy.{search_planning_by};
ghost use Rattle.searches.specs.Promises.{SettledBy, StoppedBy, NotDearerBy, OpenSearchBounded, LimitedSearchSized, LimitedSearchBounded};

use plan_search::{PlanKind, Searched};
use refusal::Refusal;
use sheet::MOST_BYTES;
use starts::PlanStart;
use tariff::TariffChoice;

// The open search, from the single yard of least full cost.
// stay four calls: each is public, with parameters and promises of its own, and all are `search_by` with a kind and a start
pub fn open_search(
    sheet: &[u8],
    choice: TariffChoice,
    tariff: &[u8],
    limit: u64,
    area: &mut [u8],
) -> Result<Searched, Refusal>
    ensures answer { searched_answer result ≡ search_answer (search_planning_by Open Cheapest limit choice tariff.now sheet.now (length area.old)) }
    ensures area { area.new ≡ area_after (plan_left (search_planning_by Open Cheapest limit choice tariff.now sheet.now (length area.old))) area.old }
    ensures settled { OnHauls (sheet_by choice tariff.now sheet.now) (λ h. SettledBy Open h result area.new) }
    ensures bounded { OnHauls (sheet_by choice tariff.now sheet.now) (λ h. OpenSearchBounded h result area.new) }
    ensures stopped { OnHauls (sheet_by choice tariff.now sheet.now) (λ h. StoppedBy Open Cheapest limit h result area.new) }
    ensures not_dearer { OnHauls (sheet_by choice tariff.now sheet.now) (λ h. NotDearerBy Open Cheapest h result area.new) }
{
    search_by(
        PlanKind::Open,
        PlanStart::Cheapest,
        limit,
        sheet,
        choice,
        tariff,
        area,
    )
}

// The open search, from a given set of yards, of which bit i marks yard i.
pub fn open_search_from(
    sheet: &[u8],
    choice: TariffChoice,
    tariff: &[u8],
    start: u32,
    limit: u64,
    area: &mut [u8],
) -> Result<Searched, Refusal>
    ensures answer { searched_answer result ≡ search_answer (search_planning_by Open (Given start) limit choice tariff.now sheet.now (length area.old)) }
    ensures area { area.new ≡ area_after (plan_left (search_planning_by Open (Given start) limit choice tariff.now sheet.now (length area.old))) area.old }
    ensures settled { OnHauls (sheet_by choice tariff.now sheet.now) (λ h. SettledBy Open h result area.new) }
    ensures bounded { OnHauls (sheet_by choice tariff.now sheet.now) (λ h. OpenSearchBounded h result area.new) }
    ensures stopped { OnHauls (sheet_by choice tariff.now sheet.now) (λ h. StoppedBy Open (Given start) limit h result area.new) }
    ensures not_dearer { OnHauls (sheet_by choice tariff.now sheet.now) (λ h. NotDearerBy Open (Given start) h result area.new) }
{
    search_by(
        PlanKind::Open,
        PlanStart::Given(start),
        limit,
        sheet,
        choice,
        tariff,
        area,
    )
}

// The limited search, from yards 0 to k - 1.
pub fn limited_search(
    sheet: &[u8],
    choice: TariffChoice,
    tariff: &[u8],
    k: usize,
    limit: u64,
    area: &mut [u8],
) -> Result<Searched, Refusal>
    ensures answer { searched_answer result ≡ search_answer (search_planning_by Limited (First k) limit choice tariff.now sheet.now (length area.old)) }
    ensures area { area.new ≡ area_after (plan_left (search_planning_by Limited (First k) limit choice tariff.now sheet.now (length area.old))) area.old }
    ensures sized { OnHauls (sheet_by choice tariff.now sheet.now) (λ h. LimitedSearchSized h k result area.new) }
    ensures settled { OnHauls (sheet_by choice tariff.now sheet.now) (λ h. SettledBy Limited h result area.new) }
    ensures bounded { OnHauls (sheet_by choice tariff.now sheet.now) (λ h. LimitedSearchBounded h k result area.new) }
    ensures stopped { OnHauls (sheet_by choice tariff.now sheet.now) (λ h. StoppedBy Limited (First k) limit h result area.new) }
    ensures not_dearer { OnHauls (sheet_by choice tariff.now sheet.now) (λ h. NotDearerBy Limited (First k) h result area.new) }
{
    search_by(
        PlanKind::Limited,
        PlanStart::First(k),
        limit,
        sheet,
        choice,
        tariff,
        area,
    )
}

// The limited search, from a given set, whose count of yards it keeps.
pub fn limited_search_from(
    sheet: &[u8],
    choice: TariffChoice,
    tariff: &[u8],
    start: u32,
    limit: u64,
    area: &mut [u8],
) -> Result<Searched, Refusal>
    ensures answer { searched_answer result ≡ search_answer (search_planning_by Limited (Given start) limit choice tariff.now sheet.now (length area.old)) }
    ensures area { area.new ≡ area_after (plan_left (search_planning_by Limited (Given start) limit choice tariff.now sheet.now (length area.old))) area.old }
    ensures sized { OnHauls (sheet_by choice tariff.now sheet.now) (λ h. LimitedSearchSized h (count (yards h) (member start)) result area.new) }
    ensures settled { OnHauls (sheet_by choice tariff.now sheet.now) (λ h. SettledBy Limited h result area.new) }
    ensures bounded { OnHauls (sheet_by choice tariff.now sheet.now) (λ h. LimitedSearchBounded h (count (yards h) (member start)) result area.new) }
    ensures stopped { OnHauls (sheet_by choice tariff.now sheet.now) (λ h. StoppedBy Limited (Given start) limit h result area.new) }
    ensures not_dearer { OnHauls (sheet_by choice tariff.now sheet.now) (λ h. NotDearerBy Limited (Given start) h result area.new) }
{
    search_by(
        PlanKind::Limited,
        PlanStart::Given(start),
        limit,
        sheet,
        choice,
        tariff,
        area,
    )
}

// Any of them: the search on the sheet of hauls.
fn search_by(
    kind: PlanKind,
    start: PlanStart,
    limit: u64,
    sheet: &[u8],
    choice: TariffChoice,
    tariff: &[u8],
    area: &mut [u8],
) -> Result<Searched, Refusal>
    ensures answer { searched_answer result ≡ search_answer (search_planning_by kind start limit choice tariff.now sheet.now (length area.old)) }
    ensures area { area.new ≡ area_after (plan_left (search_planning_by kind start limit choice tariff.now sheet.now (length area.old))) area.old }
{
    let mut lent = [0u8; MOST_BYTES];
    let hauls = distances::hauls_by(sheet, choice, tariff, &mut lent)?;
    plan_search::search_plan(kind, start, limit, hauls.within(sheet, &lent), area)
}
