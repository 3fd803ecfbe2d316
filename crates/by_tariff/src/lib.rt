// The two plans by a tariff (document 02, paper 3): those of the sheet of hauls that it makes of a sheet of distances.
//
// Every call is total: it takes any bytes as the sheet and as the tariff. The tariff's bytes count for a given one alone. What is promised is promised
// of the sheet of hauls, by which the rival's prices go too.

#![tactic(auto)]

ghost use Rattle.std.specs.Prelude.{◌≡◌, length};
ghost use Rattle.distances.specs.Priced.{sheet_by, OnHauls};
ghost use Rattle.refusal.specs.Numbers.{answer_of};
ghost use Rattle.price.specs.Pricing.{answer, area_after};
ghost use Rattle.search.specs.Promises.{OpenPlanSettled, OpenPlanBounded, LimitedPlanSized, LimitedPlanSettled, LimitedPlanBounded};
ghost use Rattle.by_tariff.specs.PlanningBy.{open_planning_by, limited_planning_by};

use price::Written;
use refusal::Refusal;
use sheet::MOST_BYTES;
use tariff::TariffChoice;

// Writes the open plan to the front of the area. A refused call leaves the area as it was.
pub fn open_plan_by(
    sheet: &[u8],
    choice: TariffChoice,
    tariff: &[u8],
    area: &mut [u8],
) -> Result<Written, Refusal>
    ensures answer { answer_of result ≡ answer (open_planning_by choice tariff.now sheet.now (length area.old)) }
    ensures area { area.new ≡ area_after (open_planning_by choice tariff.now sheet.now (length area.old)) area.old }
    ensures settled { OnHauls (sheet_by choice tariff.now sheet.now) (λ h. OpenPlanSettled h result area.new) }
    ensures bounded { OnHauls (sheet_by choice tariff.now sheet.now) (λ h. OpenPlanBounded h result area.new) }
{
    let mut lent = [0u8; MOST_BYTES];
    let hauls = distances::hauls_by(sheet, choice, tariff, &mut lent)?;
    search::open_plan(hauls.within(sheet, &lent), area)
}

// The same of the limited plan for k yards.
pub fn limited_plan_by(
    sheet: &[u8],
    choice: TariffChoice,
    tariff: &[u8],
    k: usize,
    area: &mut [u8],
) -> Result<Written, Refusal>
    ensures answer { answer_of result ≡ answer (limited_planning_by choice tariff.now sheet.now k (length area.old)) }
    ensures area { area.new ≡ area_after (limited_planning_by choice tariff.now sheet.now k (length area.old)) area.old }
    ensures sized { OnHauls (sheet_by choice tariff.now sheet.now) (λ h. LimitedPlanSized h k result area.new) }
    ensures settled { OnHauls (sheet_by choice tariff.now sheet.now) (λ h. LimitedPlanSettled h result area.new) }
    ensures bounded { OnHauls (sheet_by choice tariff.now sheet.now) (λ h. LimitedPlanBounded h k result area.new) }
{
    let mut lent = [0u8; MOST_BYTES];
    let hauls = distances::hauls_by(sheet, choice, tariff, &mut lent)?;
    search::limited_plan(hauls.within(sheet, &lent), k, area)
}
