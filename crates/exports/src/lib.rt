// The calls of the planner for Rust and C, as `include/planner.h` declares them.
//
// Each hands its arguments on to `sheet`, `stretch`, `price` or `search` or, by a tariff, to `distances`, `price_by`, `shut_by`, `floor_by` or `by_tariff`, and gives
// the answer as one number by `numbers`: bits 0 to 7 the refusal number, 0 where the call is accepted, and above them what the call returns. A refused call gives its
// number alone. Every call is total.
//
// A call whose name ends in `by`, `second`, `shut` or `floor` is told what the amounts of haul records are: `hauls` is 0 for hauls as written, 1 for distances by the house
// tariff, and any other number for distances by the tariff that is handed over, whose bytes count only then.

#![tactic(auto)]

ghost use Rattle.std.specs.Prelude.{◌≡◌, length, get_or};
ghost use Rattle.questions.specs.Reading.{reading};
ghost use Rattle.stretch.specs.Stretch.{farm_hauls, farm_from, HaulsFrom};
ghost use Rattle.distances.specs.Priced.{sheet_by, reading_by, OnHauls};
ghost use Rattle.price.specs.Pricing.{answer, area_after, pricing};
ghost use Rattle.price_by.specs.PricingBy.{pricing_by};
ghost use Rattle.shut_by.specs.ShuttingBy.{seconding_by, shutting_by};
ghost use Rattle.floor_by.specs.OfferingBy.{offering_by};
ghost use Rattle.search.specs.Planning.{open_planning, limited_planning};
ghost use Rattle.by_tariff.specs.PlanningBy.{open_planning_by, limited_planning_by};
ghost use Rattle.search.specs.Promises.{NoOpenMove, BoundedByRivals, OfSize, NoLimitedMove, BoundedByRivalsOf};
ghost use Rattle.refusal.specs.Numbers.{number_of};
ghost use Rattle.shut.specs.Shutting.{second_answer};
ghost use Rattle.tariff.specs.Choices.{choice_of};
ghost use Rattle.numbers.specs.Numbers.{second_by, counts_number, result_number, second_number, change_number, sum_number, OfWritten, DifferenceTold, UnderAllTold};

use nearest::Nearest;
use numbers::SecondYard;
use refusal::Refusal;

// Asks questions 1 to 4, 10, 5 and 6. Bits 8 to 15: the yards; bits 16 to 23: the farms.
#[unsafe(no_mangle)]
pub extern "C" fn planner_read(sheet: &[u8]) -> u64
    ensures { result ≡ counts_number (reading sheet.now) }
{
    let reading = sheet::read(sheet);
    numbers::counts_number(reading)
}

// The length of a farm's stretch of the sheet.
#[unsafe(no_mangle)]
pub extern "C" fn planner_farm_len(sheet: &[u8], farm: usize) -> usize
    ensures { result ≡ length (farm_hauls sheet.now farm) }
{
    stretch::farm_len(sheet, farm)
}

// Where in the sheet a farm's stretch begins; 0 where it is empty.
#[unsafe(no_mangle)]
pub extern "C" fn planner_farm_from(sheet: &[u8], farm: usize) -> usize
    ensures from { result ≡ farm_from sheet.now farm }
    ensures hauls { HaulsFrom sheet.now farm result }
{
    stretch::farm_from(sheet, farm)
}

// Byte `at` of a farm's stretch, 0 past its end.
#[unsafe(no_mangle)]
pub extern "C" fn planner_farm_byte(sheet: &[u8], farm: usize, at: usize) -> u8
    ensures { result ≡ get_or (farm_hauls sheet.now farm) at 0 }
{
    stretch::farm_byte(sheet, farm, at)
}

// Prices a set of yards, of which bit i marks yard i, and writes its plan to the front of the area.
// Bits 8 to 31: the bytes written; bits 32 to 63: the moves.
#[unsafe(no_mangle)]
pub extern "C" fn planner_price(sheet: &[u8], set: u32, area: &mut [u8]) -> u64
    ensures answer { result ≡ result_number (answer (pricing sheet.now set (length area.old))) }
    ensures area { area.new ≡ area_after (pricing sheet.now set (length area.old)) area.old }
    ensures kept { OfWritten result area.new (λ kept. kept ≡ set) }
{
    let priced = price::price(sheet, set, area);
    numbers::plan_number(priced)
}

// Writes the open plan to the front of the area; the number as for pricing.
#[unsafe(no_mangle)]
pub extern "C" fn planner_open_plan(sheet: &[u8], area: &mut [u8]) -> u64
    ensures answer { result ≡ result_number (answer (open_planning sheet.now (length area.old))) }
    ensures area { area.new ≡ area_after (open_planning sheet.now (length area.old)) area.old }
    ensures settled { OfWritten result area.new (NoOpenMove sheet.now) }
    ensures bounded { OfWritten result area.new (BoundedByRivals sheet.now) }
{
    let open_plan = search::open_plan(sheet, area);
    numbers::plan_number(open_plan)
}

// Writes the limited plan for k yards to the front of the area; the number as for pricing.
#[unsafe(no_mangle)]
pub extern "C" fn planner_limited_plan(sheet: &[u8], k: usize, area: &mut [u8]) -> u64
    ensures answer { result ≡ result_number (answer (limited_planning sheet.now k (length area.old))) }
    ensures area { area.new ≡ area_after (limited_planning sheet.now k (length area.old)) area.old }
    ensures sized { OfWritten result area.new (OfSize sheet.now k) }
    ensures settled { OfWritten result area.new (NoLimitedMove sheet.now) }
    ensures bounded { OfWritten result area.new (BoundedByRivalsOf sheet.now k) }
{
    let limited_plan = search::limited_plan(sheet, k, area);
    numbers::plan_number(limited_plan)
}

// Reading by a tariff; the number as for `planner_read`.
#[unsafe(no_mangle)]
pub extern "C" fn planner_read_by(sheet: &[u8], hauls: u8, tariff: &[u8]) -> u64
    ensures { result ≡ counts_number (reading_by (choice_of hauls) tariff.now sheet.now) }
{
    let reading = distances::read_by(sheet, numbers::choice_of(hauls), tariff);
    numbers::counts_number(reading)
}

// Pricing by a tariff; the number as for `planner_price`.
#[unsafe(no_mangle)]
pub extern "C" fn planner_price_by(
    sheet: &[u8],
    hauls: u8,
    tariff: &[u8],
    set: u32,
    area: &mut [u8],
) -> u64
    ensures answer { result ≡ result_number (answer (pricing_by (choice_of hauls) tariff.now sheet.now set (length area.old))) }
    ensures area { area.new ≡ area_after (pricing_by (choice_of hauls) tariff.now sheet.now set (length area.old)) area.old }
    ensures kept { OfWritten result area.new (λ kept. kept ≡ set) }
{
    let priced = price_by::price_by(sheet, numbers::choice_of(hauls), tariff, set, area);
    numbers::plan_number(priced)
}

// The open plan by a tariff; the number as for pricing. What is promised is promised of the sheet of hauls.
#[unsafe(no_mangle)]
pub extern "C" fn planner_open_plan_by(
    sheet: &[u8],
    hauls: u8,
    tariff: &[u8],
    area: &mut [u8],
) -> u64
    ensures answer { result ≡ result_number (answer (open_planning_by (choice_of hauls) tariff.now sheet.now (length area.old))) }
    ensures area { area.new ≡ area_after (open_planning_by (choice_of hauls) tariff.now sheet.now (length area.old)) area.old }
    ensures settled { OnHauls (sheet_by (choice_of hauls) tariff.now sheet.now) (λ h. OfWritten result area.new (NoOpenMove h)) }
    ensures bounded { OnHauls (sheet_by (choice_of hauls) tariff.now sheet.now) (λ h. OfWritten result area.new (BoundedByRivals h)) }
{
    let open_plan = by_tariff::open_plan_by(sheet, numbers::choice_of(hauls), tariff, area);
    numbers::plan_number(open_plan)
}

// The limited plan by a tariff; the number as for pricing. What is promised is promised of the sheet of hauls.
#[unsafe(no_mangle)]
pub extern "C" fn planner_limited_plan_by(
    sheet: &[u8],
    hauls: u8,
    tariff: &[u8],
    k: usize,
    area: &mut [u8],
) -> u64
    ensures answer { result ≡ result_number (answer (limited_planning_by (choice_of hauls) tariff.now sheet.now k (length area.old))) }
    ensures area { area.new ≡ area_after (limited_planning_by (choice_of hauls) tariff.now sheet.now k (length area.old)) area.old }
    ensures sized { OnHauls (sheet_by (choice_of hauls) tariff.now sheet.now) (λ h. OfWritten result area.new (OfSize h k)) }
    ensures settled { OnHauls (sheet_by (choice_of hauls) tariff.now sheet.now) (λ h. OfWritten result area.new (NoLimitedMove h)) }
    ensures bounded { OnHauls (sheet_by (choice_of hauls) tariff.now sheet.now) (λ h. OfWritten result area.new (BoundedByRivalsOf h k)) }
{
    let limited_plan = by_tariff::limited_plan_by(
        sheet,
        numbers::choice_of(hauls),
        tariff,
        k,
        area,
    );
    numbers::plan_number(limited_plan)
}

// A farm's second open yard. Bit 8: whether there is one; bits 16 to 23: that yard; bits 32 to 63: the haul of one load there.
#[unsafe(no_mangle)]
pub extern "C" fn planner_second(
    sheet: &[u8],
    hauls: u8,
    tariff: &[u8],
    set: u32,
    farm: usize,
) -> u64
    ensures { result ≡ second_number (seconding_by (choice_of hauls) tariff.now sheet.now set farm) }
{
    let second = shut_by::second_by(sheet, numbers::choice_of(hauls), tariff, set, farm);
    numbers::second_number(second_parts(second))
}

// The same answer in the parts of its number.
fn second_parts(second: Result<Option<Nearest>, Refusal>) -> Result<SecondYard, Refusal>
    ensures { second_by number_of result ≡ second_answer second }
{
    Ok(SecondYard::from(second?))
}

// What shutting a yard of the set changes. Bit 8: whether it is below zero; bits 16 to 63: its size. The difference is that of full costs on the sheet of
// hauls.
#[unsafe(no_mangle)]
pub extern "C" fn planner_shut(sheet: &[u8], hauls: u8, tariff: &[u8], set: u32, yard: usize) -> u64
    ensures answer { result ≡ change_number (shutting_by (choice_of hauls) tariff.now sheet.now set yard) }
    ensures difference { OnHauls (sheet_by (choice_of hauls) tariff.now sheet.now) (λ h. DifferenceTold h set yard result) }
{
    let change = shut_by::shut_by(sheet, numbers::choice_of(hauls), tariff, set, yard);
    numbers::change_number(change)
}

// The sum of loads times the amounts that somebody offers, one for each farm, where no yard is offered more than its fee. Bits 8 to 63: the sum. It is at
// most the full cost, on the sheet of hauls, of any set that is not empty.
#[unsafe(no_mangle)]
pub extern "C" fn planner_floor(sheet: &[u8], hauls: u8, tariff: &[u8], offers: &[u8]) -> u64
    ensures answer { result ≡ sum_number (offering_by (choice_of hauls) tariff.now sheet.now offers.now) }
    ensures under { OnHauls (sheet_by (choice_of hauls) tariff.now sheet.now) (λ h. UnderAllTold h result) }
{
    let bound = floor_by::floor_by(sheet, numbers::choice_of(hauls), tariff, offers);
    numbers::sum_number(bound)
}
