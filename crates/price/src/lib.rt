// Pricing a set of yards: `price` asks what reading asks and questions 8 and 9 of document 01, and writes the plan of the set that it is given. The
// call is total.

#![tactic(auto)]

ghost use Rattle.std.specs.Prelude.{◌≡◌, length};
ghost use Rattle.refusal.specs.Numbers.{answer_of};
ghost use Rattle.price.specs.Pricing.{answer, area_after, question8, pricing, SetKept};

use plan_area::Total;
use refusal::Refusal;
use sheet::{Counts, MOST_YARDS};

// What a call did that writes a plan: the bytes written and the moves made.
#[derive(Clone, Copy)]
pub struct Written {
    pub bytes: usize,
    pub moves: u32,
}

// Prices a set of yards, of which bit i marks yard i, and writes its plan to the front of the area. A refused call leaves the
// area as it was.
pub fn price(sheet: &[u8], set: u32, area: &mut [u8]) -> Result<Written, Refusal>
    ensures answer { answer_of result ≡ answer (pricing sheet.now set (length area.old)) }
    ensures area { area.new ≡ area_after (pricing sheet.now set (length area.old)) area.old }
    ensures kept { SetKept set result area.new }
{
    let Counts { yards, farms } = sheet::read(sheet)?;
    if !set_good(yards, set) {
        return Err(Refusal::Set);
    }
    if !plan_area::plan_fits(yards, farms, area.len()) {
        return Err(Refusal::Area);
    }
    let bytes = plan_area::write_plan(sheet, yards, farms, set, Total::FullCost, 0, area);
    Ok(Written { bytes, moves: 0 })
}

// Question 8, of a sheet of m yards, for callers that have read it.
pub fn set_good(m: usize, set: u32) -> bool
    ensures { result ≡ question8 m set }
{
    if MOST_YARDS <= m {
        return 1 <= set;
    }
    1 <= set && (set as u64) < 1u64 << (m as u64)
}
