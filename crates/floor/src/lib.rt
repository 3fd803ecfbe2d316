// A floor under all lists (document 02, paper 10): amounts that somebody offers, one for each farm, found by any means, are looked at, and their sum is
// given back, which no set of yards costs less than. The call asks what reading asks, then 15 and 16, is lent no area, and is total.

#![tactic(auto)]

ghost use Rattle.std.specs.Prelude.{◌≡◌, ◌≤◌};
ghost use Rattle.questions.specs.Bounds.{most_farms};
ghost use Rattle.refusal.specs.Numbers.{answer_of};
ghost use Rattle.floor.specs.Offering.{is_offer, question15, offering, UnderAll};

use offered::{add_offers, fees_cover};
use questions::MOST_YARDS;
use record::{Kind, Record};
use refusal::Refusal;
use sheet::Counts;
use stretch::CountedSheet;

mod offered;

// The sum of loads times the amounts offered, in cents, where no yard is offered more than its fee: no set of yards costs less.
pub fn floor(sheet: &[u8], offers: &[u8]) -> Result<u64, Refusal>
    ensures answer { answer_of result ≡ offering sheet.now offers.now }
    ensures under { UnderAll sheet.now result }
{
    let Counts { yards, farms } = sheet::read(sheet)?;
    if !offers_good(offers, farms) {
        return Err(Refusal::Offers);
    }
    let counted = CountedSheet {
        bytes: sheet,
        yards,
        farms,
    };
    let mut excess = [0u64; MOST_YARDS];
    let sum = add_offers(counted, offers, &mut excess);
    if !fees_cover(counted, &excess) {
        return Err(Refusal::Excess);
    }
    Ok(sum)
}

// Question 15.
fn offers_good(offers: &[u8], n: usize) -> bool
    requires { n ≤ most_farms }
    ensures { result ≡ question15 n offers.now }
{
    if offers.len() != Record::LEN * n {
        return false;
    }
    for farm in 0..n {
        if !is_offer(Record::at(offers, farm), farm) {
            return false;
        }
    }
    true
}

// Is the record a farm's offer?
#[tactic(auto, unfolding(crate::specs::Offering::is_offer))]
fn is_offer(record: Record, farm: usize) -> bool
    ensures { result ≡ is_offer farm «record» }
{
    record.kind == Kind::Offer as u8
        && (record.yard == 0 && (record.farm as usize == farm && record.byte3 == 0))
}
