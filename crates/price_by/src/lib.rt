// Pricing a set of yards by a tariff (document 02, paper 3). The call is total.

#![tactic(auto)]

ghost use Rattle.std.specs.Prelude.{◌≡◌, length};
ghost use Rattle.refusal.specs.Numbers.{answer_of};
ghost use Rattle.price.specs.Pricing.{answer, area_after, SetKept};
ghost use Rattle.price_by.specs.PricingBy.{pricing_by};

use price::Written;
use refusal::Refusal;
use sheet::MOST_BYTES;
use tariff::TariffChoice;

// Prices a set of yards and writes its plan, as `price` does, on a sheet of distances by a tariff or on a sheet of hauls. The tariff's bytes count for
// a given one alone.
pub fn price_by(
    sheet: &[u8],
    choice: TariffChoice,
    tariff: &[u8],
    set: u32,
    area: &mut [u8],
) -> Result<Written, Refusal>
    ensures answer { answer_of result ≡ answer (pricing_by choice tariff.now sheet.now set (length area.old)) }
    ensures area { area.new ≡ area_after (pricing_by choice tariff.now sheet.now set (length area.old)) area.old }
    ensures kept { SetKept set result area.new }
{
    let mut lent = [0u8; MOST_BYTES];
    let hauls = distances::hauls_by(sheet, choice, tariff, &mut lent)?;
    price::price(hauls.within(sheet, &lent), set, area)
}
