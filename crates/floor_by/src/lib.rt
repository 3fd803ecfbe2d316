// A floor under all lists by a tariff (document 02, papers 3 and 10). The call is total.

#![tactic(auto)]

ghost use Rattle.std.specs.Prelude.{◌≡◌};
ghost use Rattle.distances.specs.Priced.{sheet_by, OnHauls};
ghost use Rattle.refusal.specs.Numbers.{answer_of};
ghost use Rattle.floor.specs.Offering.{UnderAll};
ghost use Rattle.floor_by.specs.OfferingBy.{offering_by};

use refusal::Refusal;
use sheet::MOST_BYTES;
use tariff::TariffChoice;

// The sum of loads times the amounts offered, as `floor::floor` gives it, on a sheet of distances by a tariff or on a sheet of hauls. The tariff's
// bytes count for a given one alone. The full costs that it is under are those on the sheet of hauls.
pub fn floor_by(
    sheet: &[u8],
    choice: TariffChoice,
    tariff: &[u8],
    offers: &[u8],
) -> Result<u64, Refusal>
    ensures answer { answer_of result ≡ offering_by choice tariff.now sheet.now offers.now }
    ensures under { OnHauls (sheet_by choice tariff.now sheet.now) (λ h. UnderAll h result) }
{
    let mut lent = [0u8; MOST_BYTES];
    let hauls = distances::hauls_by(sheet, choice, tariff, &mut lent)?;
    floor::floor(hauls.within(sheet, &lent), offers)
}
