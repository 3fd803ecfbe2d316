// What if this yard shuts, by a tariff (document 02, papers 3 and 5). Both calls are total.

#![tactic(auto)]

ghost use Rattle.std.specs.Prelude.{◌≡◌};
ghost use Rattle.distances.specs.Priced.{sheet_by, OnHauls};
ghost use Rattle.refusal.specs.Numbers.{answer_of};
ghost use Rattle.shut.specs.Shutting.{second_answer, IsDifference};
ghost use Rattle.shut_by.specs.ShuttingBy.{seconding_by, shutting_by};

use nearest::Nearest;
use refusal::Refusal;
use sheet::MOST_BYTES;
use tariff::TariffChoice;

// A farm's second open yard, as `shut::second` tells it, on a sheet of distances by a tariff or on a sheet of hauls. The tariff's bytes count for a
// given one alone.
pub fn second_by(
    sheet: &[u8],
    choice: TariffChoice,
    tariff: &[u8],
    set: u32,
    farm: usize,
) -> Result<Option<Nearest>, Refusal>
    ensures { second_answer result ≡ seconding_by choice tariff.now sheet.now set farm }
{
    let mut lent = [0u8; MOST_BYTES];
    let hauls = distances::hauls_by(sheet, choice, tariff, &mut lent)?;
    shut::second(hauls.within(sheet, &lent), set, farm)
}

// What shutting a yard changes, as `shut::shut` tells it. The difference is that of full costs on the sheet of hauls.
pub fn shut_by(
    sheet: &[u8],
    choice: TariffChoice,
    tariff: &[u8],
    set: u32,
    yard: usize,
) -> Result<i64, Refusal>
    ensures answer { answer_of result ≡ shutting_by choice tariff.now sheet.now set yard }
    ensures difference { OnHauls (sheet_by choice tariff.now sheet.now) (λ h. IsDifference h set yard result) }
{
    let mut lent = [0u8; MOST_BYTES];
    let haul_sheet = distances::hauls_by(sheet, choice, tariff, &mut lent)?;
    shut::shut(haul_sheet.within(sheet, &lent), set, yard)
}
