// Sheets of distances: the sheet of hauls that a tariff makes of one (document 02, paper 3).
//
// A call on a sheet of distances is the call on the sheet of its hauls. `hauls_by` gives that sheet to the calls that go by a tariff, and `read_by`
// reads it. Every call is total: it takes any bytes as the sheet and as the tariff.

#![tactic(auto)]

mod block;
mod priced;

ghost use Rattle.std.specs.Prelude.{◌≡◌, ◌≤◌, length};
ghost use Rattle.questions.specs.Bounds.{most_bytes};
ghost use Rattle.refusal.specs.Numbers.{answer_of};
ghost use Rattle.distances.specs.Priced.{under_given, reading_by};
ghost use Rattle.distances.specs.Lent.{sheet_told, hauls_within, FitsIn};

pub use priced::HaulSheet;
use priced::price_into;
use refusal::Refusal;
use sheet::{Counts, MOST_BYTES};
use tariff::TariffChoice;

// The counts of yards and farms, or the first question that is answered no: of 1 to 4, 10, 5 and 6 and, by a tariff, 13 just
// before 5; 11 and 12 of a given tariff come first. The tariff's bytes count for a given one alone.
pub fn read_by(sheet: &[u8], choice: TariffChoice, tariff: &[u8]) -> Result<Counts, Refusal>
    ensures { answer_of result ≡ reading_by choice tariff.now sheet.now }
{
    let mut lent = [0u8; MOST_BYTES];
    let hauls = hauls_by(sheet, choice, tariff, &mut lent)?;
    sheet::read(hauls.within(sheet, &lent))
}

// The sheet of hauls that a call goes by: the caller's own, or a priced one at the front of the bytes lent, of which the call has to ask
// questions 1 to 4 and 10. A tariff and distances that are refused give their refusal.
pub fn hauls_by(
    sheet: &[u8],
    choice: TariffChoice,
    tariff: &[u8],
    hauls: &mut [u8],
) -> Result<HaulSheet, Refusal>
    ensures hauls { sheet_told result sheet.now hauls.new ≡ hauls_within (length hauls.old) choice tariff.now sheet.now }
    ensures room { FitsIn (length hauls.old) result }
{
    if hauls.len() < MOST_BYTES {
        return Err(Refusal::Room);
    }
    // Stays a match on the choice: each arm prices by another tariff or by none, and the contract says what comes of each.
    match choice {
        TariffChoice::NoTariff => Ok(HaulSheet::AsWritten),
        TariffChoice::HouseTariff => price_into(sheet, tariff::house_tariff(), hauls),
        TariffChoice::GivenTariff => price_given(sheet, tariff, hauls),
    }
}

// Prices a sheet by a given tariff.
fn price_given(sheet: &[u8], tariff: &[u8], hauls: &mut [u8]) -> Result<HaulSheet, Refusal>
    requires { most_bytes ≤ length hauls.old }
    ensures hauls { sheet_told result sheet.now hauls.new ≡ under_given tariff.now sheet.now }
    ensures room { FitsIn (length hauls.old) result }
{
    let given = tariff::read_tariff(tariff)?;
    price_into(sheet, given, hauls)
}
