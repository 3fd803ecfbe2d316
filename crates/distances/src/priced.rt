// A sheet of distances, priced into bytes that are lent.
//
// The pass asks no question of a record but whether it is a haul and how long its distance is: questions 1 to 4, 10, 5 and 6 are asked of the
// priced sheet, which has the form and the loads of the sheet of distances. They are asked here only where a distance is too long, for their numbers
// come before 13.
ghost use Rattle.std.specs.Prelude.{◌≡◌, true, ℕ, ◌%◌, ◌≤◌, ◌<◌, length};
ghost use Rattle.model.specs.Loops.{all_below, join};
ghost use Rattle.record.specs.Records.{records, splice, amount_end};
ghost use Rattle.questions.specs.Bounds.{most_bytes};
ghost use Rattle.tariff.specs.Pricing.{price_of};
ghost use Rattle.distances.specs.Priced.{priced_at, priced_by};
ghost use Rattle.distances.specs.Lent.{sheet_within, sheet_told, FitsIn};
ghost use Rattle.distances.specs.Blocks.{within_reach};

use crate::block::{BLOCK_BYTES, price_block};
use questions::MOST_BYTES;
use record::Record;
use refusal::Refusal;
use tariff::Tariff;

// Where the sheet of hauls is: it is the caller's sheet, or so many bytes of those lent.
#[derive(Clone, Copy)]
pub enum HaulSheet {
    AsWritten,
    Priced(usize),
}

impl HaulSheet {
    // The sheet of hauls, where it lies.
    pub fn within<'a>(self, sheet: &'a [u8], lent: &'a [u8]) -> &'a [u8]
        ensures { result.now ≡ sheet_within self sheet.now lent.now }
    {
        match self {
            HaulSheet::Priced(bytes) if bytes <= lent.len() => &lent[..bytes],
            HaulSheet::Priced(_) => lent,
            HaulSheet::AsWritten => sheet,
        }
    }
}

// Prices a sheet to the front of the bytes lent.
pub(crate) fn price_into(sheet: &[u8], by: Tariff, hauls: &mut [u8]) -> Result<HaulSheet, Refusal>
    requires { (most_bytes ≤ length hauls.old) × ((d : ℕ) → d ≤ by.reach → price_of by d < amount_end) }
    ensures hauls { sheet_told result sheet.now hauls.new ≡ priced_by (price_of by) by.reach sheet.now }
    ensures room { FitsIn (length hauls.old) result }
{
    if sheet.len() % Record::LEN != 0 {
        return Err(Refusal::Length);
    }
    if MOST_BYTES < sheet.len() {
        return Err(Refusal::Length);
    }
    if price_all(sheet, by, hauls) {
        return Ok(HaulSheet::Priced(sheet.len()));
    }
    questions::form_and_loads_of(sheet)?;
    Err(Refusal::Distance)
}

// Prices all records of a sheet, where no distance is past the tariff's reach; says whether that is so.
fn price_all(sheet: &[u8], by: Tariff, hauls: &mut [u8]) -> bool
    requires { (length sheet.now % 8 ≡ 0) × (length sheet.now ≤ most_bytes) × (most_bytes ≤ length hauls.old) × ((d : ℕ) → d ≤ by.reach → price_of by d < amount_end) }
    ensures within { result ≡ all_below (records sheet.now) (within_reach by.reach sheet.now) }
    ensures area { result ≡ true → hauls.new ≡ splice hauls.old 0 (join (records sheet.now) (priced_at (price_of by) sheet.now)) }
{
    for from in (0..sheet.len()).step_by(BLOCK_BYTES) {
        let end = sheet.len().min(from + BLOCK_BYTES);
        if !price_block(&sheet[from..end], by, &mut hauls[from..end]) {
            return false;
        }
    }
    true
}
