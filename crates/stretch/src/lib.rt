// A farm's stretch of the sheet: the part that holds its haul records, uncopied, and the same in numbers, for callers that are handed no part of a slice.
// Every call is total.

#![tactic(auto)]

ghost use Rattle.std.specs.Prelude.{◌≡◌, length, get_or};
ghost use Rattle.stretch.specs.Stretch.{stretch, farm_hauls, farm_from, HaulsFrom};

use questions::{Counts, MOST_FARMS, MOST_YARDS};
use record::Record;

mod counted_sheet;

pub use counted_sheet::CountedSheet;

// The hauls of a farm: its part of the caller's sheet, uncopied. Empty for a farm that the sheet does not have, and for a
// sheet that questions 1 to 4 turn down.
pub fn farm_hauls(sheet: &[u8], farm: usize) -> &[u8]
    ensures { result.now ≡ farm_hauls sheet.now farm }
{
    match questions::form_of(sheet) {
        Ok(Counts { yards, farms }) if farm < farms => farm_stretch(sheet, yards, farm),
        _ => &[],
    }
}

// The same for a caller that has read the sheet and knows its count of yards: no question is asked again.
pub fn farm_stretch(sheet: &[u8], yards: usize, farm: usize) -> &[u8]
    ensures { result.now ≡ stretch sheet.now yards farm }
{
    if yards > MOST_YARDS || farm >= MOST_FARMS {
        return &[];
    }
    let from = Record::LEN * (yards + farm * yards);
    sheet.get(from..from + Record::LEN * yards).unwrap_or(&[])
}

// The length of a farm's hauls.
pub fn farm_len(sheet: &[u8], farm: usize) -> usize
    ensures { result ≡ length (farm_hauls sheet.now farm) }
{
    farm_hauls(sheet, farm).len()
}

// Where in the sheet they begin; 0 where there are none. So many bytes for the yards come before them, and so many for each farm before this one.
pub fn farm_from(sheet: &[u8], farm: usize) -> usize
    ensures from { result ≡ farm_from sheet.now farm }
    ensures hauls { HaulsFrom sheet.now farm result }
{
    let bytes = farm_len(sheet, farm);
    bytes + farm * bytes
}

// Their byte `at`, 0 past their end.
pub fn farm_byte(sheet: &[u8], farm: usize, at: usize) -> u8
    ensures { result ≡ get_or (farm_hauls sheet.now farm) at 0 }
{
    farm_hauls(sheet, farm).get(at).copied().unwrap_or(0)
}
