// Question 10: the loads of the farms.
ghost use Rattle.std.specs.Prelude.{◌≡◌, ◌+◌, ◌*◌, ◌≤◌, length};
ghost use Rattle.model.specs.Loops.{all_below};
ghost use Rattle.questions.specs.Bounds.{most_farms};
ghost use Rattle.questions.specs.Questions.{farm_loaded};

use crate::MOST_LOADS;
use record::Record;

// Farm p's haul records all have the byte of the first one, and it is not above 20.
fn farm_loaded(sheet: &[u8], m: usize, p: usize) -> bool
    requires { 8 * (m + p * m) + 8 * m ≤ length sheet.now }
    ensures { result ≡ farm_loaded sheet.now m p }
{
    let first = Record::at(sheet, m + p * m);
    (0..m).all(|a| {
        let record = Record::at(sheet, m + p * m + a);
        record.byte3 == first.byte3 && record.byte3 <= MOST_LOADS
    })
}

pub(crate) fn loads_good(sheet: &[u8], m: usize, n: usize) -> bool
    requires { (8 * (m + n * m) ≤ length sheet.now) × (n ≤ most_farms) }
    ensures { result ≡ all_below n (farm_loaded sheet.now m) }
{
    (0..n).all(|p| farm_loaded(sheet, m, p))
}
