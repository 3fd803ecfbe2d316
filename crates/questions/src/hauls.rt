// Question 4: the haul records.
ghost use Rattle.std.specs.Prelude.{◌≡◌, ◌+◌, ◌*◌, ◌≤◌, length};
ghost use Rattle.model.specs.Loops.{all_below};
ghost use Rattle.questions.specs.Bounds.{most_yards, most_farms};
ghost use Rattle.questions.specs.Sheet.{yards, farms};
ghost use Rattle.questions.specs.Questions.{farm_in_place, question4};

use crate::MOST_FARMS;
use record::Record;

// The haul records, shared out m to a farm.
pub(crate) fn farm_count(sheet: &[u8], m: usize) -> usize
    requires { (m ≡ yards sheet.now) × (1 ≤ m) }
    ensures { result ≡ farms sheet.now }
{
    (sheet.len() / Record::LEN - m) / m
}

// Farm p's haul records have the numbers of their places.
fn farm_in_place(sheet: &[u8], m: usize, p: usize) -> bool
    requires { 8 * (m + p * m) + 8 * m ≤ length sheet.now }
    ensures { result ≡ farm_in_place sheet.now m p }
{
    (0..m).all(|a| {
        let record = Record::at(sheet, m + p * m + a);
        record.yard as usize == a && record.farm as usize == p
    })
}

fn farms_in_place(sheet: &[u8], m: usize, n: usize) -> bool
    requires { (8 * (m + n * m) ≤ length sheet.now) × (n ≤ most_farms) }
    ensures { result ≡ all_below n (farm_in_place sheet.now m) }
{
    (0..n).all(|p| farm_in_place(sheet, m, p))
}

// Question 4, of a sheet with m yard records first and the rest shared out to n farms.
pub(crate) fn hauls_good(sheet: &[u8], m: usize, n: usize) -> bool
    requires { (m ≡ yards sheet.now) × (n ≡ farms sheet.now) × (m ≤ most_yards) }
    ensures { result ≡ question4 sheet.now }
{
    if n < 1 {
        return false;
    }
    if MOST_FARMS < n {
        return false;
    }
    if sheet.len() / Record::LEN - m != n * m {
        return false;
    }
    farms_in_place(sheet, m, n)
}
