// Question 3: the yard records.
ghost use Rattle.std.specs.Prelude.{◌≡◌, ◌*◌, ◌≤◌, length};
ghost use Rattle.model.specs.Loops.{all_below};
ghost use Rattle.questions.specs.Sheet.{yards, hauls};
ghost use Rattle.questions.specs.Questions.{numbered, no_yard_after, question3};

use crate::MOST_YARDS;
use record::{Kind, Record};

// How many yard records stand first.
pub(crate) fn leading_yards(sheet: &[u8]) -> usize
    ensures { result ≡ yards sheet.now }
{
    let n = sheet.len() / Record::LEN;
    (0..n)
        .position(|i| Record::at(sheet, i).kind != Kind::Yard as u8)
        .unwrap_or(n)
}

// The first m records are numbered in order.
fn all_numbered(sheet: &[u8], m: usize) -> bool
    requires { 8 * m ≤ length sheet.now }
    ensures { result ≡ all_below m (numbered sheet.now) }
{
    (0..m).all(|i| Record::at(sheet, i).yard as usize == i)
}

// No record after the first m is a yard.
fn no_yard_after(sheet: &[u8], m: usize) -> bool
    requires { m ≡ yards sheet.now }
    ensures { result ≡ all_below (hauls sheet.now) (no_yard_after sheet.now m) }
{
    let after = sheet.len() / Record::LEN - m;
    (0..after).all(|i| Record::at(sheet, m + i).kind != Kind::Yard as u8)
}

// Question 3, of a sheet with m yard records first.
pub(crate) fn yards_good(sheet: &[u8], m: usize) -> bool
    requires { m ≡ yards sheet.now }
    ensures { result ≡ question3 sheet.now }
{
    if m < 1 {
        return false;
    }
    if MOST_YARDS < m {
        return false;
    }
    if !all_numbered(sheet, m) {
        return false;
    }
    no_yard_after(sheet, m)
}
