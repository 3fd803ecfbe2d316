// The questions put to a sheet: what 1 to 6 and 10 ask (specs/), and the code that asks 1 to 4, the form of a sheet, and 10 one by one.
//
// `form_of` and `form_and_loads_of` give the counts of yards and farms or the refusal by the first "no"; `well_formed` is question 2 of one
// record, and `loads_of` reads the byte of a farm's loads. All take anything.

#![tactic(auto)]

mod hauls;
mod loads;
mod yards;

ghost use Rattle.std.specs.Prelude.{◌≡◌};
ghost use Rattle.questions.specs.Sheet.{loads_of};
ghost use Rattle.questions.specs.Questions.{question1, well_formed, question2};
ghost use Rattle.refusal.specs.Numbers.{answer_of};
ghost use Rattle.questions.specs.Reading.{form, form_and_loads};

use record::{Kind, Record};
use refusal::Refusal;

pub const LEAST_BYTES: usize = 16;

pub const MOST_BYTES: usize = 33024;

pub const MOST_YARDS: usize = 32;

pub const MOST_FARMS: usize = 128;

pub const MOST_LOADS: u8 = 20;

// How many yards and farms a sheet has that passes the questions asked.
#[derive(Clone, Copy)]
pub struct Counts {
    pub yards: usize,
    pub farms: usize,
}

// Questions 1 to 4.
pub fn form_of(sheet: &[u8]) -> Result<Counts, Refusal>
    ensures { answer_of result ≡ form sheet.now }
{
    if !length_good(sheet) {
        return Err(Refusal::Length);
    }
    if !records_good(sheet) {
        return Err(Refusal::Kind);
    }
    let yards = yards::leading_yards(sheet);
    if !yards::yards_good(sheet, yards) {
        return Err(Refusal::Yards);
    }
    let farms = hauls::farm_count(sheet, yards);
    if !hauls::hauls_good(sheet, yards, farms) {
        return Err(Refusal::Hauls);
    }
    Ok(Counts { yards, farms })
}

// Questions 1 to 4, and 10 after them.
pub fn form_and_loads_of(sheet: &[u8]) -> Result<Counts, Refusal>
    ensures { answer_of result ≡ form_and_loads sheet.now }
{
    let counts = form_of(sheet)?;
    if !loads::loads_good(sheet, counts.yards, counts.farms) {
        return Err(Refusal::Loads);
    }
    Ok(counts)
}

// The loads that a byte tells: 0 is read as 1. Stays a function: it is public, and a byte is no type of ours to convert from.
pub fn loads_of(byte3: u8) -> u64
    ensures { result ≡ loads_of byte3 }
{
    u64::from(byte3.max(1))
}

// Question 2 of one record.
pub fn well_formed(record: Record) -> bool
    ensures { result ≡ well_formed «record» }
{
    if record.kind == Kind::Yard as u8 {
        return record.farm == 0 && record.byte3 == 0;
    }
    record.kind == Kind::Haul as u8
}

// Question 1.
fn length_good(sheet: &[u8]) -> bool
    ensures { result ≡ question1 sheet.now }
{
    sheet.len() % Record::LEN == 0 && (LEAST_BYTES..=MOST_BYTES).contains(&sheet.len())
}

// Question 2.
fn records_good(sheet: &[u8]) -> bool
    ensures { result ≡ question2 sheet.now }
{
    let n = sheet.len() / Record::LEN;
    (0..n).all(|i| well_formed(Record::at(sheet, i)))
}
