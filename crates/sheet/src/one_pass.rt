// Questions 1 to 4, 10 and 5 in one pass over a good sheet, which puts its hauls in the table of question 6 as it goes. Where the pass finds a
// fault, the questions are asked one by one, for the number of the first that is answered no.
ghost use Rattle.std.specs.Prelude.{◌≡◌, true, ◌+◌, ◌*◌, ◌≤◌, length};
ghost use Rattle.std.specs.Option.{unwrap_or};
ghost use Rattle.model.specs.Loops.{all_below};
ghost use Rattle.record.specs.Records.{record_at};
ghost use Rattle.questions.specs.Shape.{Shape};
ghost use Rattle.sheet.specs.Hauls.{HasRows, Filled};
ghost use Rattle.sheet.specs.OnePass.{record_is, good_yards, good_farm, Told};

use questions::{Counts, LEAST_BYTES, MOST_BYTES, MOST_FARMS, MOST_LOADS, MOST_YARDS};
use record::{Kind, Record};

const MOST_FEE: u32 = 50000000;

const MOST_HAUL: u32 = 1000000;

// The counts of yards and farms, with the hauls put in the table; none where there is some fault.
pub(crate) fn counts_of(sheet: &[u8], table: &mut [u32]) -> Option<Counts>
    requires { HasRows table.old }
    ensures { Told sheet.now result table.new }
{
    if sheet.len() % Record::LEN != 0 {
        return None;
    }
    if sheet.len() < LEAST_BYTES {
        return None;
    }
    if MOST_BYTES < sheet.len() {
        return None;
    }
    let yards = good_yards(sheet)?;
    if yards < 1 {
        return None;
    }
    let hauls = sheet.len() / Record::LEN - yards;
    let farms = hauls / yards;
    if farms < 1 {
        return None;
    }
    if MOST_FARMS < farms {
        return None;
    }
    if hauls != farms * yards {
        return None;
    }
    if !good_farms(sheet, yards, farms, table) {
        return None;
    }
    Some(Counts { yards, farms })
}

// Record i, read as a part of the sheet: of eight bytes the compiler knows that they hold a record.
// Stays a copy of the one in `distances`: every public function is total, and this one asks that the record lies within.
fn record_within(sheet: &[u8], i: usize) -> Record
    requires { 8 * i + 8 ≤ length sheet.now }
    ensures { result ≡ record_at sheet.now i }
{
    let at = Record::LEN * i;
    Record::at(&sheet[at..at + Record::LEN], 0)
}

// The record that a place asks for: well-formed, of this kind, with this yard, this farm and this byte 3, the amount at most `most`.
fn record_is(tested: Record, kind: u8, yard: u8, farm: u8, byte3: u8, most: u32) -> bool
    ensures { result ≡ record_is tested kind yard farm byte3 most }
{
    questions::well_formed(tested)
        && tested.kind == kind
        && tested.yard == yard
        && tested.farm == farm
        && tested.byte3 == byte3
        && tested.amount <= most
}

// How many yards stand first, where they are not too many and each is good.
fn good_yards(sheet: &[u8]) -> Option<usize>
    ensures { unwrap_or result 0 ≡ good_yards sheet.now }
{
    let records = sheet.len() / Record::LEN;
    for i in 0..records {
        let record = record_within(sheet, i);
        if record.kind != Kind::Yard as u8 {
            return Some(i);
        }
        if MOST_YARDS <= i {
            return None;
        }
        if !record_is(record, Kind::Yard as u8, i as u8, 0, 0, MOST_FEE) {
            return None;
        }
    }
    Some(records)
}

// Tests farm p's haul records, and puts each haul in the row of its yard. The first one's loads are asked of all.
fn good_farm(sheet: &[u8], m: usize, p: usize, table: &mut [u32]) -> bool
    requires { Shape sheet.now m (p + 1) × Filled sheet.now m p 0 table.old }
    ensures good { result ≡ good_farm sheet.now m p }
    ensures filled { result ≡ true → Filled sheet.now m (p + 1) 0 table.new }
{
    let loads = record_within(sheet, m + p * m).byte3;
    if MOST_LOADS < loads {
        return false;
    }
    for a in 0..m {
        let record = record_within(sheet, m + p * m + a);
        if !record_is(record, Kind::Haul as u8, a as u8, p as u8, loads, MOST_HAUL) {
            return false;
        }
        table[four_point::ROW_PLACES * a + p] = record.amount;
    }
    true
}

fn good_farms(sheet: &[u8], m: usize, n: usize, table: &mut [u32]) -> bool
    requires { Shape sheet.now m n × HasRows table.old }
    ensures good { result ≡ all_below n (good_farm sheet.now m) }
    ensures filled { result ≡ true → Filled sheet.now m n 0 table.new }
{
    for p in 0..n {
        if !good_farm(sheet, m, p, table) {
            return false;
        }
    }
    true
}
