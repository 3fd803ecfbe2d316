// Questions 11 and 12: a tariff read from its records.
ghost use Rattle.std.specs.Prelude.{◌≡◌, true, ◌-◌, ◌≤◌, ◌<◌};
ghost use Rattle.record.specs.Records.{records};
ghost use Rattle.tariff.specs.Questions.{band_of, in_place, no_rise, question11, question12};
ghost use Rattle.tariff.specs.Reading.{bands_of, tariff_reading, ReadAs};
ghost use Rattle.tariff.specs.Pricing.{PricesAs};

use crate::bands::{Band, MOST_BANDS, Tariff};
use record::{Kind, Record};
use refusal::Refusal;

// The bytes of the longest tariff.
const MOST_BYTES: usize = Record::LEN * MOST_BANDS;

const HALF_WORD: u32 = 65536;

// The tariff that the bytes hold, or the first question of 11 and 12 that is answered no.
pub fn read_tariff(bytes: &[u8]) -> Result<Tariff, Refusal>
    ensures { ReadAs (tariff_reading bytes.now) result }
{
    if !bands_good(bytes) {
        return Err(Refusal::Tariff);
    }
    if !rates_good(bytes) {
        return Err(Refusal::Rate);
    }
    Ok(tariff_of(bytes))
}

// The band that a record holds: its start in bytes 2 and 3, its end in 4 and 5, its rate in 6 and 7.
impl From<Record> for Band {
    ghost from_gives = { λ held band. band ≡ band_of held };

    fn from(held: Record) -> Band {
        Band {
            start: u16::from_le_bytes([held.farm, held.byte3]),
            end: (held.amount % HALF_WORD) as u16,
            rate: (held.amount / HALF_WORD) as u16,
        }
    }
}

// Question 11.
fn bands_good(bytes: &[u8]) -> bool
    ensures { result ≡ question11 bytes.now }
{
    if bytes.len() % Record::LEN != 0 {
        return false;
    }
    if bytes.len() < Record::LEN {
        return false;
    }
    if MOST_BYTES < bytes.len() {
        return false;
    }
    let mut start = 0;
    for i in 0..bytes.len() / Record::LEN {
        let record = Record::at(bytes, i);
        let band = Band::from(record);
        if !in_place(record, band, i, start) {
            return false;
        }
        start = band.end;
    }
    true
}

// Question 11 of record i, with its band and where it is to start.
fn in_place(held: Record, band: Band, i: usize, start: u16) -> bool
    ensures { result ≡ in_place held band i start }
{
    held.kind == Kind::Band as u8
        && ((held.yard as usize) == i && (band.start == start && band.start < band.end))
}

// Question 12.
fn rates_good(bytes: &[u8]) -> bool
    ensures { result ≡ question12 bytes.now }
{
    (1..bytes.len() / Record::LEN).all(|i| no_rise(bytes, i))
}

// Is the rate of band i not above that of the band before it?
fn no_rise(bytes: &[u8], i: usize) -> bool
    requires { (1 ≤ i) × (i < records bytes.now) }
    ensures { result ≡ no_rise bytes.now (i - 1) }
{
    let before = Band::from(Record::at(bytes, i - 1));
    let band = Band::from(Record::at(bytes, i));
    band.rate <= before.rate
}

// The tariff of all records.
fn tariff_of(bytes: &[u8]) -> Tariff
    requires { (question11 bytes.now ≡ true) × (question12 bytes.now ≡ true) }
    ensures { PricesAs (bands_of bytes.now) result }
{
    let mut tariff = Tariff::without_bands();
    let mut cost = 0;
    for i in 0..bytes.len() / Record::LEN {
        let band = Band::from(Record::at(bytes, i));
        tariff = tariff.with_band(i, band, cost);
        cost += band.whole_charge();
    }
    tariff
}
