// The sheet's amounts in flat tables, so that the search reads no record: the fees, and the hauls times loads, each so many times.
ghost use Rattle.std.specs.Prelude.{◌≡◌, ◌+◌, ◌*◌, ◌≤◌, ◌<◌, length};
ghost use Rattle.record.specs.Records.{amount_at};
ghost use Rattle.plan_search.specs.SheetTables.{Holds, most_factor, scaled_fee, scaled_haul};

use crate::read_sheet::ReadSheet;
use record::Record;

// Stays beside `record_within` of `sheet` and `distances`: it has a `requires`, and every public function is total.
// The amount of record k, read as a part of the bytes: of eight bytes the compiler knows that they hold a record.
fn amount_at(bytes: &[u8], k: usize) -> u32
    requires { 8 * k + 8 ≤ length bytes.now }
    ensures { result ≡ amount_at bytes.now k }
{
    let at = Record::LEN * k;
    let record = Record::at(&bytes[at..at + Record::LEN], 0);
    record.amount
}

// Fills the front of a table with the fees, each times the factor.
pub(crate) fn fill_fees(sheet: ReadSheet, factor: u64, table: &mut [u64])
    requires { (factor ≤ most_factor) × (sheet.counted.yards ≤ length table.old) }
    ensures { Holds (scaled_fee factor sheet.entry.counted.bytes.now) sheet.entry.counted.yards table.new }
{
    for i in 0..sheet.counted.yards {
        table[i] = factor * (sheet.counted.fee(i) as u64);
    }
}

// Fills a farm's row, behind those of the farms before it.
fn fill_row(sheet: ReadSheet, factor: u64, farm: usize, table: &mut [u32])
    requires { (factor ≤ most_factor) × (farm < sheet.counted.farms) × (sheet.counted.farms * sheet.counted.yards ≤ length table.old) × Holds (scaled_haul factor sheet.counted.bytes.now sheet.counted.yards) (farm * sheet.counted.yards) table.old }
    ensures { Holds (scaled_haul factor sheet.entry.counted.bytes.now sheet.entry.counted.yards) (farm * sheet.entry.counted.yards + sheet.entry.counted.yards) table.new }
{
    let yards = sheet.counted.yards;
    let hauls = sheet.counted.hauls(farm);
    let loads = factor * questions::loads_of(sheet.counted.loads_byte(farm));
    for a in 0..yards {
        // a product of 64 bits is one instruction for two hauls, one of 32 bits takes several
        let cost = loads * (amount_at(hauls, a) as u64);
        table[farm * yards + a] = cost as u32;
    }
}

// Fills the front of a table with the rows of all farms.
pub(crate) fn fill_rows(sheet: ReadSheet, factor: u64, table: &mut [u32])
    requires { (factor ≤ most_factor) × (sheet.counted.farms * sheet.counted.yards ≤ length table.old) }
    ensures { Holds (scaled_haul factor sheet.entry.counted.bytes.now sheet.entry.counted.yards) (sheet.entry.counted.farms * sheet.entry.counted.yards) table.new }
{
    for farm in 0..sheet.counted.farms {
        fill_row(sheet, factor, farm, table);
    }
}
