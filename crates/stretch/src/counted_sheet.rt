// A sheet with the counts of yards and farms that a caller has read off it.
ghost use Rattle.std.specs.Prelude.{◌≡◌, ◌<◌};
ghost use Rattle.record.specs.Records.{whole_record_at};
ghost use Rattle.questions.specs.Sheet.{fee, farm_byte};
ghost use Rattle.questions.specs.Shape.{Shape};
ghost use Rattle.stretch.specs.Stretch.{stretch};

use crate::farm_stretch;
use record::Record;

// The records of so many yards and farms lie within the sheet.
#[derive(Clone, Copy)]
pub struct CountedSheet<'a> {
    pub bytes: &'a [u8],
    pub yards: usize,
    pub farms: usize,
    pub ghost shape: { Shape bytes.now yards farms },
}

impl<'a> CountedSheet<'a> {
    // The amount of a record, which is a yard's fee; 0 where the bytes do not hold the record whole.
    pub fn fee(self, yard: usize) -> u32
        ensures amount { result ≡ (whole_record_at self.entry.bytes.now yard).amount }
        ensures fee { yard < self.entry.yards → result ≡ fee self.entry.bytes.now yard }
    {
        Record::at(self.bytes, yard).amount
    }

    // A farm's haul records.
    pub fn hauls(self, farm: usize) -> &'a [u8]
        ensures { result.now ≡ stretch self.entry.bytes.now self.entry.yards farm }
    {
        farm_stretch(self.bytes, self.yards, farm)
    }

    // Byte 3 of the first of a farm's haul records, which tells its loads; 0 where the farm has none.
    pub fn loads_byte(self, farm: usize) -> u8
        ensures byte { result ≡ (whole_record_at (stretch self.entry.bytes.now self.entry.yards farm) 0).byte3 }
        ensures loads { farm < self.entry.farms → result ≡ farm_byte self.entry.bytes.now self.entry.yards farm }
    {
        Record::at(self.hauls(farm), 0).byte3
    }
}
