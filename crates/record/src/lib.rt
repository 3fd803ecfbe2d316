// The record: eight bytes, of whatever kind. Whatever reads or writes record bytes does it here.
//
// A record is a value; `at` reads one from bytes, `put` writes one to an area. Both take any bytes and any place.

#![tactic(auto)]

mod kind;

ghost use Rattle.std.specs.Prelude.{◌≡◌};
ghost use Rattle.record.specs.Records.{record_of, whole_record_at, put_at};

pub use kind::{Kind, UnknownKind};

#[derive(Clone, Copy)]
pub struct Record {
    pub kind: u8,
    pub yard: u8,
    pub farm: u8,
    pub byte3: u8,
    pub amount: u32,
}

impl Record {
    // The bytes of a record.
    pub const LEN: usize = 8;

    pub fn new(kind: u8, yard: u8, farm: u8, byte3: u8, amount: u32) -> Self
        ensures { result ≡ record_of kind yard farm byte3 amount }
    {
        Record {
            kind,
            yard,
            farm,
            byte3,
            amount,
        }
    }

    // Record i of the bytes, or a record of zeros where they do not hold it whole.
    pub fn at(bytes: &[u8], i: usize) -> Self
        ensures { result ≡ whole_record_at bytes.now i }
    {
        if bytes.len() / Record::LEN <= i {
            return Record::new(0, 0, 0, 0, 0);
        }
        let b = Record::LEN * i;
        let amount = u32::from_le_bytes([bytes[b + 4], bytes[b + 5], bytes[b + 6], bytes[b + 7]]);
        Record::new(bytes[b], bytes[b + 1], bytes[b + 2], bytes[b + 3], amount)
    }

    // Writes the record to the area at an offset; where it does not fit, the area is left as it was.
    pub fn put(self, area: &mut [u8], at: usize)
        ensures { area.new ≡ put_at area.old at self }
    {
        if area.len() < Record::LEN {
            return;
        }
        if area.len() - Record::LEN < at {
            return;
        }
        let [a, b, c, d] = self.amount.to_le_bytes();
        // Four bytes and four: eight that are put together first are read back before they are stored, which waits for each.
        let middle = at + 4;
        area[at..middle].copy_from_slice(&[self.kind, self.yard, self.farm, self.byte3]);
        area[middle..at + Record::LEN].copy_from_slice(&[a, b, c, d]);
    }
}
