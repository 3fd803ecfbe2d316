// The kinds of the records, each by its byte.
ghost use Rattle.record.specs.Kinds.{KindOf};

// What a record tells: of a sheet, a yard's fee and a haul; of a tariff, a band; of offers, one; of a plan, an open yard, a farm's yard, the
// total and the moves. A record's own byte may be that of no kind.
#[derive(Clone, Copy, Debug, PartialEq, Eq)]
pub enum Kind {
    Farm = 0x41,
    Band = 0x42,
    Haul = 0x48,
    Moves = 0x4D,
    Open = 0x4F,
    Total = 0x54,
    Offer = 0x56,
    Yard = 0x59,
}

// A byte that no kind has.
#[derive(Clone, Copy, Debug, PartialEq, Eq)]
pub struct UnknownKind(pub u8);

impl TryFrom<u8> for Kind {
    type Error = UnknownKind;

    ghost try_from_gives = { KindOf };

    fn try_from(byte: u8) -> Result<Kind, UnknownKind> {
        match byte {
            0x41 => Ok(Kind::Farm),
            0x42 => Ok(Kind::Band),
            0x48 => Ok(Kind::Haul),
            0x4D => Ok(Kind::Moves),
            0x4F => Ok(Kind::Open),
            0x54 => Ok(Kind::Total),
            0x56 => Ok(Kind::Offer),
            0x59 => Ok(Kind::Yard),
            _ => Err(UnknownKind(byte)),
        }
    }
}
