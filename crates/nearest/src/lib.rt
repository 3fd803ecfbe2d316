// A farm's nearest open yard: the smallest haul, among equals the lower fee, and only then the lower number (document 02, paper 1). And its second
// one, the nearest of the others (paper 5). Every call is total.

#![tactic(auto)]

ghost use Rattle.std.specs.Prelude.{◌≡◌, ◌<◌};
ghost use Rattle.sets.specs.Members.{listed};
ghost use Rattle.nearest.specs.Nearest.{told, nearest_in, nearest_on, second_on};
ghost use Rattle.nearest.specs.Choices.{no_yard, choice_of, AmountsFit, nearer};

use record::Record;

// A haul and a fee stand in one number: the haul times this, and the fee.
const HAUL_STEP: u64 = 4294967296;

// No yard is numbered so, and no haul and fee come after this number.
const NO_YARD: usize = 256;

const LAST_KEY: u64 = 18446744073709551615;

// A yard and the haul there.
#[derive(Clone, Copy)]
pub struct Nearest {
    pub yard: usize,
    pub haul: u32,
}

// What stands in the place of a nearest yard where there is none.
pub const NOWHERE: Nearest = Nearest { yard: 0, haul: 0 };

// A yard with its key, the haul and the fee in one number: of two keys the lesser has the smaller haul or, among equals, the lower
// fee. The choice of none has the last of keys.
// Stays without an Option: with one, and a derived order, a price took 1.15 times as long, and an open plan 1.09 times.
#[derive(Clone, Copy)]
struct Choice {
    yard: usize,
    key: u64,
}

// The nearest yard of the set on a farm's stretch of the sheet, by the fees in the yards' records. The sheet itself will do for
// these: its first records are the yards'. The yards are those that have a record in both.
pub fn nearest_yard(fees: &[u8], hauls: &[u8], set: u32) -> Option<Nearest>
    ensures { told result ≡ nearest_on fees.now hauls.now set }
{
    let open = sets::members_of(set);
    nearest_listed(fees, hauls, open.yards())
}

// The second nearest, in the same order.
pub fn second_yard(fees: &[u8], hauls: &[u8], set: u32) -> Option<Nearest>
    ensures { told result ≡ second_on fees.now hauls.now set }
{
    let first = nearest_yard(fees, hauls, set)?;
    nearest_yard(fees, hauls, sets::removed(set, first.yard))
}

// The nearest of the yards listed, in whatever order and however often, for a caller that asks it of many farms.
pub fn nearest_listed(fees: &[u8], hauls: &[u8], yards: &[u8]) -> Option<Nearest>
    ensures { told result ≡ nearest_in fees.now hauls.now (listed yards.now) }
{
    let mut best = Choice {
        yard: NO_YARD,
        key: LAST_KEY,
    };
    for yard in yards {
        best = nearer_of(best, choice_of(fees, hauls, *yard));
    }
    if best.yard == NO_YARD {
        return None;
    }
    Some(Nearest {
        yard: best.yard,
        haul: (best.key / HAUL_STEP) as u32,
    })
}

// The choice of a yard, or of none where the yard has not both records.
fn choice_of(fees: &[u8], hauls: &[u8], yard: u8) -> Choice
    ensures choice { result ≡ choice_of fees.now hauls.now yard }
    ensures small { (yard < no_yard) × AmountsFit fees.now hauls.now yard }
{
    let at = yard as usize;
    if fees.len().min(hauls.len()) / Record::LEN <= at {
        return Choice {
            yard: NO_YARD,
            key: LAST_KEY,
        };
    }
    let from = Record::LEN * at;
    let haul = Record::at(&hauls[from..from + Record::LEN], 0).amount;
    let fee = Record::at(&fees[from..from + Record::LEN], 0).amount;
    Choice {
        yard: at,
        key: HAUL_STEP * (haul as u64) + (fee as u64),
    }
}

// The nearer of two, the lower number among equals.
// Stays an order by hand: with a derived one, and an Option, a price took 1.15 times as long.
fn nearer_of(a: Choice, b: Choice) -> Choice
    ensures { result ≡ nearer a b }
{
    // rare, so that the test below, which is not, takes no jump
    if b.key == a.key {
        return if b.yard < a.yard { b } else { a };
    }
    if b.key < a.key { b } else { a }
}
