// A block of records, priced together.
ghost use Rattle.std.specs.Prelude.{◌≡◌, true, false, ℕ, ◌+◌, ◌*◌, ◌%◌, ◌≤◌, ◌<◌, length, MatchOption};
ghost use Rattle.model.specs.Loops.{all_below};
ghost use Rattle.record.specs.Records.{records, record_at, amount_end};
ghost use Rattle.tariff.specs.Bounds.{block};
ghost use Rattle.tariff.specs.Pricing.{price_of};
ghost use Rattle.distances.specs.Priced.{priced_record, priced_sheet};
ghost use Rattle.distances.specs.Blocks.{distance_of, within_reach, NearRecords};

use record::{Kind, Record};
use tariff::{BLOCK, Tariff};

// The bytes of the longest block.
pub(crate) const BLOCK_BYTES: usize = Record::LEN * BLOCK;

// Prices the records of a block to as many bytes, where no distance of theirs is past the tariff's reach; says whether that is so.
// That hauls fit stays in four contracts: as a ghost field of a struct passed by reference, reading was slower by 1.5 of 34 microseconds.
pub(crate) fn price_block(part: &[u8], by: Tariff, hauls: &mut [u8]) -> bool
    requires { (length part.now % 8 ≡ 0) × (length part.now ≤ 8 * block) × (length hauls.old ≡ length part.now) × ((d : ℕ) → d ≤ by.reach → price_of by d < amount_end) }
    ensures within { result ≡ all_below (records part.now) (within_reach by.reach part.now) }
    ensures area { result ≡ true → hauls.new ≡ priced_sheet (price_of by) part.now }
{
    let Some(distances) = distances_of(part, by.reach) else {
        return false;
    };
    put_block(part, by, distances, hauls);
    true
}

// Record i, read as a part of the bytes: of eight bytes the compiler knows that they hold a record.
// Stays beside the one in `sheet`: it has a `requires`, and by a rule of the project every public function is total.
fn record_within(bytes: &[u8], i: usize) -> Record
    requires { 8 * i + 8 ≤ length bytes.now }
    ensures { result ≡ record_at bytes.now i }
{
    let at = Record::LEN * i;
    Record::at(&bytes[at..at + Record::LEN], 0)
}

// The distance that a haul record holds; 0 for any other.
// Stays 0 and no option: every place of a block has a distance.
fn distance_of(held: Record) -> u32
    ensures { result ≡ distance_of held }
{
    if held.kind == Kind::Haul as u8 {
        held.amount
    } else {
        0
    }
}

// The distances of a block's records, where none is past the reach.
fn distances_of(part: &[u8], reach: u16) -> Option<[u16; BLOCK]>
    requires { length part.now ≤ 8 * block }
    ensures { MatchOption result (all_below (records part.now) (within_reach reach part.now) ≡ false) (λ distances. NearRecords reach part.now distances) }
{
    let mut distances = [0; BLOCK];
    for k in 0..part.len() / Record::LEN {
        let distance = distance_of(record_within(part, k));
        if u32::from(reach) < distance {
            return None;
        }
        distances[k] = distance as u16;
    }
    Some(distances)
}

// The record with this haul in the place of its distance; any record but a haul as it is. Only the amount is chosen, so that no record takes
// another way through the loop.
fn priced_record(held: Record, haul: u32) -> Record
    ensures { result ≡ priced_record (λ d. haul) held }
{
    let is_haul = held.kind == Kind::Haul as u8;
    let amount = if is_haul { haul } else { held.amount };
    Record { amount, ..held }
}

// Writes the records of a block, priced: a haul is on the line of its distance's band.
fn put_block(part: &[u8], by: Tariff, distances: [u16; BLOCK], hauls: &mut [u8])
    requires { (length part.now % 8 ≡ 0) × (length part.now ≤ 8 * block) × (length hauls.old ≡ length part.now) × ((d : ℕ) → d ≤ by.reach → price_of by d < amount_end) × NearRecords by.reach part.now distances }
    ensures { hauls.new ≡ priced_sheet (price_of by) part.now }
{
    let bands = tariff::bands_of(by, distances);
    for k in 0..part.len() / Record::LEN {
        let band = usize::from(bands[k]);
        let haul = u64::from(by.intercepts[band])
            + u64::from(distances[k]) * u64::from(by.rates[band]);
        let record = priced_record(record_within(part, k), haul as u32);
        record.put(hauls, Record::LEN * k);
    }
}
