// The bands of distances by a tariff, a block of them at a time.
//
// The band of a distance is the count of the ends that it is past. The loops go over the distances of a block for one end after the other, without
// a branch on the distances, and every x86-64 processor does eight of them at a time.
ghost use Rattle.std.specs.Prelude.{◌≡◌, ℕ, ◌+◌, ◌<◌, get_or, ltb};
ghost use Rattle.model.specs.Loops.{on};
ghost use Rattle.tariff.specs.Bounds.{last_band, block};
ghost use Rattle.tariff.specs.Pricing.{band_passed};

use crate::bands::{MOST_BANDS, Tariff};

const LAST_BAND: usize = MOST_BANDS - 1;

// How many distances a block has.
pub const BLOCK: usize = 64;

// The numbers of the bands of a block of distances.
pub fn bands_of(tariff: Tariff, distances: [u16; BLOCK]) -> [u16; BLOCK]
    ensures { (k : ℕ) → k < block → get_or result k 0 ≡ band_passed tariff (get_or distances k 0) }
{
    // No distance that is priced is past the last end, and bands from 16 on stand for the sixteenth.
    let last = tariff.last.min(LAST_BAND);
    let mut passed = [0; BLOCK];
    for end in &tariff.ends[..last] {
        count_end(*end, &distances, &mut passed);
    }
    passed
}

// Counts the end for each distance that is past it.
fn count_end(end: u16, distances: &[u16; BLOCK], passed: &mut [u16; BLOCK])
    requires { (k : ℕ) → k < block → get_or passed.old k 0 < last_band }
    ensures { (k : ℕ) → k < block → get_or passed.new k 0 ≡ get_or passed.old k 0 + on (ltb end (get_or distances.now k 0)) 1 }
{
    for k in 0..BLOCK {
        passed[k] += u16::from(end < distances[k]);
    }
}
