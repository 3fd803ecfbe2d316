// What a call that searches answers, as a number of 64 bits for Rust and C: bits 0 to 7 are the refusal number, 0 where the call is accepted, bits 8 to 30 the
// bytes written, bit 31 whether the search was stopped, bits 32 to 63 the moves. A refused call gives its number alone. The set is read off the area (crate
// `plan_set`).
//
// The call is total: more bytes than 23 bits hold are cut, which no plan has.

#![tactic(auto)]

ghost use Rattle.std.specs.Prelude.{◌≡◌};
ghost use Rattle.plan_search.specs.Planning.{searched_by};
ghost use Rattle.search_numbers.specs.SearchNumbers.{searched_number};

use plan_search::Searched;
use refusal::Numbered;

// What the parts of a number count for that begin at bit 8, at bit 31 and at bit 32; and how many bytes there are at most.
const BIT_8: u64 = 256;

const BIT_31: u64 = 2147483648;

const BIT_32: u64 = 4294967296;

const BYTES_END: u64 = 8388608;

// Stays a function, and two sums: a `From` of the library's `Result` could stand in no crate here, and the two differ in the bit between.
pub fn searched_number<E: Numbered>(searched: Result<Searched, E>) -> u64
    ensures { result ≡ searched_number (searched_by E.number searched) }
{
    match searched {
        Ok(Searched::Settled { bytes, moves, .. }) => {
            (bytes as u64) % BYTES_END * BIT_8 + (moves as u64) * BIT_32
        }
        Ok(Searched::Stopped { bytes, moves, .. }) => {
            (bytes as u64) % BYTES_END * BIT_8 + BIT_31 + (moves as u64) * BIT_32
        }
        Err(refusal) => refusal.number() as u64,
    }
}
