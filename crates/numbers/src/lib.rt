// What the calls for Rust and C are given and give back, in numbers: the choice of a tariff in eight bits, and an answer in 64, of which bits 0 to 7 are
// the refusal number, 0 where the call is accepted, and those above them what the call returns. A refused call gives its number alone.
//
// Every call is total: what has more bits than its place in the number holds is cut, which no answer of a call has.

#![tactic(auto)]

ghost use Rattle.std.specs.Prelude.{◌≡◌, ◌^◌, ◌≤◌};
ghost use Rattle.model.specs.Loops.{on};
ghost use Rattle.refusal.specs.Numbers.{answer_by};
ghost use Rattle.tariff.specs.Choices.{choice_of};
ghost use Rattle.numbers.specs.Numbers.{parts_of, second_by, counts_number, result_number, second_number, change_number, sum_number};

use nearest::Nearest;
use price::Written;
use refusal::Numbered;
use sheet::Counts;
use tariff::TariffChoice;

// What the parts of a number count for that begin at bit 8, at bit 16, at bit 24, at bit 32, at bit 48 and at bit 56.
const BIT_8: u64 = 256;

const BIT_16: u64 = 65536;

const BIT_24: u64 = 16777216;

const BIT_32: u64 = 4294967296;

const BIT_48: u64 = 281474976710656;

const BIT_56: u64 = 72057594037927936;

// The parts of the number of a second yard: whether there is one, that yard and the haul there, both 0 where there is none.
//
// A flag stands beside values here and not an option: `second_number` takes any flag with any yard and haul.
#[derive(Clone, Copy)]
pub struct SecondYard {
    pub found: bool,
    pub yard: usize,
    pub haul: u32,
}

impl From<Option<Nearest>> for SecondYard {
    ghost from_gives = { λ second parts. parts ≡ parts_of second };

    fn from(second: Option<Nearest>) -> SecondYard {
        match second {
            Some(Nearest { yard, haul }) => SecondYard {
                found: true,
                yard,
                haul,
            },
            None => SecondYard {
                found: false,
                yard: 0,
                haul: 0,
            },
        }
    }
}

// What the amounts of haul records are, by its number.
pub fn choice_of(hauls: u8) -> TariffChoice
    ensures { result ≡ choice_of hauls }
{
    TariffChoice::from(hauls)
}

// The functions below stay functions: they are public, and a `From` of the library's `Result` could stand in no crate here.

// What reading answers. Bits 8 to 15: the yards; bits 16 to 23: the farms.
pub fn counts_number<E: Numbered>(reading: Result<Counts, E>) -> u64
    ensures { result ≡ counts_number (answer_by E.number reading) }
{
    match reading {
        Ok(Counts { yards, farms }) => {
            (yards as u64) % BIT_8 * BIT_8 + (farms as u64) % BIT_8 * BIT_16
        }
        Err(unread) => unread.number() as u64,
    }
}

// What a call that writes a plan answers. Bits 8 to 31: the bytes written; bits 32 to 63: the moves.
pub fn plan_number<E: Numbered>(planned: Result<Written, E>) -> u64
    ensures { result ≡ result_number (answer_by E.number planned) }
{
    match planned {
        Ok(Written { bytes, moves }) => {
            (bytes as u64) % BIT_24 * BIT_8 + (moves as u64) * BIT_32
        }
        Err(unplanned) => unplanned.number() as u64,
    }
}

// What the call for a second yard answers. Bit 8: whether there is one; bits 16 to 23: that yard; bits 32 to 63: the haul there.
pub fn second_number<E: Numbered>(second: Result<SecondYard, E>) -> u64
    ensures { result ≡ second_number (second_by E.number second) }
{
    match second {
        Ok(SecondYard { found, yard, haul }) => {
            bit_8(found) + (yard as u64) % BIT_8 * BIT_16 + (haul as u64) * BIT_32
        }
        Err(refusal) => refusal.number() as u64,
    }
}

// What the call for a shut yard answers. Bit 8: whether the change is below zero; bits 16 to 63: its size.
pub fn change_number<E: Numbered>(change: Result<i64, E>) -> u64
    ensures { result ≡ change_number (answer_by E.number change) }
{
    match change {
        Ok(cents) => bit_8(cents < 0) + cents.unsigned_abs() % BIT_48 * BIT_16,
        Err(refusal) => refusal.number() as u64,
    }
}

// What the call for a floor answers. Bits 8 to 63: the sum.
pub fn sum_number<E: Numbered>(bound: Result<u64, E>) -> u64
    ensures { result ≡ sum_number (answer_by E.number bound) }
{
    match bound {
        Ok(sum) => sum % BIT_56 * BIT_8,
        Err(refusal) => refusal.number() as u64,
    }
}

// Bit 8 where the test holds.
fn bit_8(holds: bool) -> u64
    ensures is { result ≡ on holds (2 ^ 8) }
    ensures small { result ≤ 2 ^ 8 }
{
    if holds { BIT_8 } else { 0 }
}
