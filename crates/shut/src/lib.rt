// What if this yard shuts (document 02, paper 5): a farm's second open yard, and the change in full cost where one open yard shuts. Both calls ask
// what reading asks and question 8 of the set, are lent no area, and are total.

#![tactic(auto)]

ghost use Rattle.std.specs.Prelude.{◌≡◌, ◌^◌, ◌<◌, ◌&&◌, leb, pos, ◌-ℤ◌};
ghost use Rattle.model.specs.Sets.{member, without};
ghost use Rattle.refusal.specs.Numbers.{answer_of};
ghost use Rattle.shut.specs.Shutting.{second_answer, seconding, shutting, IsDifference};

use hauls_moved::hauls_moved;
use nearest::Nearest;
use refusal::Refusal;
use sheet::Counts;
use stretch::CountedSheet;

mod hauls_moved;
mod shut_yard;

// The second nearest open yard of a farm and the haul there, in the order that a plan goes by. A farm n or above has none.
pub fn second(sheet: &[u8], set: u32, farm: usize) -> Result<Option<Nearest>, Refusal>
    ensures { second_answer result ≡ seconding sheet.now set farm }
{
    let Counts { yards, farms } = sheet::read(sheet)?;
    if !price::set_good(yards, set) {
        return Err(Refusal::Set);
    }
    if farms <= farm {
        return Ok(None);
    }
    let hauls = stretch::farm_stretch(sheet, yards, farm);
    Ok(nearest::second_yard(sheet, hauls, set))
}

// What shutting a yard changes, in cents, below zero where it saves money: the full cost of the set without the yard less that of the set, from the
// farms of the yard, their two nearest yards and their loads, and the yard's fee.
pub fn shut(sheet: &[u8], set: u32, yard: usize) -> Result<i64, Refusal>
    ensures answer { answer_of result ≡ shutting sheet.now set yard }
    ensures difference { IsDifference sheet.now set yard result }
{
    let Counts { yards, farms } = sheet::read(sheet)?;
    if !price::set_good(yards, set) {
        return Err(Refusal::Set);
    }
    if !can_shut(set, yard) {
        return Err(Refusal::ShutYard);
    }
    let counted = CountedSheet {
        bytes: sheet,
        yards,
        farms,
    };
    let fee = counted.fee(yard);
    let moved = hauls_moved(counted, set, yard);
    Ok(less(moved.elsewhere, (fee as u64) + moved.there))
}

// Is the yard in the set, and another one beside it?
fn can_shut(set: u32, yard: usize) -> bool
    ensures { result ≡ (member set yard && leb 1 (without set yard)) }
{
    sets::has(set, yard) && 1 <= sets::removed(set, yard)
}

// The first less the second.
// stays a subtraction: of numbers below 2^63 it always fits, and `checked_signed_diff` would answer an `Option` that is never `None`
fn less(a: u64, b: u64) -> i64
    requires { (a < 2 ^ 63) × (b < 2 ^ 63) }
    ensures { result ≡ pos a -ℤ pos b }
{
    a as i64 - b as i64
}
