// Reads one sheet from standard input and prints its open plan, or the number of the question that refuses it.

#![tactic(auto)]

ghost use Rattle.std.specs.Prelude.{◌≤◌, length};

use record::{Kind, Record};
use refusal::{Numbered, Refusal};
use sheet::{MOST_BYTES, MOST_FARMS, MOST_YARDS};
use std::io::Read;

// One byte more than the longest sheet, so that a longer one is refused and not cut.
const INPUT: usize = MOST_BYTES + 1;

// The records of 32 yards, 128 farms, the total and the moves.
const AREA: usize = Record::LEN * (MOST_YARDS + MOST_FARMS + 2);

// A yard with its fee; a farm, its yard, its haul; the total; the moves. A plan has no other kind.
// Stays a function: `Display` belongs to the library and `Record` to another crate, and a type round it would be longer than its one use.
fn print_record(rt: &impl Print, held: Record) -> bool {
    let amount = held.amount;
    let printed = match Kind::try_from(held.kind) {
        Ok(Kind::Open) => println!(rt; "open {} {amount}", held.yard),
        Ok(Kind::Farm) => println!(rt; "farm {} {} {amount}", held.farm, held.yard),
        Ok(Kind::Total) => println!(rt; "total {amount}"),
        Ok(Kind::Moves) => println!(rt; "moves {amount}"),
        _ => return false,
    };
    printed.is_ok()
}

// Printing stops at the first write that fails: a line left out of the middle would not be missed.
fn print_plan(rt: &impl Print, area: &[u8], bytes: usize) -> bool {
    for i in 0..bytes / Record::LEN {
        if !print_record(rt, Record::at(area, i)) {
            return false;
        }
    }
    true
}

fn print_refusal(rt: &impl Print, refusal: Refusal) -> bool {
    println!(rt; "refused {}", refusal.number()).is_ok()
}

fn plan_of(rt: &impl Print, sheet: &[u8]) -> bool {
    let mut area = [0u8; AREA];
    match search::open_plan(sheet, &mut area) {
        Ok(written) => print_plan(rt, &area, written.bytes),
        Err(refusal) => print_refusal(rt, refusal),
    }
}

// Reads until the bytes are full, the input ends or a read fails; how many bytes came.
fn read_full(from: &mut impl Read, input: &mut [u8]) -> usize
    ensures { result ≤ length input.new }
{
    let mut done = 0;
    // Stays a loop by hand: the library's `read_exact` does not tell how many bytes came.
    while done < input.len() {
        let came = from.read(&mut input[done..]).unwrap_or(0);
        if came == 0 {
            return done;
        }
        done += came;
    }
    done
}

// Has the input come to its end? A read that fails is no end: a sheet cut short could pass for another sheet.
fn at_end(from: &mut impl Read) -> bool {
    let mut more = [0u8; 1];
    from.read(&mut more).is_ok_and(|came| came == 0)
}

fn main(rt: HostRuntime) {
    let mut from = rt.stdin();
    let mut input = [0u8; INPUT];
    let n = read_full(&mut from, &mut input);
    if n < INPUT && !at_end(&mut from) {
        let _told = eprintln!(rt; "plan: the sheet could not be read").is_ok();
        return;
    }
    if !plan_of(&rt, &input[..n]) {
        let _told = eprintln!(rt; "plan: the list could not be written whole").is_ok();
    }
}
