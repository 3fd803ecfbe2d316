// Where a search begins, and the question that is asked of it: document 01's starts, or a given set (document 02, paper 7).
//
// Every call is total.

#![tactic(auto)]

ghost use Rattle.std.specs.Prelude.{◌≡◌};
ghost use Rattle.refusal.specs.Numbers.{answer_of};
ghost use Rattle.starts.specs.Starts.{asked_start, start_refusal, engine_start};

use engine::Start;
use refusal::{Numbered, Refusal};
use sheet::MOST_YARDS;

// At the single yard of least cost, the lowest number among equals, at yards 0 to k - 1, or at a given set, of which bit i marks yard i.
#[derive(Clone, Copy)]
pub enum PlanStart {
    Cheapest,
    First(usize),
    Given(u32),
}

// Asks the start's question for a sheet of m yards: 7 of so many yards, 8 of a given set, none of the cheapest one.
pub fn ask_start(start: PlanStart, m: usize) -> Result<(), Refusal>
    ensures { answer_of result ≡ asked_start start m }
{
    // Stays a match on the start's kind: what is asked of each is a clause of its own.
    match start {
        PlanStart::Cheapest => Ok(()),
        PlanStart::First(k) => {
            if k < 1 {
                return Err(Refusal::YardCount);
            }
            if m < k {
                Err(Refusal::YardCount)
            } else {
                Ok(())
            }
        }
        PlanStart::Given(set) => {
            if price::set_good(m, set) {
                Ok(())
            } else {
                Err(Refusal::Set)
            }
        }
    }
}

// The number of that question where it is answered no, else 0.
pub fn start_refusal(start: PlanStart, m: usize) -> u8
    ensures { result ≡ start_refusal start m }
{
    match ask_start(start, m) {
        Ok(()) => 0,
        Err(refusal) => refusal.number(),
    }
}

// The engine's start. For more than 32 yards, which no sheet has, it is the empty set, which the engine turns down.
pub fn engine_start(start: PlanStart) -> Start
    ensures { result ≡ engine_start start }
{
    // Stays a match: it gives a value for each kind, and runs nothing.
    match start {
        PlanStart::Cheapest => Start::Cheapest,
        PlanStart::First(k) => {
            if MOST_YARDS < k {
                return Start::Set(0);
            }
            let first_yards = (1u64 << (k as u64)) - 1;
            Start::Set(first_yards as u32)
        }
        PlanStart::Given(set) => Start::Set(set),
    }
}
