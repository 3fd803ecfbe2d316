// The haul sheet, read where it lies.
//
// `read` asks questions 1 to 6 of document 01, with 10 of document 02 after 4. It is total: it takes any bytes at all.

#![tactic(auto)]

mod one_pass;

ghost use Rattle.std.specs.Prelude.{◌≡◌};
ghost use Rattle.model.specs.Answers.{refused};
ghost use Rattle.refusal.specs.Numbers.{number_of, answer_of};
ghost use Rattle.questions.specs.Reading.{reading};
ghost use Rattle.sheet.specs.OnePass.{Fails};

pub use questions::{Counts, MOST_BYTES, MOST_FARMS, MOST_YARDS};
use refusal::Refusal;

// The counts of yards and farms, or the first question of 1 to 4, 10, 5 and 6 that is answered no.
pub fn read(sheet: &[u8]) -> Result<Counts, Refusal>
    ensures { answer_of result ≡ reading sheet.now }
{
    let mut table = [0u32; four_point::PLACES];
    let Some(counts) = one_pass::counts_of(sheet, &mut table) else {
        return Err(refusal_of(sheet));
    };
    if !four_point::keeps_rule(&table, counts.yards, counts.farms) {
        return Err(Refusal::FourPoints);
    }
    Ok(counts)
}

// What refuses a sheet that some question before 6 turns down: it is 5 where 1 to 4 and 10 do not.
fn refusal_of(sheet: &[u8]) -> Refusal
    requires { Fails sheet.now }
    ensures { refused (number_of result) ≡ reading sheet.now }
{
    match questions::form_and_loads_of(sheet) {
        Ok(_) => Refusal::Amount,
        Err(refusal) => refusal,
    }
}
