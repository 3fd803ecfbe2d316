// The refusals: each stands for a question that a call answers no, and has its number (documents 01 and 02).
//
// Whatever refuses gives a `Refusal`, and whoever hands it on to Rust and C gives its number. Every call is total.

#![tactic(auto)]

ghost use Rattle.std.specs.Prelude.{ℕ, ◌≡◌};
ghost use Rattle.refusal.specs.Numbers.{number_of};

// What a refused call is refused for, by the numbers of the questions. `Room` is no question's: the bytes lent are too few.
#[derive(Clone, Copy, Debug, PartialEq, Eq)]
pub enum Refusal {
    Room = 0,
    Length = 1,
    Kind = 2,
    Yards = 3,
    Hauls = 4,
    Amount = 5,
    FourPoints = 6,
    YardCount = 7,
    Set = 8,
    Area = 9,
    Loads = 10,
    Tariff = 11,
    Rate = 12,
    Distance = 13,
    ShutYard = 14,
    Offers = 15,
    Excess = 16,
}

// What has a number of eight bits that tells Rust and C why a call was refused.
pub trait Numbered {
    ghost number: { Self → ℕ };

    fn number(self) -> u8
        ensures { result ≡ number self };
}

impl Numbered for Refusal {
    ghost number = { number_of };

    fn number(self) -> u8 {
        self as u8
    }
}

// A number that is known already.
impl Numbered for u8 {
    ghost number = { λ n. n };

    fn number(self) -> u8 {
        self
    }
}
