// The house tariff: ends 100, 250, 500, 1000, 2000, 4000 at rates 40, 34, 28, 22, 18, 15, and what it costs at each band's start.
ghost use Rattle.std.specs.Prelude.{◌≡◌, ℕ, ◌<◌, get_or};
ghost use Rattle.tariff.specs.Pricing.{PricesAs, line_of};
ghost use Rattle.tariff.specs.House.{house, house_starts};

use crate::bands::{Band, Tariff};

pub const HOUSE_BANDS: usize = 6;

pub const HOUSE: [Band; HOUSE_BANDS] = [
    Band {
        start: 0,
        end: 100,
        rate: 40,
    },
    Band {
        start: 100,
        end: 250,
        rate: 34,
    },
    Band {
        start: 250,
        end: 500,
        rate: 28,
    },
    Band {
        start: 500,
        end: 1000,
        rate: 22,
    },
    Band {
        start: 1000,
        end: 2000,
        rate: 18,
    },
    Band {
        start: 2000,
        end: 4000,
        rate: 15,
    },
];

// What all the bands before each one cost.
// Stays a table of its own beside the bands: document 02, paper 6, asks for the constant table, and the type of `HOUSE` is public.
const HOUSE_STARTS: [u32; HOUSE_BANDS] = [0, 4000, 9100, 16100, 27100, 45100];

// The house tariff, which every call may go by. It prices as its bands do, and each band's line begins at the table's entry.
pub fn house_tariff() -> Tariff
    ensures prices { PricesAs house result }
    ensures starts { (i : ℕ) → i < house.count → line_of result.rates result.intercepts i (house.band i).start ≡ get_or house_starts i 0 }
{
    let mut tariff = Tariff::without_bands();
    for i in 0..HOUSE_BANDS {
        tariff = tariff.with_band(i, HOUSE[i], HOUSE_STARTS[i]);
    }
    tariff
}
