// Tariffs: hauls by distance (document 02, papers 3 and 6).
//
// `read_tariff` asks questions 11 and 12 of a tariff's bytes, `house_tariff` is the tariff that is built in, and `bands_of` finds the bands
// of distances, so many at a time; the line that a band prices by is the tariff's. The bands of the house tariff are public for `band_starts`, which
// works its table out from them. Every call is total: it takes any bytes, any tariff and any distances.

#![tactic(auto)]

ghost use Rattle.std.specs.Prelude.{◌≡◌};
ghost use Rattle.tariff.specs.Choices.{choice_of};

mod bands;
mod house;
mod passed;
mod reading;

pub use bands::{Band, Tariff};
pub use house::{HOUSE, HOUSE_BANDS, house_tariff};
pub use passed::{BLOCK, bands_of};
pub use reading::read_tariff;

// Stays without the given tariff's bytes: every public call by a tariff takes them beside the choice, whatever it is.
// What the amounts of a sheet's haul records are: hauls as written, or distances by the house tariff or by one that is given.
#[derive(Clone, Copy)]
pub enum TariffChoice {
    NoTariff,
    HouseTariff,
    GivenTariff,
}

// The choice that a caller's number stands for.
impl From<u8> for TariffChoice {
    ghost from_gives = { λ hauls choice. choice ≡ choice_of hauls };

    fn from(hauls: u8) -> TariffChoice {
        match hauls {
            0 => TariffChoice::NoTariff,
            1 => TariffChoice::HouseTariff,
            _ => TariffChoice::GivenTariff,
        }
    }
}
