// The bands of a tariff, and the tariff that is made of them to price by.
ghost use Rattle.std.specs.Prelude.{◌≡◌, ◌*◌, ◌≤◌, ◌<◌};
ghost use Rattle.tariff.specs.Bounds.{most_bands};
ghost use Rattle.tariff.specs.Bands.{whole_charge};
ghost use Rattle.tariff.specs.Making.{without_bands, with_band};

pub(crate) const MOST_BANDS: usize = 16;

// Distances from `start` up to `end`, in hundreds of metres, at `rate` cents for each hundred.
#[derive(Clone, Copy)]
pub struct Band {
    pub start: u16,
    pub end: u16,
    pub rate: u16,
}

impl Band {
    // What the whole band costs; one that ends before its start costs nothing.
    pub fn whole_charge(self) -> u32
        ensures { result ≡ whole_charge self }
    {
        u32::from(self.end.saturating_sub(self.start)) * u32::from(self.rate)
    }
}

// A tariff to price by. In band i a haul is the distance times the rate, and the intercept: what the bands before cost more than they
// would at this rate. The last band has the number `last` and ends at `reach`.
// Stays three arrays with a count, not one of structs: the public clause `starts` of `house_tariff` says `line_of result.rates result.intercepts`.
#[derive(Clone, Copy)]
pub struct Tariff {
    pub last: usize,
    pub ends: [u16; MOST_BANDS],
    pub rates: [u16; MOST_BANDS],
    pub intercepts: [u32; MOST_BANDS],
    pub reach: u16,
}

impl Tariff {
    pub(crate) fn without_bands() -> Tariff
        ensures { result ≡ without_bands }
    {
        Tariff {
            last: 0,
            ends: [0; MOST_BANDS],
            rates: [0; MOST_BANDS],
            intercepts: [0; MOST_BANDS],
            reach: 0,
        }
    }

    // The tariff with band i behind those before it, which cost so much.
    pub(crate) fn with_band(mut self, i: usize, band: Band, before: u32) -> Tariff
        requires { (i < most_bands) × (band.start * band.rate ≤ before) }
        ensures { result ≡ with_band self i band before }
    {
        self.last = i;
        self.ends[i] = band.end;
        self.rates[i] = band.rate;
        self.intercepts[i] = before - (band.start as u32) * (band.rate as u32);
        self.reach = band.end;
        self
    }
}
