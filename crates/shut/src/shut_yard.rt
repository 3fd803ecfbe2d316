// A yard of a set that shuts, with the set's yards and those left without it, listed once for all farms.
ghost use Rattle.std.specs.Prelude.{◌≡◌};
ghost use Rattle.model.specs.Sets.{without};
ghost use Rattle.sets.specs.Members.{rising_below};

use stretch::CountedSheet;

// The yards of the set, and those of the set without the yard, by number.
#[derive(Clone, Copy)]
pub(crate) struct ShutYard<'a> {
    pub(crate) sheet: CountedSheet<'a>,
    pub(crate) set: u32,
    pub(crate) yard: usize,
    pub(crate) yards: &'a [u8],
    pub(crate) others: &'a [u8],
    ghost listed: { yards.now ≡ rising_below sheet.yards set },
    ghost left: { others.now ≡ rising_below sheet.yards (without set yard) },
}
