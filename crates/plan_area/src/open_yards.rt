// The open yards of a set, listed once for all that asks for them by number.
ghost use Rattle.std.specs.Prelude.{◌≡◌};
ghost use Rattle.sets.specs.Members.{rising_below};

use stretch::CountedSheet;

// The yards of the set that the sheet has, by number.
#[derive(Clone, Copy)]
pub(crate) struct OpenYards<'a> {
    pub(crate) sheet: CountedSheet<'a>,
    pub(crate) set: u32,
    pub(crate) list: &'a [u8],
    ghost listed: { list.now ≡ rising_below sheet.yards set },
}
