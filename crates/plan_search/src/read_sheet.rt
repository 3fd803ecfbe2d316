// A sheet that reading accepts, with the counts of yards and farms that it tells.
ghost use Rattle.std.specs.Prelude.{◌≡◌};
ghost use Rattle.model.specs.Answers.{accepted};
ghost use Rattle.questions.specs.Reading.{counts, reading};

use stretch::CountedSheet;

// Reading accepts the sheet as one of so many yards and farms.
#[derive(Clone, Copy)]
pub(crate) struct ReadSheet<'a> {
    pub(crate) counted: CountedSheet<'a>,
    ghost read: { reading counted.bytes.now ≡ accepted (counts counted.yards counted.farms) },
}
