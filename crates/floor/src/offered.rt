// What the yards are offered: for each the sum over the farms of loads times the excess of amount over haul.
ghost use Rattle.std.specs.Prelude.{◌≡◌, ◌+◌, ◌*◌, ◌≤◌, ◌<◌, length};
ghost use Rattle.model.specs.Loops.{all_below, most_term};
ghost use Rattle.model.specs.Floor.{floor};
ghost use Rattle.record.specs.Records.{amount_at};
ghost use Rattle.stretch.specs.CountedSheet.{instance_on};
ghost use Rattle.floor.specs.Offered.{farm_offer, Offered, covered_at};

use record::Record;
use stretch::CountedSheet;

// Adds what every farm offers to the yards' sums, which are 0, and gives what the offers come to.
pub(crate) fn add_offers(sheet: CountedSheet, offers: &[u8], excess: &mut [u64]) -> u64
    requires { (8 * sheet.farms ≤ length offers.now) × (sheet.yards ≤ length excess.old) × Offered sheet.bytes.now sheet.yards offers.now 0 excess.old }
    ensures sum { result ≡ floor (instance_on sheet.entry) (amount_at offers.now) }
    ensures excess { Offered sheet.entry.bytes.now sheet.entry.yards offers.now sheet.entry.farms excess.new }
{
    let mut sum = 0;
    for farm in 0..sheet.farms {
        sum += add_offer(sheet, offers, farm, excess);
    }
    sum
}

// Adds what one farm offers, and gives its loads times its amount.
fn add_offer(sheet: CountedSheet, offers: &[u8], farm: usize, excess: &mut [u64]) -> u64
    requires { (8 * sheet.farms ≤ length offers.now) × (sheet.yards ≤ length excess.old) × (farm < sheet.farms) × Offered sheet.bytes.now sheet.yards offers.now farm excess.old }
    ensures sum { result ≡ farm_offer sheet.entry.bytes.now sheet.entry.yards offers.now farm }
    ensures small { result ≤ most_term }
    ensures excess { Offered sheet.entry.bytes.now sheet.entry.yards offers.now (farm + 1) excess.new }
{
    let hauls = sheet.hauls(farm);
    let loads = questions::loads_of(sheet.loads_byte(farm));
    let amount = Record::at(offers, farm).amount;
    for yard in 0..sheet.yards {
        // of the eight bytes of one record the compiler knows that they hold it
        let at = Record::LEN * yard;
        let haul = Record::at(&hauls[at..at + Record::LEN], 0).amount;
        excess[yard] += loads * (amount.saturating_sub(haul) as u64);
    }
    loads * (amount as u64)
}

// Is every yard's sum at most its fee?
pub(crate) fn fees_cover(sheet: CountedSheet, excess: &[u64]) -> bool
    requires { sheet.yards ≤ length excess.now }
    ensures { result ≡ all_below sheet.entry.yards (covered_at sheet.entry.bytes.now excess.now) }
{
    for yard in 0..sheet.yards {
        if (sheet.fee(yard) as u64) < excess[yard] {
            return false;
        }
    }
    true
}
