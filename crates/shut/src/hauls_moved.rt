// What the farms of a yard cost there, and what they cost at their second yards.
ghost use Rattle.std.specs.Prelude.{◌≡◌, ◌*◌, ◌≤◌, ◌<◌};
ghost use Rattle.model.specs.Loops.{most_term};
ghost use Rattle.model.specs.Sets.{member};
ghost use Rattle.model.specs.Closing.{cost_at, cost_elsewhere};
ghost use Rattle.stretch.specs.CountedSheet.{instance_on};
ghost use Rattle.shut.specs.HaulsMoved.{farm_there, farm_elsewhere};

use crate::shut_yard::ShutYard;
use nearest::NOWHERE;
use stretch::CountedSheet;

// Hauls times loads, at the yard and elsewhere.
#[derive(Clone, Copy)]
pub(crate) struct HaulsMoved {
    pub(crate) there: u64,
    pub(crate) elsewhere: u64,
}

// Of all the farms that go to the yard.
pub(crate) fn hauls_moved(sheet: CountedSheet, set: u32, yard: usize) -> HaulsMoved
    ensures there { result.there ≡ cost_at (instance_on sheet.entry) (member set) yard }
    ensures elsewhere { result.elsewhere ≡ cost_elsewhere (instance_on sheet.entry) (member set) yard }
    ensures small { (result.there ≤ sheet.entry.farms * most_term) × (result.elsewhere ≤ sheet.entry.farms * most_term) }
{
    let open = sets::members_below(set, sheet.yards);
    let left = sets::members_below(sets::removed(set, yard), sheet.yards);
    let yards = &open.list[..open.count];
    let others = &left.list[..left.count];
    let shut = ShutYard {
        sheet,
        set,
        yard,
        yards,
        others,
    };
    let mut there = 0;
    let mut elsewhere = 0;
    for farm in 0..sheet.farms {
        let moved = farm_moved(shut, farm);
        // stays two sums: an `AddAssign` for them would be longer than its one use here
        there += moved.there;
        elsewhere += moved.elsewhere;
    }
    HaulsMoved { there, elsewhere }
}

// Of one farm: nothing where it goes to another yard.
fn farm_moved(shut: ShutYard, farm: usize) -> HaulsMoved
    requires { farm < shut.sheet.farms }
    ensures there { result.there ≡ farm_there shut.entry.sheet.bytes.now shut.entry.sheet.yards shut.entry.sheet.farms shut.entry.set shut.entry.yard farm }
    ensures elsewhere { result.elsewhere ≡ farm_elsewhere shut.entry.sheet.bytes.now shut.entry.sheet.yards shut.entry.sheet.farms shut.entry.set shut.entry.yard farm }
    ensures small { (result.there ≤ most_term) × (result.elsewhere ≤ most_term) }
{
    let sheet = shut.sheet;
    let hauls = sheet.hauls(farm);
    let first = nearest::nearest_listed(sheet.bytes, hauls, shut.yards).unwrap_or(NOWHERE);
    if first.yard != shut.yard {
        return HaulsMoved {
            there: 0,
            elsewhere: 0,
        };
    }
    let second = nearest::nearest_listed(sheet.bytes, hauls, shut.others).unwrap_or(NOWHERE);
    let loads = questions::loads_of(sheet.loads_byte(farm));
    HaulsMoved {
        there: loads * (first.haul as u64),
        elsewhere: loads * (second.haul as u64),
    }
}
