// A client's two nearest facilities: among those of a set, and after a move.
ghost use Rattle.std.specs.Prelude.{◌≡◌, ◌^◌, ◌<◌};
ghost use Rattle.model.specs.TwoLeast.{insert, packed};
ghost use Rattle.engine.specs.Rows.{Rows, entry};
ghost use Rattle.engine.specs.Near.{near_two, two_of, near_of, Listed, new_in, arrival_at, goes_to, Moving};

use crate::bounds::{COST_STEP, NO_FACILITY};
use crate::service::Service;
use tables::MOST_FACILITIES;

// A client's two nearest facilities, each with its cost in one number.
#[derive(Clone, Copy)]
pub struct Near {
    pub first: u64,
    pub second: u64,
}

// The two nearest of x and of two.
pub(crate) fn inserted(x: u64, near: Near) -> Near
    ensures { result ≡ near_of (insert x (two_of near)) }
{
    if x < near.first {
        return Near {
            first: x,
            second: near.first,
        };
    }
    if x < near.second {
        return Near {
            first: near.first,
            second: x,
        };
    }
    near
}

// Facility i and its cost to client j in one number.
fn packed_at(service: Service, j: usize, i: usize) -> u64
    requires { (j < service.n) × (i < service.m) }
    ensures { result ≡ packed (entry service.entry.m service.entry.costs.now j) i }
{
    COST_STEP * (service.costs[j * service.m + i] as u64) + (i as u64)
}

// The two nearest of the set's facilities, which are listed.
pub(crate) fn near_of(service: Service, j: usize, set: u32, list: &[u8]) -> Near
    requires { (j < service.n) × (set < 2 ^ service.m) × Listed set list.now }
    ensures { result ≡ near_of (near_two service.entry.m service.entry.costs.now set j) }
{
    let mut near = Near {
        first: NO_FACILITY,
        second: NO_FACILITY,
    };
    for i in list {
        near = inserted(packed_at(service, j, *i as usize), near);
    }
    near
}

// What the facility that came is to client j.
pub(crate) fn arrival(service: Service, j: usize, came: usize) -> u64
    requires { j < service.n }
    ensures { result ≡ arrival_at service.entry.m service.entry.costs.now came j }
{
    if came < service.m {
        return packed_at(service, j, came);
    }
    NO_FACILITY
}

// Is one of the two facility o?
pub(crate) fn goes_to(near: Near, o: usize) -> bool
    ensures { result ≡ goes_to near o }
{
    (near.first % COST_STEP) as usize == o || (near.second % COST_STEP) as usize == o
}

// The least number in `after` and not in `before`; 32 where there is none.
// Stays a number, and no Option: with that here, open plans took 3 to 4 in a hundred longer; in the loops over clients too, all plans 1 to 3.
pub(crate) fn newcomer(before: u32, after: u32) -> usize
    ensures { result ≡ new_in before after }
{
    for i in 0..MOST_FACILITIES {
        if sets::has(after, i) && !sets::has(before, i) {
            return i;
        }
    }
    MOST_FACILITIES
}

// The second nearest of the set's facilities, which are listed, where the nearest is known: that one counts as missing.
// Stays beside `near_of`: with `near_of` called here instead, limited plans took 4 in a hundred longer.
fn second_of(service: Service, j: usize, set: u32, first: u64, list: &[u8]) -> u64
    requires { (j < service.n) × (set < 2 ^ service.m) × Listed set list.now × (first ≡ (near_two service.m service.costs.now set j).first) }
    ensures { result ≡ (near_two service.entry.m service.entry.costs.now set j).second }
{
    let mut least = NO_FACILITY;
    for i in list {
        let x = packed_at(service, j, *i as usize);
        let other = if x == first { NO_FACILITY } else { x };
        least = other.min(least);
    }
    least
}

// Client j's two nearest after a move, from those before it: where one of them went, the other is the nearest and only the second is sought.
pub(crate) fn near_after(
    service: Service,
    j: usize,
    set: u32,
    next: u32,
    near: Near,
    came: usize,
    went: usize,
    arrived: u64,
    list: &[u8],
) -> Near
    requires { Moving service.m service.n service.costs.now j set next near came went arrived list.now }
    ensures { result ≡ near_of (near_two service.entry.m service.entry.costs.now next j) }
{
    let with_arrival = inserted(arrived, near);
    if goes_to(with_arrival, went) {
        let first = if (with_arrival.first % COST_STEP) as usize == went {
            with_arrival.second
        } else {
            with_arrival.first
        };
        return Near {
            first,
            second: second_of(service, j, next, first, list),
        };
    }
    with_arrival
}
