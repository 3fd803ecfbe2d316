// The clients' two nearest facilities and the sums over them, from set to set.
ghost use Rattle.std.specs.Prelude.{◌≡◌, true, ◌^◌, ◌<◌};
ghost use Rattle.model.specs.Least.{any};
ghost use Rattle.model.specs.Sets.{member};
ghost use Rattle.tables.specs.Bounds.{most_facilities};
ghost use Rattle.engine.specs.Near.{Moved, new_in, Listed};
ghost use Rattle.engine.specs.Sums.{Kept, NearAt, KeptOf, Uncounted, NearUpTo, NearFrom, Others};

use crate::bounds::SECONDS;
use crate::near::{Near, arrival, goes_to, inserted, near_after, near_of, newcomer};
use crate::service::Service;
use crate::sums::{change, enter};
use tables::MOST_FACILITIES;

// Client j, of which nothing is counted yet.
fn begin_client(service: Service, j: usize, set: u32, list: &[u8], kept: &mut [u64])
    requires { Kept service.m service.n service.costs.now kept.old × (j < service.n) × Uncounted kept.old j × (set < 2 ^ service.m) × Listed set list.now }
    ensures kept { Kept service.entry.m service.entry.n service.entry.costs.now kept.new }
    ensures near { NearAt service.entry.m service.entry.costs.now kept.new set j }
    ensures others { Others j kept.old kept.new }
{
    let near = near_of(service, j, set, list);
    enter(service.costs, service.m, service.n, j, near, kept);
}

// Counts every client for a first set.
pub(crate) fn begin(service: Service, set: u32, kept: &mut [u64])
    requires { Kept service.m service.n service.costs.now kept.old × NearUpTo service.m service.n service.costs.now kept.old set 0 × (set < 2 ^ service.m) × (any service.m (member set) ≡ true) }
    ensures { KeptOf service.entry.m service.entry.n service.entry.costs.now set kept.new }
{
    let members = sets::members_of(set);
    let list = &members.list[..members.count];
    for j in 0..service.n {
        begin_client(service, j, set, list, kept);
    }
}

// Client j after a move. Most clients keep both.
// The sets, `came` and `went` go one by one: in one struct, which goes by value, open plans took 2 to 3 in a hundred longer.
fn move_client(
    service: Service,
    j: usize,
    set: u32,
    next: u32,
    came: usize,
    went: usize,
    list: &[u8],
    kept: &mut [u64],
)
    requires { Kept service.m service.n service.costs.now kept.old × (j < service.n) × NearAt service.m service.costs.now kept.old set j × Moved service.m set next came went × (next < 2 ^ service.m) × Listed next list.now }
    ensures kept { Kept service.entry.m service.entry.n service.entry.costs.now kept.new }
    ensures near { NearAt service.entry.m service.entry.costs.now kept.new next j }
    ensures others { Others j kept.old kept.new }
{
    let near = Near {
        first: kept[j],
        second: kept[SECONDS + j],
    };
    let arrived = arrival(service, j, came);
    if near.second <= arrived && !goes_to(near, went) {
        return;
    }
    let after = near_after(service, j, set, next, near, came, went, arrived, list);
    change(service.costs, service.m, service.n, j, after, kept);
}

fn move_clients(
    service: Service,
    set: u32,
    next: u32,
    came: usize,
    went: usize,
    list: &[u8],
    kept: &mut [u64],
)
    requires { Kept service.m service.n service.costs.now kept.old × NearFrom service.m service.n service.costs.now kept.old set next 0 × Moved service.m set next came went × (next < 2 ^ service.m) × Listed next list.now }
    ensures kept { Kept service.entry.m service.entry.n service.entry.costs.now kept.new }
    ensures near { NearFrom service.entry.m service.entry.n service.entry.costs.now kept.new set next service.entry.n }
{
    for j in 0..service.n {
        move_client(service, j, set, next, came, went, list, kept);
    }
}

// Client j after a facility came and none went.
fn add_client(service: Service, j: usize, set: u32, next: u32, came: usize, kept: &mut [u64])
    requires { Kept service.m service.n service.costs.now kept.old × (j < service.n) × NearAt service.m service.costs.now kept.old set j × Moved service.m set next came most_facilities }
    ensures kept { Kept service.entry.m service.entry.n service.entry.costs.now kept.new }
    ensures near { NearAt service.entry.m service.entry.costs.now kept.new next j }
    ensures others { Others j kept.old kept.new }
{
    let near = Near {
        first: kept[j],
        second: kept[SECONDS + j],
    };
    let arrived = arrival(service, j, came);
    if near.second <= arrived {
        return;
    }
    let after = inserted(arrived, near);
    change(service.costs, service.m, service.n, j, after, kept);
}

// A loop of its own for adds, which open plans make most: it has no list to go through, and the compiler makes it shorter.
// Stays beside `move_clients`: with that one called for adds too, open plans took 7 to 10 in a hundred longer.
fn add_clients(service: Service, set: u32, next: u32, came: usize, kept: &mut [u64])
    requires { Kept service.m service.n service.costs.now kept.old × NearFrom service.m service.n service.costs.now kept.old set next 0 × Moved service.m set next came most_facilities }
    ensures kept { Kept service.entry.m service.entry.n service.entry.costs.now kept.new }
    ensures near { NearFrom service.entry.m service.entry.n service.entry.costs.now kept.new set next service.entry.n }
{
    for j in 0..service.n {
        add_client(service, j, set, next, came, kept);
    }
}

// Goes from a set to the next one, which a move makes of it.
pub(crate) fn move_to(service: Service, set: u32, next: u32, kept: &mut [u64])
    requires { KeptOf service.m service.n service.costs.now set kept.old × Moved service.m set next (new_in set next) (new_in next set) × (next < 2 ^ service.m) × (any service.m (member next) ≡ true) }
    ensures { KeptOf service.entry.m service.entry.n service.entry.costs.now next kept.new }
{
    let came = newcomer(set, next);
    let went = newcomer(next, set);
    if MOST_FACILITIES <= went {
        add_clients(service, set, next, came, kept);
        return;
    }
    let members = sets::members_of(next);
    let list = &members.list[..members.count];
    move_clients(service, set, next, came, went, list, kept);
}
