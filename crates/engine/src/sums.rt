// The sums over the clients by which moves are priced, kept as a client's two nearest facilities change.
ghost use Rattle.std.specs.Prelude.{◌≤◌, ◌<◌};
ghost use Rattle.engine.specs.Bounds.{no_facility};
ghost use Rattle.engine.specs.Near.{InOrder};
ghost use Rattle.engine.specs.Sums.{first_at, Kept, PutAt, Uncounted};

use crate::bounds::{ADDED, COST_STEP, LOSS, MORE, NO_FACILITY, SECONDS};
use crate::near::Near;
use rows::{shift, shift_in, shift_out};
use tables::MOST_FACILITIES;

// These four take the costs and counts one by one, and no `Service`: with that, plans took 2 to 5 in a hundred longer.

// Client j's second nearest is now this one.
pub(crate) fn set_second(
    service: &[u32],
    m: usize,
    n: usize,
    j: usize,
    second: u64,
    kept: &mut [u64],
)
    requires { Kept m n service.now kept.old × (j < n) × (first_at kept.old j ≤ second) × (second ≤ no_facility) }
    ensures kept { Kept m n service.now kept.new }
    ensures put { PutAt j (first_at kept.old j) second kept.old kept.new }
{
    let o = (kept[j] % COST_STEP) as usize;
    let last = (kept[SECONDS + j] / COST_STEP) as u32;
    let next = (second / COST_STEP) as u32;
    let row = &service[j * m..j * m + MOST_FACILITIES];
    shift(row, last, next, kept, MORE + MOST_FACILITIES * o);
    kept[LOSS + o] = kept[LOSS + o] + next as u64 - last as u64;
    kept[SECONDS + j] = second;
}

// Client j, which is not counted, has these two now.
pub(crate) fn enter(service: &[u32], m: usize, n: usize, j: usize, near: Near, kept: &mut [u64])
    requires { Kept m n service.now kept.old × (j < n) × Uncounted kept.old j × InOrder near }
    ensures kept { Kept m n service.now kept.new }
    ensures put { PutAt j near.first near.second kept.old kept.new }
{
    let o = (near.first % COST_STEP) as usize;
    let first = (near.first / COST_STEP) as u32;
    let second = (near.second / COST_STEP) as u32;
    let row = &service[j * m..j * m + MOST_FACILITIES];
    shift_in(row, first, second, kept, ADDED, MORE + MOST_FACILITIES * o);
    kept[j] = near.first;
    kept[LOSS + o] = kept[LOSS + o] + second as u64 - first as u64;
    kept[SECONDS + j] = near.second;
}

// Client j is not counted any more.
fn leave(service: &[u32], m: usize, n: usize, j: usize, kept: &mut [u64])
    requires { Kept m n service.now kept.old × (j < n) }
    ensures kept { Kept m n service.now kept.new }
    ensures put { PutAt j no_facility no_facility kept.old kept.new }
{
    let o = (kept[j] % COST_STEP) as usize;
    let first = (kept[j] / COST_STEP) as u32;
    let second = (kept[SECONDS + j] / COST_STEP) as u32;
    let row = &service[j * m..j * m + MOST_FACILITIES];
    shift_out(row, first, second, kept, ADDED, MORE + MOST_FACILITIES * o);
    kept[j] = NO_FACILITY;
    kept[LOSS + o] = kept[LOSS + o] + first as u64 - second as u64;
    kept[SECONDS + j] = NO_FACILITY;
}

// Client j's two nearest are now these.
pub(crate) fn change(service: &[u32], m: usize, n: usize, j: usize, near: Near, kept: &mut [u64])
    requires { Kept m n service.now kept.old × (j < n) × InOrder near }
    ensures kept { Kept m n service.now kept.new }
    ensures put { PutAt j near.first near.second kept.old kept.new }
{
    if kept[j] == near.first {
        set_second(service, m, n, j, near.second, kept);
    } else {
        leave(service, m, n, j, kept);
        enter(service, m, n, j, near, kept);
    }
}
