// The moves out of a set, in the order of the model's lists, each against the best set so far: the earliest of least cost stays.
//
// A move is priced by a few additions, from two tables: `costs` has what each add costs, `kept` what the clients of a facility pay more
// where it goes. That these are the costs of the sets is said where the tables are made (`descent::choose`, MovePrices).
ghost use Rattle.std.specs.Prelude.{◌≡◌, ◌≤◌, length};
ghost use Rattle.model.specs.Sets.{count};
ghost use Rattle.tables.specs.Bounds.{most_facilities};
ghost use Rattle.engine.specs.Bounds.{most_cost, top_bit};
ghost use Rattle.engine.specs.Rows.{Row, dear_at};
ghost use Rattle.engine.specs.Moves.{cheaper, try_add, best_add, ListedWithin, Losses, best_drop, SwapRow, best_swap_out, SwapRows, best_swap, best_move};

use crate::Neighbourhood;
use crate::bounds::{LOSS, MORE, TOP_BIT};
use tables::MOST_FACILITIES;

// A set with its cost.
#[derive(Clone, Copy)]
pub struct Priced {
    pub set: u32,
    pub cost: u64,
}

// The cheaper of x, at its cost, and b; b among equals.
// Stays a comparison by hand: by the library's order of costs and sets the lower set would come first among equals, and not the earlier one.
pub(crate) fn better_of(x: u32, cost: u64, b: Priced) -> Priced
    ensures { result ≡ cheaper x cost b }
{
    if cost < b.cost {
        Priced { set: x, cost }
    } else {
        b
    }
}

// Facility i added to the set `from` at this cost, where it is not in `set`. Few prices are below the best so far, so that is asked
// before whether it is in the set. Stays apart from `better_of`, for which the set with the facility would be made at every price.
fn try_add(set: u32, from: u32, i: usize, cost: u64, b: Priced) -> Priced
    ensures { result ≡ try_add set from i cost b }
{
    if b.cost <= cost {
        return b;
    }
    if sets::has(set, i) {
        return b;
    }
    Priced {
        set: sets::added(from, i),
        cost,
    }
}

// Stays a loop of its own beside that of `best_swap_out`: one function for both would take a closure for the price and state what it returns
// at each number, longer than the line that the two share.
fn best_add(m: usize, set: u32, start: Priced, costs: &[u64]) -> Priced
    requires { m ≤ length costs.now }
    ensures { result ≡ best_add m set costs.now start }
{
    let mut b = start;
    for i in 0..m {
        b = try_add(set, set, i, costs[i], b);
    }
    b
}

// Every drop, while the set has two or more: they are listed, and `cost` is the cost of the set itself.
fn best_drop(
    opening: &[u64],
    set: u32,
    cost: u64,
    start: Priced,
    kept: &[u64],
    list: &[u8],
) -> Priced
    requires { ListedWithin opening.now list.now cost × Losses kept.now × (cost ≤ most_cost) }
    ensures { result ≡ best_drop opening.now set cost kept.now list.now start }
{
    if list.len() < 2 {
        return start;
    }
    let mut b = start;
    for listed in list {
        let o = *listed as usize;
        let price = cost + kept[LOSS + o] - opening[o];
        b = better_of(sets::removed(set, o), price, b);
    }
    b
}

// How many prices of a row are not below a bound. Such a price and what the bound is short of the highest bit have that bit: no test in the
// loop, which the compiler does by vector.
fn dear_count(more: &[u64], at: usize, costs: &[u64], bound: u64) -> u64
    requires { Row more.now at costs.now × (bound ≤ top_bit) }
    ensures { result ≡ count most_facilities (dear_at more.now at costs.now bound) }
{
    let lift = TOP_BIT - bound;
    let mut total: u64 = 0;
    for i in 0..MOST_FACILITIES {
        total += (more[at + i] + costs[i] + lift) / TOP_BIT;
    }
    total
}

// Every swap of facility o, which saves its opening cost. Most rows have no price below the best so far: those are passed over.
fn best_swap_out(
    m: usize,
    set: u32,
    o: usize,
    saved: u64,
    start: Priced,
    costs: &[u64],
    kept: &[u64],
) -> Priced
    requires { SwapRow m costs.now kept.now o saved × (start.cost ≤ most_cost) }
    ensures { result ≡ best_swap_out m set costs.now kept.now o saved start }
{
    let row = MORE + MOST_FACILITIES * o;
    if dear_count(kept, row, costs, start.cost + saved) == MOST_FACILITIES as u64 {
        return start;
    }
    let without = sets::removed(set, o);
    let mut b = start;
    for i in 0..m {
        let price = kept[row + i] + costs[i] - saved;
        b = try_add(set, without, i, price, b);
    }
    b
}

fn best_swap(
    opening: &[u64],
    m: usize,
    set: u32,
    start: Priced,
    costs: &[u64],
    kept: &[u64],
    list: &[u8],
) -> Priced
    requires { SwapRows opening.now m costs.now kept.now list.now × (start.cost ≤ most_cost) }
    ensures { result ≡ best_swap opening.now m set costs.now kept.now list.now start }
{
    let mut b = start;
    for listed in list {
        let o = *listed as usize;
        b = best_swap_out(m, set, o, opening[o], b, costs, kept);
    }
    b
}

// The set after the best move, or the set itself where no move lowers the cost. Its facilities are listed.
pub(crate) fn best_move(
    neighbourhood: Neighbourhood,
    opening: &[u64],
    m: usize,
    b: Priced,
    costs: &[u64],
    kept: &[u64],
    list: &[u8],
) -> Priced
    requires { ListedWithin opening.now list.now b.cost × Losses kept.now × (b.cost ≤ most_cost) × (m ≤ length costs.now) × SwapRows opening.now m costs.now kept.now list.now }
    ensures { result ≡ best_move neighbourhood opening.now m costs.now kept.now list.now b }
{
    // Stays a match, and no closure that is handed in: the contract says what comes of each, so that a closure's would have to say as much.
    match neighbourhood {
        Neighbourhood::AddDropSwap => {
            let added = best_add(m, b.set, b, costs);
            let dropped = best_drop(opening, b.set, b.cost, added, kept, list);
            best_swap(opening, m, b.set, dropped, costs, kept, list)
        }
        Neighbourhood::Swap => best_swap(opening, m, b.set, b, costs, kept, list),
    }
}
