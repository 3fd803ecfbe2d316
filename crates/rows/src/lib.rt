// Sums that rise and fall by what the costs of a row are above one cost and not above another.
//
// What a sum changes by is put into a row of its own first: the compiler does four columns of that loop at a time, where the sums of 64 bits
// would leave it two. The functions with loops are put into their callers, so that the compiler sees that the row is no part of the sums.

#![tactic(auto)]

ghost use Rattle.std.specs.Prelude.{◌≡◌, ℕ, ◌+◌, ◌≤◌, length};
ghost use Rattle.rows.specs.Shifts.{columns, fits, FrontHolds, above, above_at, between_at, changed, rise, fall, shifted, two_fit, shifted_in, shifted_out};

pub const COLUMNS: usize = 32;

const HALF: u32 = 2147483648;

// What becomes of a sum that takes a number on, or gives it.
trait Way {
    ghost changes: { (ℕ → ℕ) → ℕ → ℕ → ℕ };

    fn change(sum: u64, by: u64) -> u64
        ensures { (f : ℕ → ℕ) (i : ℕ) → by ≡ f i → result ≡ changes f i sum };
}

struct Rise;

impl Way for Rise {
    ghost changes = { rise };

    fn change(sum: u64, by: u64) -> u64 {
        sum.wrapping_add(by)
    }
}

struct Fall;

impl Way for Fall {
    ghost changes = { fall };

    fn change(sum: u64, by: u64) -> u64 {
        sum.wrapping_sub(by)
    }
}

// Do the columns from a place on end by another one?
fn columns_fit(from: usize, end: usize) -> bool
    ensures { result ≡ fits from end }
{
    from <= usize::MAX - COLUMNS && from + COLUMNS <= end
}

// Is there room for the row, and for two stretches of sums, the first of which ends by the second?
fn both_fit(costs: &[u32], sums: &[u64], added: usize, more: usize) -> bool
    ensures { result ≡ two_fit costs.now sums.now added more }
{
    COLUMNS <= costs.len() && columns_fit(added, more) && columns_fit(more, sums.len())
}

// What a cost is above another one. The compiler makes the greater of signed numbers of this, by vector.
// Stays by hand: `saturating_sub`, as fast (9.3 ns a row for 9.9), differs for a cost 2^31 or more above the other, where `above` is 0: it may not change.
fn over(cost: u32, other: u32) -> u32
    ensures { result ≡ above cost other }
{
    let difference = cost.wrapping_sub(other);
    if difference < HALF { difference } else { 0 }
}

// What each cost of a row is above `low`, and the part of it that is not above `high`.
#[inline(always)]
fn differences(costs: &[u32], low: u32, high: u32) -> ([u32; COLUMNS], [u32; COLUMNS])
    requires { columns ≤ length costs.now }
    ensures whole { FrontHolds columns (above_at costs.now low) result.0 }
    ensures part { FrontHolds columns (between_at costs.now low high) result.1 }
{
    let mut whole = [0u32; COLUMNS];
    let mut part = [0u32; COLUMNS];
    for i in 0..COLUMNS {
        let over_low = over(costs[i], low);
        whole[i] = over_low;
        part[i] = over_low.wrapping_sub(over(costs[i], high));
    }
    (whole, part)
}

// Changes the sums from a place on, each by the number of its column.
#[inline(always)]
fn change<W: Way>(by: &[u32; COLUMNS], sums: &mut [u64], at: usize)
    requires { at + columns ≤ length sums.old }
    ensures { (f : ℕ → ℕ) → FrontHolds columns f by.now → sums.new ≡ changed (W.changes f) at sums.old }
{
    for i in 0..COLUMNS {
        sums[at + i] = W::change(sums[at + i], by[i] as u64);
    }
}

// Each of the sums from a place on takes on what its cost is above `plus`, and gives what it is above `minus`.
pub fn shift(costs: &[u32], plus: u32, minus: u32, sums: &mut [u64], at: usize)
    ensures { sums.new ≡ shifted costs.now plus minus sums.old at }
{
    if costs.len() < COLUMNS {
        return;
    }
    if !columns_fit(at, sums.len()) {
        return;
    }
    if plus <= minus {
        let (_, by) = differences(costs, plus, minus);
        change::<Rise>(&by, sums, at);
    } else {
        let (_, by) = differences(costs, minus, plus);
        change::<Fall>(&by, sums, at);
    }
}

// Changes two stretches of sums: one way those from `added` on, by what the row is above `first`, and another way those from `more` on,
// which lie behind them, by what it is above `first` and not above `second`.
fn count<A: Way, B: Way>(
    costs: &[u32],
    first: u32,
    second: u32,
    sums: &mut [u64],
    added: usize,
    more: usize,
)
    requires row { columns ≤ length costs.now }
    requires apart { added + columns ≤ more }
    requires room { more + columns ≤ length sums.old }
    ensures { sums.new ≡ changed (B.changes (between_at costs.now first second)) more (changed (A.changes (above_at costs.now first)) added sums.old) }
{
    let (whole, part) = differences(costs, first, second);
    change::<A>(&whole, sums, added);
    change::<B>(&part, sums, more);
}

// Counts a client in by its two nearest costs: the sums from `added` on fall by what its row is above the first, and those from `more` on,
// which lie behind them, rise by what it is above the first and not above the second.
pub fn shift_in(costs: &[u32], first: u32, second: u32, sums: &mut [u64], added: usize, more: usize)
    ensures { sums.new ≡ shifted_in costs.now first second sums.old added more }
{
    if both_fit(costs, sums, added, more) {
        count::<Fall, Rise>(costs, first, second, sums, added, more);
    }
}

// Counts it out again.
pub fn shift_out(
    costs: &[u32],
    first: u32,
    second: u32,
    sums: &mut [u64],
    added: usize,
    more: usize,
)
    ensures { sums.new ≡ shifted_out costs.now first second sums.old added more }
{
    if both_fit(costs, sums, added, more) {
        count::<Rise, Fall>(costs, first, second, sums, added, more);
    }
}
