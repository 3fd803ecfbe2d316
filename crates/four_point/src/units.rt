// Costs in units of 64, rounded down: 16 bits hold the sum of two.
ghost use Rattle.std.specs.Prelude.{◌≡◌, ◌+◌, ◌*◌, ◌/◌, ◌≤◌, length};
ghost use Rattle.std.proofs.Common.{arith};
ghost use Rattle.four_point.specs.Table.{row_places, most_facilities};
ghost use Rattle.four_point.specs.Rounded.{unit_limit, RowBelow, InUnits, above_limit, pair_settled};

use crate::COST_LIMIT;
use crate::pass::{self, Cost};

const UNIT: u32 = 64;

// Every cost in units is below this.
const UNIT_LIMIT: u32 = COST_LIMIT / UNIT;

impl Cost for u16 {
    ghost value = { λ x. x };

    ghost limit = { unit_limit };

    ghost some = { Prim.omega arith };

    fn none() -> u16 {
        0
    }

    fn most_route() -> u16 {
        (2 * UNIT_LIMIT - 1) as u16
    }

    fn plus(self, other: u16) -> u16 {
        self + other
    }

    fn minus(self, other: u16) -> u16 {
        self - other
    }

    fn at_most(self, other: u16) -> bool {
        (self as i16) <= (other as i16)
    }
}

// Puts the first so many costs there in units, those that reach the limit without what is above it. Gives what all of them are
// above the limit, in whole limits: 0 where none reaches it.
pub(crate) fn round(table: &[u32], count: usize, units: &mut [u16]) -> u32
    requires { (count ≤ length table.now) × (count ≤ length units.old) × (count ≤ most_facilities * row_places) }
    ensures above { result ≡ above_limit table.now count }
    ensures units { InUnits count table.now units.new }
{
    let mut above: u32 = 0;
    for k in 0..count {
        let cost = table[k];
        units[k] = (cost / UNIT % UNIT_LIMIT) as u16;
        above += cost / COST_LIMIT;
    }
    above
}

// In units the costs of each of n clients at facilities a and b differ by less than the cheapest route between the two.
pub(crate) fn pair_settled(units: &[u16], n: usize, a: usize, b: usize) -> bool
    requires { (row_places * a + n ≤ length units.now) × (row_places * b + n ≤ length units.now) × RowBelow unit_limit units.now n a × RowBelow unit_limit units.now n b }
    ensures { result ≡ pair_settled units.now n a b }
{
    let passed = pass::pass(units, n, a, b);
    passed.spread < passed.route
}
