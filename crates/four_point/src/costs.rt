// The costs as the table has them, for pairs of facilities that units leave open.
ghost use Rattle.std.specs.Prelude.{◌≡◌, ◌+◌, ◌*◌, ◌≤◌, length};
ghost use Rattle.std.proofs.Common.{arith};
ghost use Rattle.four_point.specs.Table.{row_places, cost_limit};
ghost use Rattle.four_point.specs.Rounded.{RowBelow, pair_keeps};

use crate::COST_LIMIT;
use crate::pass::{self, Cost};

impl Cost for u32 {
    ghost value = { λ x. x };

    ghost limit = { cost_limit };

    ghost some = { Prim.omega arith };

    fn none() -> u32 {
        0
    }

    fn most_route() -> u32 {
        2 * COST_LIMIT - 1
    }

    fn plus(self, other: u32) -> u32 {
        self + other
    }

    fn minus(self, other: u32) -> u32 {
        self - other
    }

    fn at_most(self, other: u32) -> bool {
        (self as i32) <= (other as i32)
    }
}

// The costs of each of n clients at facilities a and b differ by no more than the cheapest route between the two.
pub(crate) fn pair_keeps(table: &[u32], n: usize, a: usize, b: usize) -> bool
    requires { (row_places * a + n ≤ length table.now) × (row_places * b + n ≤ length table.now) × RowBelow cost_limit table.now n a × RowBelow cost_limit table.now n b }
    ensures { result ≡ pair_keeps table.now n a b }
{
    let passed = pass::pass(table, n, a, b);
    passed.spread <= passed.route
}
