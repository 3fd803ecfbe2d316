// One pass over the clients of two facilities, in costs as in units: the cheapest route between the two, and the greatest difference.
ghost use Rattle.std.specs.Prelude.{◌≡◌, ℕ, ◌+◌, ◌-◌, ◌*◌, ◌≤◌, ◌<◌, Bool, min, max, leb, length, map};
ghost use Rattle.model.specs.QuickMetric.{spread, route_from};
ghost use Rattle.four_point.specs.Table.{row_places, row};
ghost use Rattle.four_point.specs.Rounded.{RowBelow};

use crate::ROW_PLACES;

// A cost as a row has it, of so many bits. Sums of two are compared as signed numbers, which the compiler does by vector.
// Stays a comparison of its own: with the library's `min` and `max`, unsigned, reading took 1.12 times as long (28.5 µs for 25.5, x86-64-v2).
pub(crate) trait Cost: Copy {
    // The number, and what every cost of a row is below.
    ghost value: { Self → ℕ };

    ghost limit: { ℕ };

    // No difference is less, and no route through a client costs more.
    fn none() -> Self
        ensures { value result ≡ 0 };

    fn most_route() -> Self
        ensures { value result ≡ 2 * limit - 1 };

    fn plus(self, other: Self) -> Self
        requires { (value self < limit) × (value other < limit) }
        ensures { value result ≡ value self + value other };

    fn minus(self, other: Self) -> Self
        requires { value other ≤ value self }
        ensures { value result ≡ value self - value other };

    fn at_most(self, other: Self) -> bool
        requires { (value self < 2 * limit) × (value other < 2 * limit) }
        ensures { result ≡ leb (value self) (value other) };

    // Some number is a cost.
    ghost some: { 1 ≤ limit };
}

fn lesser<C: Cost>(x: C, y: C) -> C
    requires { (C.value x < 2 * C.limit) × (C.value y < 2 * C.limit) }
    ensures { C.value result ≡ min (C.value x) (C.value y) }
{
    if x.at_most(y) { x } else { y }
}

fn greater<C: Cost>(x: C, y: C) -> C
    requires { (C.value x < 2 * C.limit) × (C.value y < 2 * C.limit) }
    ensures { C.value result ≡ max (C.value x) (C.value y) }
{
    if x.at_most(y) { y } else { x }
}

// What a pass over the clients of two facilities finds.
#[derive(Clone, Copy)]
pub(crate) struct Passed<C> {
    pub(crate) route: C,
    pub(crate) spread: C,
}

// The cheapest route between facilities a and b through one of n clients, and the greatest difference of a client's costs there.
pub(crate) fn pass<C: Cost>(table: &[C], n: usize, a: usize, b: usize) -> Passed<C>
    requires a_room { row_places * a + n ≤ length table.now }
    requires b_room { row_places * b + n ≤ length table.now }
    requires a_low { RowBelow C.limit (map C.value table.now) n a }
    requires b_low { RowBelow C.limit (map C.value table.now) n b }
    ensures route { C.value result.route ≡ route_from (2 * C.limit - 1) n (row (map C.value table.now) a) (row (map C.value table.now) b) }
    ensures spread { C.value result.spread ≡ spread n (row (map C.value table.now) a) (row (map C.value table.now) b) }
{
    let mut route = C::most_route();
    let mut spread = C::none();
    for p in 0..n {
        let x = table[ROW_PLACES * a + p];
        let y = table[ROW_PLACES * b + p];
        let way = x.plus(y);
        route = lesser(way, route);
        spread = greater(greater(x, y).minus(lesser(x, y)), spread);
    }
    Passed { route, spread }
}
