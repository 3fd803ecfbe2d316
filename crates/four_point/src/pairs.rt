// The rule of each two facilities: in units first, which settles most pairs, then in the costs where that leaves it open.
ghost use Rattle.std.specs.Prelude.{◌≡◌, ◌<◌};
ghost use Rattle.model.specs.Loops.{all_below};
ghost use Rattle.four_point.specs.Rounded.{Rounded, pair_keeps, row_keeps};

use crate::{costs, units};

// The rule of facilities a and b.
fn keeps(table: &[u32], units: &[u16], m: usize, n: usize, a: usize, b: usize) -> bool
    requires { Rounded m n table.now units.now × (a < m) × (b < a) }
    ensures { result ≡ pair_keeps table.now n a b }
{
    if units::pair_settled(units, n, a, b) {
        return true;
    }
    costs::pair_keeps(table, n, a, b)
}

// The rule of facility a and every facility before it.
fn every_b(table: &[u32], units: &[u16], m: usize, n: usize, a: usize) -> bool
    requires { Rounded m n table.now units.now × (a < m) }
    ensures { result ≡ row_keeps table.now n a }
{
    (0..a).all(|b| keeps(table, units, m, n, a, b))
}

// The rule of each two facilities.
pub(crate) fn every_pair(table: &[u32], units: &[u16], m: usize, n: usize) -> bool
    requires { Rounded m n table.now units.now }
    ensures { result ≡ all_below m (row_keeps table.now n) }
{
    (0..m).all(|a| every_b(table, units, m, n, a))
}
