// The sums of the columns over all rows of service costs.
ghost use Rattle.std.specs.Prelude.{◌≡◌, ◌≤◌, length};
ghost use Rattle.tables.specs.Bounds.{most_facilities};
ghost use Rattle.engine.specs.Bounds.{kept_length};
ghost use Rattle.engine.specs.Rows.{Rows, Addable, RowAdded, Aside, NoSums, ColumnSums};

use crate::bounds::ADDED;
use crate::service::Service;
use tables::MOST_FACILITIES;

// Adds a row to the sums of its columns.
fn add_row(service: &[u32], row: usize, width: usize, kept: &mut [u64])
    requires { Addable width service.now row kept.old }
    ensures { RowAdded width service.now row kept.old kept.new }
{
    for i in 0..width {
        kept[ADDED + i] = kept[ADDED + i] + service[row + i] as u64;
    }
}

// The 32 columns of a row. A count that is only known when it runs keeps the inner loop a loop, which the compiler then does
// several columns at a time.
fn columns(m: usize) -> usize
    requires { m ≤ most_facilities }
    ensures { result ≡ most_facilities }
{
    m.max(MOST_FACILITIES)
}

// The sums of all rows: what each facility alone costs.
pub(crate) fn add_rows(service: Service, kept: &mut [u64])
    requires { (kept_length ≤ length kept.old) × NoSums kept.old }
    ensures sums { ColumnSums service.entry.m service.entry.n service.entry.costs.now kept.new }
    ensures aside { Aside kept.old kept.new }
{
    let width = columns(service.m);
    for j in 0..service.n {
        add_row(service.costs, j * service.m, width, kept);
    }
}
