// The set of a plan, read off its records again: a search may begin from it (document 02, paper 7).
//
// The call is total: it takes any bytes as the area.

#![tactic(auto)]

ghost use Rattle.std.specs.Prelude.{◌≡◌, ◌*◌, ◌+◌, ◌≤◌, min, length};
ghost use Rattle.plan_area.specs.Plan.{plan_set};
ghost use Rattle.plan_set.specs.Opened.{opened_by, with_record};

use record::{Kind, Record};

// The yards in the records of kind 4F among the first so many bytes of an area, or among all of them where it has fewer.
pub fn plan_set(area: &[u8], bytes: usize) -> u32
    ensures { result ≡ plan_set area.now (min bytes (length area.now)) }
{
    opened_by(area, bytes.min(area.len()) / Record::LEN)
}

// The yards in the first n records.
fn opened_by(area: &[u8], n: usize) -> u32
    requires { 8 * n ≤ length area.now }
    ensures { result ≡ opened_by area.now n }
{
    let mut set = 0;
    for i in 0..n {
        set = with_record(area, i, set);
    }
    set
}

// The set with the yard of record i, where it is of kind 4F.
fn with_record(area: &[u8], i: usize, set: u32) -> u32
    requires { 8 * i + 8 ≤ length area.now }
    ensures { result ≡ with_record area.now i set }
{
    let record = Record::at(area, i);
    if record.kind == Kind::Open as u8 {
        sets::added(set, record.yard as usize)
    } else {
        set
    }
}
