// Which tables the engine takes: how many facilities and clients, how long the two tables are, and how high a number in them may be.
//
// `tables_good` looks through the opening costs and the service costs that a caller lends. The call is total: it takes any tables and any counts,
// and says no where specs/Tables.antt does.

#![tactic(auto)]

ghost use Rattle.std.specs.Prelude.{◌≡◌, ◌≤◌, length, leb, ltb};
ghost use Rattle.std.specs.List.{list_all, count_by};
ghost use Rattle.tables.specs.Bounds.{most_entry, most_opening};
ghost use Rattle.tables.specs.Tables.{good_tables};

// The bounds (specs/Bounds.antt says what each is for).
pub const MOST_FACILITIES: usize = rows::COLUMNS;

pub const MOST_CLIENTS: usize = 128;

pub const MOST_ENTRY: u32 = 2000000000;

pub const MOST_OPENING: u64 = 4000000000;

// Are the opening costs within their bound?
fn openings_within(openings: &[u64]) -> bool
    ensures { result ≡ list_all (λ fee. leb fee most_opening) openings.now }
{
    openings.iter().all(|fee| *fee <= MOST_OPENING)
}

// How many of the entries are above the bound. The compiler does several places of the sum at a time: `all`, which stops early,
// and `count`, which counts in 64 bits, took three times as long and more.
fn high_count(entries: &[u32]) -> u32
    requires { length entries.now ≤ 4096 }
    ensures { result ≡ count_by (λ entry. ltb most_entry entry) entries.now }
{
    entries
        .iter()
        .map(|entry| u32::from(*entry > MOST_ENTRY))
        .sum()
}

// Does the engine take the tables?
pub fn tables_good(opening: &[u64], service: &[u32], m: usize, n: usize) -> bool
    ensures { result ≡ good_tables m n opening.now service.now }
{
    if m < 1 {
        return false;
    }
    if MOST_FACILITIES < m {
        return false;
    }
    if MOST_CLIENTS < n {
        return false;
    }
    if opening.len() < m {
        return false;
    }
    if service.len() < n * m {
        return false;
    }
    if !openings_within(&opening[..m]) {
        return false;
    }
    high_count(&service[..n * m]) == 0
}
