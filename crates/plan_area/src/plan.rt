// Writes the records of a plan to the front of an area that the caller lends.
ghost use Rattle.std.specs.Prelude.{◌≡◌, ◌+◌, ◌*◌, ◌≤◌, ◌<◌, true, ◌++◌, length};
ghost use Rattle.model.specs.Loops.{most_term, join};
ghost use Rattle.model.specs.Sets.{count, member};
ghost use Rattle.model.specs.Instance.{nearest, opening_cost, service_cost, total_cost};
ghost use Rattle.record.specs.Records.{record_of, bytes_of, splice};
ghost use Rattle.questions.specs.Bounds.{most_yards, most_farms};
ghost use Rattle.questions.specs.Sheet.{fee, farm_byte, loads_of, instance_by};
ghost use Rattle.stretch.specs.CountedSheet.{instance_on, loads_on};
ghost use Rattle.plan_area.specs.Plan.{total_kind, open_record, farm_record, moves_record, total_amount, plan_fits, writing};

use crate::open_yards::OpenYards;
use nearest::NOWHERE;
use questions::{MOST_FARMS, MOST_YARDS};
use record::{Kind, Record};
use stretch::CountedSheet;

const AMOUNT_END: u64 = 4294967296;

// What the record of the total shows: the set's full cost, as far as four bytes hold it, as they do on every accepted sheet, or an amount that is
// given.
#[derive(Clone, Copy)]
pub enum Total {
    FullCost,
    Given(u32),
}

// What the set's records come to: so many open yards, at a full cost.
#[derive(Clone, Copy)]
struct Totals {
    open_yards: usize,
    cost: u64,
}

// Question 9; of counts that no accepted sheet has the answer is no.
#[tactic(auto, unfolding(crate::specs::Plan::plan_fits, crate::specs::Plan::question9))]
pub fn plan_fits(yards: usize, farms: usize, room: usize) -> bool
    ensures { result ≡ plan_fits yards farms room }
{
    1 <= yards
        && yards <= MOST_YARDS
        && farms <= MOST_FARMS
        && Record::LEN * (yards + farms + 2) <= room
}

// Writes the plan of a set on a sheet of so many yards and farms, and gives the bytes written. Where the sheet has not so many
// records, or the area is smaller than question 9 asks, nothing is written.
pub fn write_plan(
    sheet: &[u8],
    yards: usize,
    farms: usize,
    set: u32,
    total: Total,
    moves: u32,
    area: &mut [u8],
) -> usize
    ensures bytes { result ≡ length (writing sheet.now yards farms set total moves (length area.old)) }
    ensures area { area.new ≡ splice area.old 0 (writing sheet.now yards farms set total moves (length area.old)) }
{
    if !plan_fits(yards, farms, area.len()) {
        return 0;
    }
    if sheet.len() < Record::LEN * (yards + farms * yards) {
        return 0;
    }
    let counted = CountedSheet {
        bytes: sheet,
        yards,
        farms,
    };
    let totals = put_yards_and_farms(counted, set, area);
    let amount = amount_of(total, totals.cost);
    put_total_and_moves(totals.open_yards, farms, amount, moves, area)
}

// The amount of the total's record.
fn amount_of(total: Total, cost: u64) -> u32
    ensures { result ≡ total_amount total cost }
{
    // Stays a match: it gives a value for each case, and runs nothing.
    match total {
        Total::FullCost => (cost % AMOUNT_END) as u32,
        Total::Given(amount) => amount,
    }
}

// Writes the records of the open yards to the front of the area and those of the farms behind them, and gives the count of the
// open yards and the full cost.
fn put_yards_and_farms(sheet: CountedSheet, set: u32, area: &mut [u8]) -> Totals
    requires { 8 * (sheet.yards + sheet.farms) ≤ length area.old }
    ensures open { result.open_yards ≡ count sheet.entry.yards (member set) }
    ensures cost { result.cost ≡ total_cost (instance_on sheet.entry) (member set) }
    ensures area { area.new ≡ splice area.old 0 (join sheet.entry.yards (open_record (instance_on sheet.entry) set) ++ join sheet.entry.farms (farm_record (instance_on sheet.entry) (loads_on sheet.entry) set)) }
{
    let members = sets::members_below(set, sheet.yards);
    let open = OpenYards {
        sheet,
        set,
        list: &members.list[..members.count],
    };
    let fees = put_opens(open, area);
    let hauls = put_farms(open, area, Record::LEN * open.list.len());
    Totals {
        open_yards: open.list.len(),
        cost: fees + hauls,
    }
}

// Writes the record of an open yard, and gives its fee.
fn put_open(sheet: CountedSheet, set: u32, yard: u8, area: &mut [u8], at: usize) -> u32
    requires { (yard < sheet.yards) × (member set yard ≡ true) × (at + 8 ≤ length area.old) }
    ensures fee { result ≡ fee sheet.entry.bytes.now yard }
    ensures area { area.new ≡ splice area.old at (open_record (instance_on sheet.entry) set yard) }
{
    let record = Record::new(Kind::Open as u8, yard, 0, 0, sheet.fee(yard as usize));
    record.put(area, at);
    record.amount
}

// Writes the records of the open yards to the front of the area, and gives their fees.
fn put_opens(open: OpenYards, area: &mut [u8]) -> u64
    requires { 8 * open.sheet.yards ≤ length area.old }
    ensures exact { result ≡ opening_cost (instance_on open.entry.sheet) (member open.entry.set) }
    ensures small { result ≤ open.entry.sheet.yards * most_term }
    ensures area { area.new ≡ splice area.old 0 (join open.entry.sheet.yards (open_record (instance_on open.entry.sheet) open.entry.set)) }
{
    let mut total: u64 = 0;
    for (t, &yard) in open.list.iter().enumerate() {
        let fee = put_open(open.sheet, open.set, yard, area, Record::LEN * t);
        total += fee as u64;
    }
    total
}

// Writes the record of a farm, with the haul of one load, and gives what all its loads cost.
fn put_farm(open: OpenYards, farm: usize, area: &mut [u8], at: usize) -> u64
    requires { (farm < open.sheet.farms) × (at + 8 ≤ length area.old) }
    ensures exact { result ≡ loads_of (loads_on open.entry.sheet farm) * nearest (instance_on open.entry.sheet) (member open.entry.set) farm }
    ensures small { result ≤ most_term }
    ensures area { area.new ≡ splice area.old at (farm_record (instance_on open.entry.sheet) (loads_on open.entry.sheet) open.entry.set farm) }
{
    let sheet = open.sheet;
    let near = nearest::nearest_listed(sheet.bytes, sheet.hauls(farm), open.list).unwrap_or(
        NOWHERE,
    );
    let byte3 = sheet.loads_byte(farm);
    let record = Record::new(
        Kind::Farm as u8,
        near.yard as u8,
        farm as u8,
        byte3,
        near.haul,
    );
    record.put(area, at);
    questions::loads_of(byte3) * (near.haul as u64)
}

// Writes the records of the farms from an offset on, and gives the sum of their hauls, times loads.
fn put_farms(open: OpenYards, area: &mut [u8], from: usize) -> u64
    requires { from + 8 * open.sheet.farms ≤ length area.old }
    ensures exact { result ≡ service_cost (instance_on open.entry.sheet) (member open.entry.set) }
    ensures small { result ≤ open.entry.sheet.farms * most_term }
    ensures area { area.new ≡ splice area.old from (join open.entry.sheet.farms (farm_record (instance_on open.entry.sheet) (loads_on open.entry.sheet) open.entry.set)) }
{
    let mut total: u64 = 0;
    for farm in 0..open.sheet.farms {
        total += put_farm(open, farm, area, from + Record::LEN * farm);
    }
    total
}

// Writes the records of the total and of the moves behind those of the yards and the farms, and gives the offset after them.
fn put_total_and_moves(
    open_yards: usize,
    farms: usize,
    total: u32,
    moves: u32,
    area: &mut [u8],
) -> usize
    requires { (open_yards ≤ most_yards) × (farms ≤ most_farms) × (8 * (open_yards + farms + 2) ≤ length area.old) }
    ensures next { result ≡ 8 * (open_yards + farms + 2) }
    ensures area { area.new ≡ splice area.old (8 * (open_yards + farms)) (bytes_of (record_of total_kind open_yards farms 0 total) ++ moves_record moves) }
{
    let at = Record::LEN * (open_yards + farms);
    let sum = Record::new(Kind::Total as u8, open_yards as u8, farms as u8, 0, total);
    let made = Record::new(Kind::Moves as u8, 0, 0, 0, moves);
    sum.put(area, at);
    made.put(area, at + Record::LEN);
    at + 2 * Record::LEN
}
