// Prints what the house tariff costs at each band's start, worked out from the bands, one number a line (document 02, paper 6).

#![tactic(auto)]

ghost use Rattle.std.specs.Prelude.{◌≡◌, ◌<◌};
ghost use Rattle.tariff.specs.Bands.{cost_before};
ghost use Rattle.tariff.specs.House.{house};

use std::io;
use tariff::{HOUSE, HOUSE_BANDS};

// What all the bands before band i cost.
fn cost_before(i: usize) -> u32
    requires { i < house.count }
    ensures { result ≡ cost_before house.band i }
{
    HOUSE[..i].iter().map(|band| band.whole_charge()).sum()
}

// Printing stops at the first write that fails.
fn print_starts(rt: &impl Print) -> io::Result<()> {
    for i in 0..HOUSE_BANDS {
        println!(rt; "{}", cost_before(i))?;
    }
    Ok(())
}

fn main(rt: HostRuntime) {
    if print_starts(&rt).is_err() {
        let _told = eprintln!(rt; "band_starts: the table could not be written whole").is_ok();
    }
}
