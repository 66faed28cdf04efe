// The stations of the link, by their numbers.
ghost use Rattle.fault.specs.Causes.{fault};
ghost use Rattle.fault.specs.declared.Cause.TheVariants.{BadStation};
ghost use Rattle.frame.specs.Verdicts.{must};
ghost use Rattle.rules.specs.Messages.{within};
ghost use Rattle.std.specs.Prelude.{◌≡◌, Ok};

use fault::{Cause, Fault};

// The stations are 1 to this number.
pub const STATIONS: u8 = 32;

// 14 unless a station has this number.
pub fn check_station(station: u8) -> Result<(), Fault>
    ensures { result ≡ must (within 1 32 station) (fault BadStation 0) (Ok tt) }
{
    if !(1..=STATIONS).contains(&station) {
        return Err(Fault::of(Cause::BadStation));
    }
    Ok(())
}
