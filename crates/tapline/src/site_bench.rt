// A whole line: a concentrator, its readers, and bursts that are heard, damaged or lost.
use crate::answer::{Effects, symbols};
use crate::bench::{Bench, ByFormat};
use crate::concentrator_call::{AsConcentrator, call_concentrator};
use crate::failure::Failure;
use crate::site_account::write_account;
use crate::site_command::{End, SiteCall};
use damage::Damage;
use fault::Fault;
use frame::Format;
use ft3::Ft3;
use ft12::Ft12;
use rules::message::Message;
use rules::records::{Arrival, ConcentratorPlan, Report, UserRequest};
use site::{Site, TimedOut};
use std::alloc::{AllocError, Global};

pub type AnySite = ByFormat<Site<Ft12>, Site<Ft3>>;

impl<F: Format> Bench for Site<F> {
    type Plan = ConcentratorPlan;

    type Call = SiteCall;

    fn make(heap: Global, plan: ConcentratorPlan) -> Result<Site<F>, Failure<'static>> {
        Ok(Site::begin(heap, plan)?)
    }

    fn call(
        &mut self,
        call: SiteCall,
        buffer: &mut [u16],
        answer: &mut String,
    ) -> Result<(), Failure<'static>> {
        match call {
            SiteCall::Join(plan) => {
                self.join(plan)?;
                write!(answer, "reader {}", plan.address)?;
            }
            SiteCall::Concentrator(call) => call_concentrator(self, call, buffer, answer)?,
            SiteCall::Hear { end, burst, damage } => {
                hear(self, end, burst, &damage, buffer.len(), answer)?;
            }
            SiteCall::Lose { end, burst } => lose(self, end, burst, answer)?,
            SiteCall::Quiet => {
                self.quiet();
                write!(answer, "quiet")?;
            }
            SiteCall::Offer {
                address,
                class,
                octets,
            } => {
                self.offer(address, class, octets.as_slice())?;
                write!(answer, "offered")?;
            }
            SiteCall::Collect(address) => {
                let message = self.collect(address)?;
                write!(answer, "message: {message}")?;
            }
            SiteCall::Restart(address) => restart(self, address, answer)?,
            SiteCall::Account => write_account(self, answer)?,
        }
        Ok(())
    }
}

fn hear<F: Format>(
    site: &mut Site<F>,
    end: End,
    burst: usize,
    damage: &Damage,
    places: usize,
    answer: &mut String,
) -> Result<(), Failure<'static>> {
    match end {
        End::Concentrator => {
            let outcome = site.hear_at_concentrator(burst, damage)?;
            write!(answer, "{outcome}")?;
        }
        End::Reader(address) => {
            let mut marked = Message::BLANK;
            let heard = site.hear_at_reader(address, burst, damage, places, &mut marked)?;
            let effects = Effects::new(heard.taken, heard.mark, marked);
            write_burst(site, heard.burst, answer)?;
            write!(answer, "{effects}")?;
        }
    }
    Ok(())
}

fn lose<F: Format>(
    site: &mut Site<F>,
    end: End,
    burst: usize,
    answer: &mut String,
) -> Result<(), Failure<'static>> {
    match end {
        End::Concentrator => site.lose_at_concentrator(burst)?,
        End::Reader(address) => site.lose_at_reader(address, burst)?,
    }
    write!(answer, "lost")?;
    Ok(())
}

fn restart<F: Format>(
    site: &mut Site<F>,
    address: u8,
    answer: &mut String,
) -> Result<(), Failure<'static>> {
    let mut marked = Message::BLANK;
    let mark = site.restart(address, &mut marked)?;
    let effects = Effects::new(false, mark, marked);
    write!(answer, "restarted{effects}")?;
    Ok(())
}

// The burst of this number, as it went out.
fn write_burst<F: Format>(
    site: &Site<F>,
    burst: usize,
    answer: &mut String,
) -> Result<(), AllocError> {
    let sent = symbols::<F>(site.symbols(burst).unwrap_or(&[]));
    write!(answer, "burst {burst}:{sent}")
}

impl<F: Format> AsConcentrator for Site<F> {
    fn ask(
        &mut self,
        station: u8,
        request: UserRequest<'_>,
        buffer: &mut [u16],
        answer: &mut String,
    ) -> Result<(), Failure<'static>> {
        let burst = self.request(station, request, buffer.len())?;
        write_burst(self, burst, answer)?;
        Ok(())
    }

    fn repeat(&mut self, buffer: &mut [u16], answer: &mut String) -> Result<(), Failure<'static>> {
        match self.time_out(buffer.len())? {
            TimedOut::Repeated(burst) => write_burst(self, burst, answer)?,
            TimedOut::Doubted => write!(answer, "doubtful")?,
        }
        Ok(())
    }

    // A concentrator and a site both have these calls, and no trait of the library names them.
    fn next_report(&mut self) -> Result<Report, Fault> {
        self.fetch_report()
    }

    fn next_arrival(&mut self) -> Result<Arrival, Fault> {
        self.fetch_arrival()
    }

    fn stations(&mut self, buffer: &mut [u8]) -> Result<usize, Fault> {
        self.survey(buffer)
    }
}

#[cfg(test)]
mod tests {
    use super::*;

    // With memory to be had, what is asked of a station goes out, each time as one burst more.
    #[test]
    fn a_request_goes_out(rt: HostRuntime) {
        let plan = ConcentratorPlan {
            repetitions: 0,
            arrivals: 1,
            reports: 2,
        };
        let Ok(mut site) = Site::<Ft12>::begin(rt.alloc(), plan) else {
            return assert!(rt; false, "no site");
        };
        assert!(rt; matches!(site.request(5, UserRequest::Reset, Ft12::LONGEST), Ok(1)));
        site.quiet();
        assert!(rt; matches!(site.time_out(Ft12::LONGEST), Ok(TimedOut::Doubted)));
        assert!(rt; matches!(site.request(5, UserRequest::Status, Ft12::LONGEST), Ok(2)));
    }
}
