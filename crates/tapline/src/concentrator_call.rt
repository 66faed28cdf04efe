// The calls of a concentrator that is on the bench or on a site.
use crate::command::ConcentratorCall;
use crate::failure::Failure;
use fault::Fault;
use links::STATIONS;
use rules::records::{Arrival, Report, UserRequest};

// The places that a survey of every station takes.
const PLACES: usize = STATIONS as usize;

// A concentrator, on the bench or on a site.
pub trait AsConcentrator {
    // Sends a request, and answers with what went out.
    fn ask(
        &mut self,
        station: u8,
        request: UserRequest<'_>,
        buffer: &mut [u16],
        answer: &mut String,
    ) -> Result<(), Failure<'static>>;

    // Repeats a request, or ends it in doubt.
    fn repeat(&mut self, buffer: &mut [u16], answer: &mut String) -> Result<(), Failure<'static>>;

    fn next_report(&mut self) -> Result<Report, Fault>;

    fn next_arrival(&mut self) -> Result<Arrival, Fault>;

    // The stations whose link is set, at the front of the buffer.
    fn stations(&mut self, buffer: &mut [u8]) -> Result<usize, Fault>;
}

pub fn call_concentrator<C: AsConcentrator>(
    concentrator: &mut C,
    call: ConcentratorCall,
    buffer: &mut [u16],
    answer: &mut String,
) -> Result<(), Failure<'static>> {
    match call {
        ConcentratorCall::Request { station, wish } => {
            concentrator.ask(station, UserRequest::from(&wish), buffer, answer)?;
        }
        ConcentratorCall::TimeOut => concentrator.repeat(buffer, answer)?,
        ConcentratorCall::FetchReport => {
            let report = concentrator.next_report()?;
            write!(answer, "{report}")?;
        }
        ConcentratorCall::FetchArrival => {
            let arrival = concentrator.next_arrival()?;
            write!(answer, "{arrival}")?;
        }
        ConcentratorCall::Survey(places) => survey(concentrator, places, answer)?,
    }
    Ok(())
}

// A survey with so many places; more than there are stations are as good as that many.
fn survey<C: AsConcentrator>(
    concentrator: &mut C,
    places: usize,
    answer: &mut String,
) -> Result<(), Failure<'static>> {
    let mut addresses = [0; PLACES];
    let count = concentrator.stations(&mut addresses[..places.min(PLACES)])?;
    write!(answer, "set:")?;
    for address in addresses.iter().take(count) {
        write!(answer, " {address}")?;
    }
    Ok(())
}
