// What the concentrator asks of a station.
ghost use Rattle.concentrator.specs.View.{view};
ghost use Rattle.rules.specs.Concentrator.{asking, has_room, request as requested, request_as};
ghost use Rattle.rules.specs.Exchanges.{sent_after, sent_answer, sent_buffer};
ghost use Rattle.rules.specs.Room.{Roomy};
ghost use Rattle.std.specs.Prelude.{◌≡◌, ◌≤◌, length, Ok, OnErr, nat_lt};

use crate::Concentrator;
use fault::{Cause, Fault};
use frame::{Format, check_buffer};
use links::{is_ready, link_asked, transmission};
use queue::Slots;
use rules::records::{Arrival, Exchange, Report, Request, UserRequest};
use rules::station::check_station;
use rules::telegram::write_telegram;

impl<P: Slots<Item = Arrival>, Q: Slots<Item = Report>, F: Format> Concentrator<P, Q, F> {
    // A free slot for the report and, on a poll, one for the arrival.
    fn has_room(&self, request: &Request) -> bool
        ensures { result ≡ has_room request.now (view P.Slots.items Q.Slots.items self.now) }
    {
        match *request {
            Request::Reset | Request::Status | Request::Send(_) => !self.reports.is_full(),
            Request::Poll(_) => !self.reports.is_full() && !self.arrivals.is_full(),
        }
    }

    // Opens the exchange of a request and writes its frame. Refused with 17, 18, 19.
    // Inlined, so that a request without octets is not copied with the room for them.
    #[inline(always)]
    fn open(&mut self, station: u8, request: Request, buffer: &mut [u16]) -> Result<usize, Fault>
        requires { F.LONGEST ≤ length buffer.old }
        ensures answer { result ≡ sent_answer F.frame (request_as (Ok request) station (view P.Slots.items Q.Slots.items self.old)) }
        ensures moved { view P.Slots.items Q.Slots.items self.new ≡ sent_after (request_as (Ok request) station (view P.Slots.items Q.Slots.items self.old)) (view P.Slots.items Q.Slots.items self.old) }
        ensures written { buffer.new ≡ sent_buffer F.frame (request_as (Ok request) station (view P.Slots.items Q.Slots.items self.old)) buffer.old }
        ensures refused { OnErr result (self.new ≡ self.old) }
        ensures kept { Roomy (view P.Slots.items Q.Slots.items self.old) → Roomy (view P.Slots.items Q.Slots.items self.new) }
    {
        if self.exchange.is_some() {
            return Err(Fault::of(Cause::ExchangeOpen));
        }
        let link = self.link(station);
        if !is_ready(&request, link) {
            return Err(Fault::of(Cause::LinkUnset));
        }
        if !self.has_room(&request) {
            return Err(Fault::of(Cause::NoFreeSlot));
        }
        let exchange = Exchange {
            station,
            request,
            bit: link.next,
            transmissions: 1,
        };
        let count = write_telegram::<F>(transmission(&exchange), buffer)?;
        self.links.change(station, link_asked(&request, link));
        self.exchange = Some(exchange);
        Ok(count)
    }

    // Asks something of a station: to set its link anew, which unsets it here until it has; for its status; to take a
    // message; for its oldest message of a class. Refused, in this order, with 20, 14, 15 or 16, 17, 18, 19.
    pub fn request(
        &mut self,
        station: u8,
        asked: UserRequest<'_>,
        buffer: &mut [u16],
    ) -> Result<usize, Fault>
        ensures answer { result ≡ sent_answer F.frame (requested (nat_lt (length buffer.old) F.LONGEST) station (asking asked.entry) (view P.Slots.items Q.Slots.items self.old)) }
        ensures moved { view P.Slots.items Q.Slots.items self.new ≡ sent_after (requested (nat_lt (length buffer.old) F.LONGEST) station (asking asked.entry) (view P.Slots.items Q.Slots.items self.old)) (view P.Slots.items Q.Slots.items self.old) }
        ensures written { buffer.new ≡ sent_buffer F.frame (requested (nat_lt (length buffer.old) F.LONGEST) station (asking asked.entry) (view P.Slots.items Q.Slots.items self.old)) buffer.old }
        ensures refused { OnErr result (self.new ≡ self.old) }
        ensures kept { Roomy (view P.Slots.items Q.Slots.items self.old) → Roomy (view P.Slots.items Q.Slots.items self.new) }
    {
        check_buffer(buffer, F::LONGEST)?;
        check_station(station)?;
        self.open(station, asked.request()?, buffer)
    }
}
