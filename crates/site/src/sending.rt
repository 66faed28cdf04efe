// What the concentrator sends: requests, and what a time-out repeats.
ghost use Rattle.account.specs.Line.{OctetsAsked, requests, times_out};
ghost use Rattle.line.specs.Lines.{room};
ghost use Rattle.line.specs.Ways.{Silent, as_sent, launched};
ghost use Rattle.readers.specs.Readers.{ReadyAt};
ghost use Rattle.rules.specs.Concentrator.{asking, request, time_out};
ghost use Rattle.site.specs.Sites.{Concluded, Leads, Noted, ReadyFor, ReadyOnce, Repeats, Transmitted, next_burst, seen, sent_as, station_of, timed_as, with_line};
ghost use Rattle.site.specs.Troubles.{is_made, no_memory, not_silent};
ghost use Rattle.site.specs.declared.trouble.Trouble.TheVariants as trouble;
ghost use Rattle.std.specs.Prelude.{◌≡◌, true, false, not, length, take, IfOk, if◌then◌else◌, Err, Decides, OnOk, nat_lt};

use crate::calls::are_octets;
use crate::{Site, TimedOut, Trouble};
use fault::Fault;
use frame::Format;
use queue::Slots;
use rules::records::{Exchange, Outcome, UserRequest};
use std::alloc::AllocError;

impl<F: Format> Site<F> {
    // Memory for a burst, for the books of a station, and a buffer of so many places: what a call needs, before it. No
    // value stands for that room, since it would keep the line and the readers borrowed.
    pub(crate) fn prepare(&mut self, station: u8, places: usize) -> Result<Vec<u16>, AllocError>
        ensures same { seen self.new ≡ seen self.old }
        ensures buffer { IfOk result (λ b. length b.items ≡ places) }
        ensures room { OnOk result (room self.new.line ≡ true) }
        ensures ready { OnOk result (ReadyAt station self.new.readers) }
    {
        self.line.reserve()?;
        self.readers.reserve(station)?;
        vec![in self.heap; 0; places]
    }

    // A burst of the first symbols of a buffer, and its k.
    pub(crate) fn launch(&mut self, mut symbols: Vec<u16>, count: usize, number: usize) -> usize
        requires { room self.old.line ≡ true }
        ensures answer { result ≡ next_burst (seen self.old) }
        ensures moved { seen self.new ≡ with_line (launched (as_sent (take count symbols.items) number) (seen self.old).line) (seen self.old) }
    {
        symbols.truncate(count);
        // There is room for it, by `requires`.
        let _ = self.line.launch(symbols, number);
        self.line.count()
    }

    // Writes the open request into the books of its station, and gives the number of its burst; 0 for none, as the
    // account numbers bursts.
    fn note_request(&mut self) -> usize
        requires { ReadyFor (seen self.old).concentrator.exchange self.old.readers }
        ensures noted { Noted (seen self.old).concentrator.exchange result (seen self.old) (seen self.new) }
        ensures room { room self.new.line ≡ room self.old.line }
    {
        match self.concentrator.exchange() {
            Some(exchange) => {
                let station = exchange.station;
                // There is room for it, by `requires`.
                let _ = self.readers.ask(station, exchange.request);
                self.readers.newest_send(station)
            }
            None => 0,
        }
    }

    // The frame of an accepted request goes out.
    fn transmit(&mut self, sent: Result<usize, Fault>, buffer: Vec<u16>) -> Result<usize, Trouble>
        requires { (room self.old.line ≡ true) × (ReadyOnce sent (seen self.old).concentrator.exchange self.old.readers) }
        ensures { Transmitted sent buffer.items (seen self.old) (seen self.new) result }
    {
        self.started = true;
        let count = sent?;
        let number = self.note_request();
        Ok(self.launch(buffer, count, number))
    }

    // Asks something of a station, and gives the k of the burst: 20, 14, 15 or 16, 17, 18, 19.
    pub fn request(
        &mut self,
        station: u8,
        asked: UserRequest<'_>,
        places: usize,
    ) -> Result<usize, Trouble>
        ensures answer { result ≡ (if no_memory result then Err trouble.OutOfMemory else sent_as (seen self.old) (request (nat_lt places F.LONGEST) station (asking asked.entry) (seen self.old).concentrator)) }
        ensures steps { Leads F.Format (is_made result) (seen self.old) (seen self.new) (λ w. requests (nat_lt places F.LONGEST) station (asking asked.entry)) }
    {
        are_octets_asked(asked);
        let mut buffer = self.prepare(station, places)?;
        let sent = self.concentrator.request(station, asked, &mut buffer);
        self.transmit(sent, buffer)
    }

    // No answer came on a silent line: the frame goes out again, or the exchange ends in doubt: 20, 13.
    pub fn time_out(&mut self, places: usize) -> Result<TimedOut, Trouble>
        ensures silent { Decides (not (not_silent result)) (Silent (seen self.old).line) }
        ensures answer { not_silent result ≡ false → result ≡ (if no_memory result then Err trouble.OutOfMemory else timed_as (seen self.old) (time_out (nat_lt places F.LONGEST) (seen self.old).concentrator)) }
        ensures steps { Leads F.Format (is_made result) (seen self.old) (seen self.new) (λ w. times_out (nat_lt places F.LONGEST)) }
    {
        if !self.line.is_silent() {
            return Err(Trouble::NotSilent);
        }
        let exchange = self.concentrator.exchange();
        let mut buffer = self.prepare(station_of(exchange), places)?;
        let timed = self.concentrator.time_out(&mut buffer);
        self.started = true;
        Ok(self.repeat(exchange, buffer, timed?))
    }

    // The frame of the exchange goes out again if it is still open; else it has ended in doubt.
    fn repeat(&mut self, exchange: Option<Exchange>, buffer: Vec<u16>, count: usize) -> TimedOut
        requires { (room self.old.line ≡ true) × (ReadyFor exchange self.old.readers) }
        ensures { Repeats exchange (seen self.old).concentrator.exchange (take count buffer.items) (seen self.old) (seen self.new) result }
    {
        match self.concentrator.exchange() {
            Some(_) => {
                let number = self.readers.newest_send(station_of(exchange));
                TimedOut::Repeated(self.launch(buffer, count, number))
            }
            None => {
                self.end(exchange, 0, Outcome::Doubtful);
                TimedOut::Doubted
            }
        }
    }

    // Writes an ended exchange into the books of its station.
    pub(crate) fn end(&mut self, exchange: Option<Exchange>, number: usize, outcome: Outcome)
        requires { ReadyFor exchange self.old.readers }
        ensures { Concluded exchange number outcome (seen self.old) (seen self.new) }
    {
        if let Some(exchange) = exchange {
            // There is room for it, by `requires`.
            let _ = self
                .readers
                .end(exchange.station, number, exchange.request, outcome);
        }
    }
}

// That bytes are octets, said of a request's, for the account.
fn are_octets_asked(asked: UserRequest<'_>)
    ensures { OctetsAsked (asking asked.entry) }
{
    if let UserRequest::Send(octets) = asked {
        are_octets(octets);
    }
}

// The station of an exchange, 0 for none: no reader is there, as the account counts.
pub(crate) fn station_of(exchange: Option<Exchange>) -> u8
    ensures { result ≡ station_of exchange }
{
    exchange.map_or(0, |exchange| exchange.station)
}
