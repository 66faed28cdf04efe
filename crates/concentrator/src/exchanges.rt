// How an exchange goes on, and how it ends.
ghost use Rattle.concentrator.specs.View.{view};
ghost use Rattle.rules.specs.Concentrator.{closing, hear, time_out};
ghost use Rattle.rules.specs.Exchanges.{heard_after, heard_answer, timed_after, timed_answer, timed_buffer};
ghost use Rattle.rules.specs.Room.{DoubtAppends, HearAppends, Roomy, flags_read};
ghost use Rattle.rules.specs.Telegrams.{telegram_read};
ghost use Rattle.std.specs.Prelude.{◌≡◌, length, OnErr, nat_lt};

use crate::Concentrator;
use fault::{Cause, Fault};
use frame::{Format, check_buffer};
use links::{flags, link_after, transmission, verdict};
use queue::Slots;
use rules::records::{Arrival, Ending, Exchange, Flags, Outcome, Report};
use rules::telegram::{read_telegram, write_telegram};

impl<P: Slots<Item = Arrival>, Q: Slots<Item = Report>, F: Format> Concentrator<P, Q, F> {
    // Ends the exchange. Its report finds a free slot, as does the arrival that it brought: both were free when it was
    // opened, and only it fills them. So neither put is refused, as `appended` of the two callers says.
    fn close(&mut self, exchange: Exchange, ending: Ending, flags: Flags)
        ensures { view P.Slots.items Q.Slots.items self.new ≡ (closing exchange ending flags (view P.Slots.items Q.Slots.items self.old)).after }
    {
        let station = exchange.station;
        let link = self.link(station);
        let after = link_after(exchange.request, ending, link);
        self.links.change(station, after);
        if let Ending::Brought(message) = ending {
            let _ = self.arrivals.put(Arrival { station, message });
        }
        let _ = self.reports.put(Report {
            station,
            service: exchange.request.into(),
            outcome: ending.into(),
            flags,
            transmissions: exchange.transmissions,
        });
        self.exchange = None;
    }

    // No answer came: writes the same frame again, or ends the exchange in doubt, writes nothing and answers 0, as
    // section 10 of docs/RULES.md has it. Refused with 20, 13.
    pub fn time_out(&mut self, buffer: &mut [u16]) -> Result<usize, Fault>
        ensures answer { result ≡ timed_answer F.frame (time_out (nat_lt (length buffer.old) F.LONGEST) (view P.Slots.items Q.Slots.items self.old)) }
        ensures moved { view P.Slots.items Q.Slots.items self.new ≡ timed_after (time_out (nat_lt (length buffer.old) F.LONGEST) (view P.Slots.items Q.Slots.items self.old)) (view P.Slots.items Q.Slots.items self.old) }
        ensures written { buffer.new ≡ timed_buffer F.frame (time_out (nat_lt (length buffer.old) F.LONGEST) (view P.Slots.items Q.Slots.items self.old)) buffer.old }
        ensures refused { OnErr result (self.new ≡ self.old) }
        ensures kept { Roomy (view P.Slots.items Q.Slots.items self.old) → Roomy (view P.Slots.items Q.Slots.items self.new) }
        ensures appended { Roomy (view P.Slots.items Q.Slots.items self.old) → DoubtAppends (time_out (nat_lt (length buffer.old) F.LONGEST) (view P.Slots.items Q.Slots.items self.old)) (view P.Slots.items Q.Slots.items self.old) (view P.Slots.items Q.Slots.items self.new) }
    {
        check_buffer(buffer, F::LONGEST)?;
        let mut exchange = self.exchange.ok_or(Fault::of(Cause::NoExchange))?;
        if exchange.transmissions > u16::from(self.repetitions) {
            self.close(exchange, Ending::Doubted, Flags::default());
            return Ok(0);
        }
        exchange.transmissions += 1;
        let count = write_telegram::<F>(transmission(&exchange), buffer)?;
        self.exchange = Some(exchange);
        Ok(count)
    }

    // Hears a burst, and ends the exchange if it is an answer to it. Refused with the faults of reading, 13, 8, 9, 10.
    pub fn hear(&mut self, burst: &[u16]) -> Result<Outcome, Fault>
        ensures answer { result ≡ heard_answer (hear (telegram_read (F.verdict burst.now)) (view P.Slots.items Q.Slots.items self.old)) }
        ensures moved { view P.Slots.items Q.Slots.items self.new ≡ heard_after (hear (telegram_read (F.verdict burst.now)) (view P.Slots.items Q.Slots.items self.old)) (view P.Slots.items Q.Slots.items self.old) }
        ensures refused { OnErr result (self.new ≡ self.old) }
        ensures kept { Roomy (view P.Slots.items Q.Slots.items self.old) → Roomy (view P.Slots.items Q.Slots.items self.new) }
        ensures appended { Roomy (view P.Slots.items Q.Slots.items self.old) → HearAppends (flags_read (telegram_read (F.verdict burst.now))) (hear (telegram_read (F.verdict burst.now)) (view P.Slots.items Q.Slots.items self.old)) (view P.Slots.items Q.Slots.items self.old) (view P.Slots.items Q.Slots.items self.new) }
    {
        let telegram = read_telegram::<F>(burst)?;
        let exchange = self.exchange.ok_or(Fault::of(Cause::NoExchange))?;
        let ending = verdict(&exchange, &telegram)?;
        self.close(exchange, ending, flags(&telegram));
        Ok(ending.into())
    }
}
