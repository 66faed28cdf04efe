// A reader's own calls, and what a user takes from the concentrator.
ghost use Rattle.account.specs.Line.{Octets, collects, fetches_arrival, fetches_report, offers, restarts, surveys};
ghost use Rattle.queue.specs.Fifo.{take_answer};
ghost use Rattle.readers.specs.Readers.{at};
ghost use Rattle.rules.specs.Reader.{marked as mark_of, offer, offer_answer, record_after};
ghost use Rattle.rules.specs.Survey.{Surveyed, survey_answer};
ghost use Rattle.rules.specs.declared.records.Mark.TheVariants.{Doubtful};
ghost use Rattle.site.specs.Sites.{Leads, always, fault_of, seen, settled, trouble_of};
ghost use Rattle.site.specs.Troubles.{is_made, no_memory};
ghost use Rattle.site.specs.declared.trouble.Trouble.TheVariants as trouble;
ghost use Rattle.station.specs.Refusals.{told};
ghost use Rattle.std.specs.Option.{option_map};
ghost use Rattle.std.specs.Prelude.{◌≡◌, true, length, if◌then◌else◌, Some, Err, MatchOption, MatchResult};

use crate::{Site, Trouble};
use fault::Fault;
use frame::Format;
use rules::message::Message;
use rules::records::{Arrival, Mark, Report};
use station::Refusal;

// What bytes are: said of all of a slice, for the account.
pub(crate) fn are_octets(octets: &[u8])
    ensures { Octets octets.now }
{}

impl<F: Format> Site<F> {
    // One message more of a reader for the concentrator. The class as a number, which the reader refuses with 16 if it is
    // wrong: 15, 16, 21.
    pub fn offer(&mut self, address: u8, class: u8, octets: &[u8]) -> Result<(), Trouble>
        ensures answer { result ≡ (if no_memory result then Err trouble.OutOfMemory else trouble_of (option_map (λ x. told (offer_answer (offer class octets.now x.reader))) (at address (seen self.old).readers))) }
        ensures steps { Leads F.Format (is_made result) (seen self.old) (seen self.new) (λ w. offers address class octets.now) }
    {
        are_octets(octets);
        let station = self.readers.get_mut(address).ok_or(Trouble::NoReader)?;
        let answer = station.offer(class, octets);
        self.settle(answer)
    }

    // A call of a reader that was not refused for want of memory was made.
    fn settle(&mut self, answer: Result<(), Refusal>) -> Result<(), Trouble>
        ensures answer { result ≡ trouble_of (Some answer) }
        ensures moved { seen self.new ≡ settled (is_made result) (seen self.old) }
    {
        if let Err(Refusal::Memory) = answer {
            return Err(Trouble::OutOfMemory);
        }
        self.started = true;
        Ok(answer?)
    }

    // The oldest message of a reader's inbox, which is taken out: 22.
    pub fn collect(&mut self, address: u8) -> Result<Message, Trouble>
        ensures answer { result ≡ fault_of (option_map (λ x. take_answer x.reader.inbox.records) (at address (seen self.old).readers)) }
        ensures steps { Leads F.Format (is_made result) (seen self.old) (seen self.new) (λ w. collects address) }
    {
        let station = self.readers.get_mut(address).ok_or(Trouble::NoReader)?;
        let collected = station.collect();
        self.started = true;
        Ok(collected?)
    }

    // A reader starts again; the message out, which is doubtful then, stands in the caller's record, by section 9 of
    // docs/RULES.md.
    pub fn restart(&mut self, address: u8, marked: &mut Message) -> Result<Option<Mark>, Trouble>
        ensures answer { result ≡ always (option_map (λ x. mark_of Doubtful x.reader.out) (at address (seen self.old).readers)) }
        ensures kept { MatchOption (at address (seen self.old).readers) (marked.new ≡ marked.old) (λ x. marked.new ≡ record_after (mark_of Doubtful x.reader.out) x.reader.out marked.old) }
        ensures steps { Leads F.Format (is_made result) (seen self.old) (seen self.new) (λ w. restarts address) }
    {
        let station = self.readers.get_mut(address).ok_or(Trouble::NoReader)?;
        let mark = station.restart(marked);
        self.started = true;
        Ok(mark)
    }

    // Takes the oldest report: 22.
    pub fn fetch_report(&mut self) -> Result<Report, Fault>
        ensures answer { result ≡ take_answer (seen self.old).concentrator.reports.records }
        ensures steps { Leads F.Format true (seen self.old) (seen self.new) (λ w. fetches_report) }
    {
        self.started = true;
        self.concentrator.fetch_report()
    }

    // Takes the oldest arrival: 22.
    pub fn fetch_arrival(&mut self) -> Result<Arrival, Fault>
        ensures answer { result ≡ take_answer (seen self.old).concentrator.arrivals.records }
        ensures steps { Leads F.Format true (seen self.old) (seen self.new) (λ w. fetches_arrival) }
    {
        self.started = true;
        self.concentrator.fetch_arrival()
    }

    // Writes the address of every station whose link is set at the front of the buffer: 20.
    pub fn survey(&mut self, buffer: &mut [u8]) -> Result<usize, Fault>
        ensures answer { result ≡ survey_answer (seen self.old).concentrator.links (length buffer.old) }
        ensures written { MatchResult result (λ count. Surveyed (seen self.old).concentrator.links buffer.old buffer.new count) (λ _. buffer.new ≡ buffer.old) }
        ensures steps { Leads F.Format true (seen self.old) (seen self.new) (λ w. surveys) }
    {
        self.started = true;
        self.concentrator.survey(buffer)
    }
}
