// The concentrator, the primary station of the link: it asks its readers, one exchange at a time, and keeps what they
// answer and how each exchange ended.
#![tactic(auto)]

mod exchanges;
mod requests;

ghost use Rattle.account.specs.Account.{TwoEndsOver};
ghost use Rattle.concentrator.specs.View.{view};
ghost use Rattle.queue.specs.Fifo.{take_answer};
ghost use Rattle.rules.specs.Concentrator.{arrival_fetched, concentrator_check, new_concentrator, report_fetched};
ghost use Rattle.rules.specs.Links.{link_at};
ghost use Rattle.rules.specs.Room.{Roomy};
ghost use Rattle.rules.specs.Survey.{Surveyed, survey_answer};
ghost use Rattle.std.specs.Prelude.{◌≡◌, length, MatchResult, OnErr};

use account::two_ends_hold;
use fault::{Cause, Fault};
use frame::Format;
use links::LinkTable;
use queue::{Queue, Slots, check_slots};
use rules::link::Link;
use rules::records::{Arrival, ConcentratorPlan, Exchange, Report};
use std::marker::PhantomData;

// The most times that a frame may be repeated.
pub const MOST_REPETITIONS: u8 = 7;

// Whether a concentrator may be made with so many repetitions and over so many slots.
pub fn check(plan: ConcentratorPlan) -> Result<(), Fault>
    ensures { result ≡ concentrator_check plan.repetitions plan.arrivals plan.reports }
{
    if plan.repetitions > MOST_REPETITIONS {
        return Err(Fault::of(Cause::BadRepetitions));
    }
    check_slots(plan.arrivals)?;
    check_slots(plan.reports)
}

// It repeats each frame so many times, holds the link to each station, the exchange that is open, and the queues of
// what has arrived and of what is reported. That an open exchange has its slots is a clause of each call, and no ghost
// field: such a field would ask for the bounds of both stores wherever the type is named.
#[derive(Drop)]
pub struct Concentrator<P, Q, F> {
    repetitions: u8,
    links: LinkTable,
    exchange: Option<Exchange>,
    arrivals: Queue<P>,
    reports: Queue<Q>,
    format: PhantomData<F>,
}

impl<P: Slots<Item = Arrival>, Q: Slots<Item = Report>, F: Format> Concentrator<P, Q, F> {
    // A new concentrator over the slots, lent or its own: every link unset, no exchange open, both queues empty. On a
    // line of it and readers, all begun new, the account of the two ends then holds after every run, as each call keeps
    // to the rules.
    pub fn over(repetitions: u8, arrivals: P, reports: Q) -> Concentrator<P, Q, F>
        ensures begun { view P.Slots.items Q.Slots.items result ≡ new_concentrator repetitions (length (P.Slots.items arrivals)) (length (Q.Slots.items reports)) }
        ensures roomy { Roomy (view P.Slots.items Q.Slots.items result) }
        ensures accounted { TwoEndsOver F.Format }
    {
        two_ends_hold::<F>();
        Concentrator {
            repetitions,
            links: LinkTable::new(),
            exchange: None,
            arrivals: Queue::over(arrivals),
            reports: Queue::over(reports),
            format: PhantomData,
        }
    }

    // The link to a station.
    pub fn link(&self, station: u8) -> Link
        ensures { result ≡ link_at (view P.Slots.items Q.Slots.items self.now).links station }
    {
        self.links.get(station)
    }

    // The exchange that is open, if one is.
    pub fn exchange(&self) -> Option<Exchange>
        ensures { result ≡ (view P.Slots.items Q.Slots.items self.now).exchange }
    {
        self.exchange
    }

    // Takes the oldest report. Refused with 22.
    pub fn fetch_report(&mut self) -> Result<Report, Fault>
        ensures answer { result ≡ take_answer (view P.Slots.items Q.Slots.items self.old).reports.records }
        ensures moved { view P.Slots.items Q.Slots.items self.new ≡ report_fetched (view P.Slots.items Q.Slots.items self.old) }
        ensures refused { OnErr result (self.new ≡ self.old) }
        ensures kept { Roomy (view P.Slots.items Q.Slots.items self.old) → Roomy (view P.Slots.items Q.Slots.items self.new) }
    {
        self.reports.take()
    }

    // Takes the oldest arrival. Refused with 22.
    pub fn fetch_arrival(&mut self) -> Result<Arrival, Fault>
        ensures answer { result ≡ take_answer (view P.Slots.items Q.Slots.items self.old).arrivals.records }
        ensures moved { view P.Slots.items Q.Slots.items self.new ≡ arrival_fetched (view P.Slots.items Q.Slots.items self.old) }
        ensures refused { OnErr result (self.new ≡ self.old) }
        ensures kept { Roomy (view P.Slots.items Q.Slots.items self.old) → Roomy (view P.Slots.items Q.Slots.items self.new) }
    {
        self.arrivals.take()
    }

    // Writes the address of every station whose link is set, each once, at the front of the buffer.
    // Refused with 20.
    pub fn survey(&self, buffer: &mut [u8]) -> Result<usize, Fault>
        ensures answer { result ≡ survey_answer (view P.Slots.items Q.Slots.items self.now).links (length buffer.old) }
        ensures written { MatchResult result (λ count. Surveyed (view P.Slots.items Q.Slots.items self.now).links buffer.old buffer.new count) (λ _. buffer.new ≡ buffer.old) }
    {
        self.links.survey(buffer)
    }
}
