// The links to the readers: a plain table with one record for each station.
ghost use Rattle.rules.specs.Links.{change_link, link_at, unset_link};
ghost use Rattle.rules.specs.Survey.{Surveyed, survey_answer};
ghost use Rattle.std.specs.Prelude.{◌≡◌, ◌-◌, length, replicate, MatchResult};

use fault::{Cause, Fault};
use rules::link::Link;
use rules::station::STATIONS;

// A record for each station.
const PLACES: usize = STATIONS as usize;

// The record of station 1 comes first. Past the last station every link is unset and none changes.
#[derive(Clone, Copy)]
pub struct LinkTable {
    records: [Link; PLACES],
}

// Station 0, which no request has, shares the record of station 1.
fn place_of(station: u8) -> usize
    ensures { result ≡ station - 1 }
{
    usize::from(station.saturating_sub(1))
}

impl LinkTable {
    // Every link as it begins.
    pub fn new() -> LinkTable
        ensures { result.records ≡ replicate 32 unset_link }
    {
        LinkTable {
            records: [Link::UNSET; PLACES],
        }
    }

    pub fn get(&self, station: u8) -> Link
        ensures { result ≡ link_at self.now.records station }
    {
        let link = self.records.get(place_of(station));
        link.copied().unwrap_or(Link::UNSET)
    }

    // Changes one record, in place. By index: once `get_mut` has lent an element, a proof knows only the table's length.
    #[tactic(auto, using(std::proofs::lemmas::List::set_past))]
    pub fn change(&mut self, station: u8, link: Link)
        ensures { self.new.records ≡ change_link self.old.records station link }
    {
        let place = place_of(station);
        if place < self.records.len() {
            self.records[place] = link;
        }
    }

    // Writes the stations whose link is set, each once, at the front of the buffer, and answers how many they are.
    // Refused with 20 under 32 places.
    pub fn survey(&self, buffer: &mut [u8]) -> Result<usize, Fault>
        ensures answer { result ≡ survey_answer self.now.records (length buffer.old) }
        ensures written { MatchResult result (λ count. Surveyed self.now.records buffer.old buffer.new count) (λ _. buffer.new ≡ buffer.old) }
    {
        if buffer.len() < PLACES {
            return Err(Fault::of(Cause::ShortBuffer));
        }
        // Counted by hand: a `filter` leaves goals over its runs, and the count is kept all the same.
        let mut count = 0;
        for station in 1..=STATIONS {
            if self.get(station).set {
                buffer[count] = station;
                count += 1;
            }
        }
        Ok(count)
    }
}
