// The readers on a simulated line, each with its books, by their addresses.
#![tactic(auto)]

mod exchanges;

ghost use Rattle.readers.specs.Readers.{Added, at, kept, place_of, readers, station_at};
ghost use Rattle.std.specs.Borrow.{sem};
ghost use Rattle.std.specs.Prelude.{◌≡◌, ◌<◌, [], IfSome, slice_index_or, vec_len, MatchResult};
ghost use Rattle.std.specs.Option.{option_map};

use frame::Format;
use rules::records::ReaderPlan;
use station::Station;
use std::alloc::{AllocError, Global};

// In the order in which they joined.
#[derive(Drop)]
pub struct Readers<F> {
    all: Vec<Station<F>>,
}

impl<F: Format> Readers<F> {
    ghost use Rattle.readers.specs.Lending.{lends_place, lends_station};

    pub fn new(heap: Global) -> Readers<F>
        ensures { readers result ≡ [] }
    {
        Readers {
            all: Vec::new(heap),
        }
    }

    // One reader more, by its plan.
    pub fn join(&mut self, heap: Global, plan: ReaderPlan) -> Result<(), AllocError>
        ensures { MatchResult result (λ _. Added plan (readers self.old) (readers self.new)) (λ _. readers self.new ≡ readers self.old) }
    {
        self.all.reserve(1)?;
        let station = Station::new(heap, plan)?;
        self.all.push_reserved(station);
        Ok(())
    }

    // The place of the reader of this address, counted from 0.
    pub fn find(&self, address: u8) -> Option<usize>
        ensures place { result ≡ place_of address (readers self.now) }
        ensures inside { IfSome result (λ i. i < vec_len self.now.all) }
    {
        self.all
            .iter()
            .position(|station| station.address() == address)
    }

    // The reader of this address.
    pub fn get(&self, address: u8) -> Option<&Station<F>>
        ensures { option_map (λ x. kept x.now) result ≡ at address (readers self.now) }
    {
        Some(&self.all[self.find(address)?])
    }

    // The reader of this address, to call.
    pub fn get_mut(&mut self, address: u8) -> Option<&mut Station<F>>
        ensures* writes_back { sem 𝓛 (lends_station F.row self.entry address result) }
        ensures value { option_map (λ x. x.now) result ≡ station_at address self.old.all.items }
        ensures reader { option_map (λ x. kept x.now) result ≡ at address (readers self.old) }
    {
        let place = self.find(address)?;
        Some(self.station_mut(place))
    }

    fn station_mut(&mut self, place: usize) -> &mut Station<F>
        requires { place < vec_len self.old.all }
        ensures* writes_back { sem 𝓛 (lends_place F.row self.entry place result) }
        ensures value { result.now ≡ slice_index_or self.old.all.items place result.now }
    {
        &mut self.all[place]
    }
}
