// What a site shows of itself, and that its account holds.
ghost use Rattle.account.specs.Account.{TwoEndsOver};
ghost use Rattle.account.specs.Line.{World};
ghost use Rattle.line.specs.Ways.{sent_at};
ghost use Rattle.readers.specs.Readers.{at, kept};
ghost use Rattle.rules.specs.Links.{link_at};
ghost use Rattle.site.specs.Shown.{Accounted, Stands};
ghost use Rattle.site.specs.Sites.{seen};
ghost use Rattle.std.specs.Option.{option_map};
ghost use Rattle.std.specs.Prelude.{◌≡◌};

use crate::Site;
use account::two_ends_hold;
use frame::Format;
use rules::link::Link;
use station::Station;

impl<F: Format> Site<F> {
    // The reader at an address, with its books: what the account of it is printed from. At whatever point of a lawful
    // run the site stands, these are the books of that reader there, and its account holds.
    pub fn reader(&self, address: u8) -> Option<&Station<F>>
        ensures answer { option_map (λ x. kept x.now) result ≡ at address (seen self.now).readers }
        ensures theorem { TwoEndsOver F.Format }
        ensures account { (w : World) → Stands F.Format (seen self.now) w → Accounted address (at address (seen self.now).readers) w }
    {
        two_ends_hold::<F>();
        self.readers.get(address)
    }

    // The concentrator's link to a station.
    pub fn link(&self, station: u8) -> Link
        ensures { result ≡ link_at (seen self.now).concentrator.links station }
    {
        self.concentrator.link(station)
    }

    // The symbols of burst k, as sent.
    pub fn symbols(&self, k: usize) -> Option<&[u16]>
        ensures { option_map (λ x. x.now) result ≡ option_map (λ s. s.symbols) (sent_at k (seen self.now).line) }
    {
        self.line.symbols(k)
    }
}
