// The link between the concentrator and one reader, as either of them holds it.
ghost use Rattle.rules.specs.Links.{flipped, reset_link, unset};
ghost use Rattle.std.specs.Prelude.{◌≡◌};

// Set by a reset that was done, and the frame count bit that comes next: at the concentrator the one that it sends,
// at the reader the one that it expects. Not an Option: an unset link keeps its bit.
#[derive(Clone, Copy, PartialEq, Eq, Debug)]
pub struct Link {
    pub set: bool,
    pub next: bool,
}

impl Link {
    // As every link begins. A constant, since it fills arrays of slots.
    pub const UNSET: Link = Link {
        set: false,
        next: false,
    };

    // After a reset.
    pub fn reset() -> Link
        ensures { result ≡ reset_link }
    {
        Link {
            set: true,
            next: true,
        }
    }

    pub fn flipped(self) -> Link
        ensures { result ≡ flipped self }
    {
        Link {
            next: !self.next,
            ..self
        }
    }

    // Unset, with its bit unaltered.
    pub fn unset(self) -> Link
        ensures { result ≡ unset self }
    {
        Link { set: false, ..self }
    }
}
