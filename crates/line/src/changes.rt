// What is done to a line.
ghost use Rattle.std.specs.Prelude.{◌≡◌, ◌+◌, true, false, length, IfNone, if◌then◌else◌, Ok, Err, MatchResult, OnErr, OnOk, OnSome};
ghost use Rattle.line.specs.Lines.{room, view};
ghost use Rattle.line.specs.Ways.{Silent, Spread, Taken, arrived, as_sent, join_answer, joined, launched, new_line, on_way, quieted};

use crate::burst::Burst;
use crate::{Line, MOST_ENDS};
use std::alloc::{AllocError, Global};

impl Line {
    // A line with the concentrator alone, and no burst.
    pub fn new(heap: Global) -> Line
        ensures made { view result ≡ new_line }
        ensures silent { Silent (view result) }
    {
        Line {
            bursts: Vec::new(heap),
            ends: 1,
            quiet: 0,
            pending: 0,
        }
    }

    // One end more, and its number; none after the first burst, and none past the most.
    pub fn join(&mut self) -> Option<usize>
        ensures answer { result ≡ join_answer (view self.old) }
        ensures after { view self.new ≡ joined (view self.old) }
        ensures silent { OnSome result (Silent (view self.new)) }
        ensures refused { IfNone result (self.new ≡ self.old) }
    {
        if self.bursts.len() > 0 || self.ends >= MOST_ENDS {
            return None;
        }
        let end = self.ends;
        self.ends += 1;
        Some(end)
    }

    // Room for one burst more, so that the next `launch` is not refused. No value stands for that room, since it would
    // keep the line borrowed.
    pub fn reserve(&mut self) -> Result<(), AllocError>
        ensures room { MatchResult result (λ _. room self.new ≡ true) (λ _. room self.old ≡ false) }
        ensures same { view self.new ≡ view self.old }
    {
        self.bursts.reserve(1)
    }

    // A burst to every end on the line, and its k. Without room for it, its symbols come back.
    pub fn launch(&mut self, symbols: Vec<u16>, number: usize) -> Result<usize, Vec<u16>>
        ensures answer { result ≡ (if room self.old then Ok (length (view self.old).bursts + 1) else Err symbols) }
        ensures after { view self.new ≡ (if room self.old then launched (as_sent symbols.items number) (view self.old) else view self.old) }
        ensures ways { OnOk result (Spread (as_sent symbols.items number) (view self.old) (view self.new)) }
        ensures refused { OnErr result (self.new ≡ self.old) }
    {
        if self.bursts.len() >= self.bursts.capacity() {
            return Err(symbols);
        }
        let ways = [true; MOST_ENDS];
        self.bursts.push_reserved(Burst {
            symbols,
            number,
            ways,
        });
        self.pending += self.ends as u128;
        Ok(self.bursts.len())
    }

    // Burst k is not on the way to that end any more, heard or lost; answers false, as a set's `remove` does, and does
    // nothing if it was not.
    pub fn arrive(&mut self, end: usize, k: usize) -> bool
        ensures answer { result ≡ on_way end k (view self.old) }
        ensures after { view self.new ≡ arrived end k (view self.old) }
        ensures taken { result ≡ true → Taken end k (view self.old) (view self.new) }
        ensures refused { result ≡ false → self.new ≡ self.old }
        ensures room { room self.new ≡ room self.old }
    {
        if !self.is_on_way(end, k) {
            return false;
        }
        let at = k - 1;
        self.bursts[at].ways[end] = false;
        self.pending -= 1;
        true
    }

    // Everything on the way is lost.
    pub fn quiet(&mut self)
        ensures after { view self.new ≡ quieted (view self.old) }
        ensures silent { Silent (view self.new) }
        ensures room { room self.new ≡ room self.old }
    {
        self.quiet = self.bursts.len();
        self.pending = 0;
    }
}
