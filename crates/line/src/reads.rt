// What is asked of a line.
ghost use Rattle.std.specs.Prelude.{◌≡◌, ℕ, ◌≤◌, [], length, Decides};
ghost use Rattle.line.specs.Bursts.{flight};
ghost use Rattle.line.specs.Lines.{view};
ghost use Rattle.line.specs.Ways.{Silent, burst_at, on_way, sent_at, way};
ghost use Rattle.std.specs.Option.{option_map};

use crate::Line;
use crate::burst::Burst;

impl Line {
    // How many bursts there were.
    pub fn count(&self) -> usize
        ensures { result ≡ length (view self.now).bursts }
    {
        self.bursts.len()
    }

    // How many ends are on the line; nothing is ever on the way to any other.
    pub fn ends(&self) -> usize
        ensures value { result ≡ (view self.now).ends }
        ensures apart { (e : ℕ) → (view self.now).ends ≤ e → way e (view self.now) ≡ [] }
    {
        self.ends
    }

    fn find(&self, k: usize) -> Option<&Burst>
        ensures { option_map (λ b. flight self.now.ends b.now) result ≡ burst_at k (view self.now) }
    {
        self.bursts.get(k.checked_sub(1)?)
    }

    // The symbols of burst k, as sent.
    pub fn symbols(&self, k: usize) -> Option<&[u16]>
        ensures { option_map (λ x. x.now) result ≡ option_map (λ s. s.symbols) (sent_at k (view self.now)) }
    {
        Some(self.find(k)?.symbols.as_slice())
    }

    // The number that burst k was launched with.
    pub fn number(&self, k: usize) -> Option<usize>
        ensures { result ≡ option_map (λ s. s.number) (sent_at k (view self.now)) }
    {
        Some(self.find(k)?.number)
    }

    // Whether burst k is on the way to an end. A burst or an end that is not there is none such.
    pub fn is_on_way(&self, end: usize, k: usize) -> bool
        ensures { result ≡ on_way end k (view self.now) }
    {
        if end >= self.ends || k <= self.quiet {
            return false;
        }
        self.find(k).is_some_and(|burst| burst.ways[end])
    }

    // Whether nothing is on the way to any end.
    pub fn is_silent(&self) -> bool
        ensures { Decides result (Silent (view self.now)) }
    {
        self.pending == 0
    }
}
