// The memory of a line: every burst that was written to it, and to which ends each is still on the way.
#![tactic(auto)]

mod burst;
mod changes;
mod reads;

ghost use Rattle.std.specs.Prelude.{◌≡◌, ◌≤◌, drop, vec_len};
ghost use Rattle.line.specs.Bursts.{flights};
ghost use Rattle.line.specs.Ways.{pairs};

use burst::Burst;

// The most ends of a line: the concentrator, which is end 0, and 32 readers.
pub const MOST_ENDS: usize = 33;

// No call looks at more than one burst, however many there were: how many bursts were written before the line was last
// quieted, and how many pairs of a burst and an end there are on the way, tell what is silent.
#[derive(Drop)]
pub struct Line {
    bursts: Vec<Burst>,
    ends: usize,
    quiet: usize,
    // A pair for each burst and end would not fit 64 bits.
    pending: u128,
    ghost most: { ends ≤ 33 },
    ghost past: { quiet ≤ vec_len bursts },
    ghost counted: { pending ≡ pairs (drop quiet (flights ends bursts.items)) },
}

#[cfg(test)]
mod tests {
    use super::*;
    use std::test::Fail;

    // A burst is on the way to both ends until one has heard it and the line has lost it at the other.
    #[test]
    fn goes_to_every_end(rt: HostRuntime) -> Result<(), Fail> {
        let mut line = Line::new(rt.alloc());
        assert!(rt; line.join() == Some(1));
        line.reserve()?;
        assert!(rt; line.launch(Vec::new(rt.alloc()), 7).is_ok());
        assert!(rt; line.arrive(1, 1) && line.is_on_way(0, 1) && !line.is_on_way(1, 1));
        line.quiet();
        assert!(rt; line.is_silent() && !line.is_on_way(0, 1));
        Ok(())
    }
}
