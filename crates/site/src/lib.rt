// A site: a concentrator, its readers and the line between them, run by the real code of both ends. Whatever is done to
// it, it stands at some point of a lawful run of its own calls: each call that is made is one event more of that run.
#![tactic(auto)]

mod answering;
mod calls;
mod hearing;
mod reading;
mod sending;
mod trouble;

ghost use Rattle.account.specs.Line.{World, new_world};
ghost use Rattle.rules.specs.Concentrator.{concentrator_check};
ghost use Rattle.site.specs.Shown.{Stands, with_reader};
ghost use Rattle.site.specs.Sites.{is_open, join_answer, seen};
ghost use Rattle.site.specs.Troubles.{made_of, no_memory, told};
ghost use Rattle.site.specs.declared.trouble.Trouble.TheVariants as trouble;
ghost use Rattle.std.specs.Prelude.{◌≡◌, [], IfOk, if◌then◌else◌, Err, MatchResult};

use concentrator::{Concentrator, check};
use frame::Format;
use line::{Line, MOST_ENDS};
use queue::Slots;
use readers::Readers;
use rules::records::{Arrival, ConcentratorPlan, ReaderPlan, Report};
use std::alloc::Global;
pub use trouble::{Answer, TimedOut, Trouble};

// `started` once a call was made, refused or not; readers join before that.
#[derive(Drop)]
pub struct Site<F> {
    heap: Global,
    concentrator: Concentrator<Vec<Arrival>, Vec<Report>, F>,
    readers: Readers<F>,
    line: Line,
    started: bool,
}

impl<F: Format> Site<F> {
    // A concentrator by its plan, and no reader yet: 23, 24.
    pub fn begin(heap: Global, plan: ConcentratorPlan) -> Result<Site<F>, Trouble>
        ensures answer { made_of result ≡ (if no_memory result then Err trouble.OutOfMemory else told (concentrator_check plan.repetitions plan.arrivals plan.reports)) }
        ensures stands { IfOk result (λ s. Stands F.Format (seen s) (new_world plan.repetitions plan.arrivals plan.reports [])) }
    {
        check(plan)?;
        let arrivals = vec![in heap; Arrival::BLANK; plan.arrivals]?;
        let reports = vec![in heap; Report::BLANK; plan.reports]?;
        Ok(Site {
            heap,
            concentrator: Concentrator::over(plan.repetitions, arrivals, reports),
            readers: Readers::new(heap),
            line: Line::new(heap),
            started: false,
        })
    }

    // Whether a reader may join: before the first call, while there are under 32.
    fn is_open(&self) -> bool
        ensures { result ≡ is_open (seen self.now) }
    {
        !self.started && self.line.count() == 0 && self.line.ends() < MOST_ENDS
    }

    // One reader more, at an address of its own, by its plan: 14, 24.
    pub fn join(&mut self, plan: ReaderPlan) -> Result<(), Trouble>
        ensures answer { result ≡ (if no_memory result then Err trouble.OutOfMemory else join_answer plan (seen self.old)) }
        ensures stands { MatchResult result (λ _. (w : World) → Stands F.Format (seen self.old) w → Stands F.Format (seen self.new) (with_reader plan w)) (λ _. seen self.new ≡ seen self.old) }
    {
        if !self.is_open() {
            return Err(Trouble::Closed);
        }
        if self.readers.find(plan.address).is_some() {
            return Err(Trouble::Joined);
        }
        reader::check(plan)?;
        self.readers.join(self.heap, plan)?;
        // It is open, so an end is free.
        let _ = self.line.join();
        Ok(())
    }
}
