// What the calls of either end write into the books.
ghost use Rattle.books.specs.Calls.{asked_seen, brought_seen, class_seen, closed_seen, ended_seen, handed_seen, marked_seen, noted_seen};
ghost use Rattle.books.specs.Ready.{Ready};
ghost use Rattle.books.specs.Seen.{seen};
ghost use Rattle.std.specs.Prelude.{◌≡◌, true, is_ok, if◌then◌else◌};

use crate::Books;
use rules::records::{Class, Mark, Outcome, Request};
use std::alloc::AllocError;

impl Books {
    // A request to the reader was accepted.
    pub fn asked(&mut self, request: Request) -> Result<(), AllocError>
        ensures noted { seen self.new ≡ (if is_ok result then asked_seen request (seen self.old) else seen self.old) }
        ensures sure { Ready self.old → is_ok result ≡ true }
    {
        match request {
            Request::Send(_) => self.send(),
            Request::Reset | Request::Status | Request::Poll(_) => Ok(()),
        }
    }

    // The exchange of a request to the reader has ended, by a burst of this number.
    pub fn ended(
        &mut self,
        number: usize,
        request: Request,
        outcome: Outcome,
    ) -> Result<(), AllocError>
        ensures noted { seen self.new ≡ (if is_ok result then ended_seen number request outcome (seen self.old) else seen self.old) }
        ensures sure { Ready self.old → is_ok result ≡ true }
    {
        self.brought(number, outcome)?;
        self.closed(request, outcome);
        Ok(())
    }

    // A data answer brought the offer of this number.
    fn brought(&mut self, number: usize, outcome: Outcome) -> Result<(), AllocError>
        ensures noted { seen self.new ≡ (if is_ok result then brought_seen number outcome (seen self.old) else seen self.old) }
        ensures sure { Ready self.old → is_ok result ≡ true }
    {
        match outcome {
            Outcome::Data => self.arrive(number),
            Outcome::Done
            | Outcome::Confirmed
            | Outcome::Busy
            | Outcome::NoData
            | Outcome::NotServed
            | Outcome::Doubtful => Ok(()),
        }
    }

    // A send has its outcome.
    fn closed(&mut self, request: Request, outcome: Outcome)
        ensures { seen self.new ≡ closed_seen request outcome (seen self.old) }
    {
        match request {
            Request::Send(_) => self.end_send(outcome),
            Request::Reset | Request::Status | Request::Poll(_) => {}
        }
    }

    // The reader accepted an offer of this class, if there is such a class.
    pub fn offered(&mut self, class: Option<Class>) -> Result<(), AllocError>
        ensures noted { seen self.new ≡ (if is_ok result then class_seen class (seen self.old) else seen self.old) }
        ensures sure { Ready self.old → is_ok result ≡ true }
    {
        match class {
            Some(class) => self.offer(class),
            None => Ok(()),
        }
    }

    // The reader marked the message that was out, if one was.
    pub fn marked(&mut self, mark: Option<Mark>)
        ensures { seen self.new ≡ marked_seen mark (seen self.old) }
    {
        if let Some(mark) = mark {
            self.mark(mark);
        }
    }

    // The reader heard a burst of this number: whether it took a message in, the mark of the message that was out, and
    // the class of what it handed out.
    pub fn heard(
        &mut self,
        number: usize,
        taken: bool,
        mark: Option<Mark>,
        class: Option<Class>,
    ) -> Result<(), AllocError>
        ensures noted { seen self.new ≡ (if is_ok result then noted_seen number taken mark class (seen self.old) else seen self.old) }
        ensures sure { Ready self.old → is_ok result ≡ true }
    {
        if taken {
            self.enter(number)?;
        }
        self.marked(mark);
        self.handed(class);
        Ok(())
    }

    fn handed(&mut self, class: Option<Class>)
        ensures { seen self.new ≡ handed_seen class (seen self.old) }
    {
        if let Some(class) = class {
            self.hand_out(class);
        }
    }
}
