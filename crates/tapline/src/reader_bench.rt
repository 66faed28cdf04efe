// A reader alone on the bench.
use crate::answer::{Effects, write_frame};
use crate::bench::{Bench, ByFormat};
use crate::command::ReaderCall;
use crate::failure::Failure;
use frame::Format;
use ft3::Ft3;
use ft12::Ft12;
use reader::Reader;
use rules::message::Message;
use rules::records::ReaderPlan;
use std::alloc::Global;

// A reader whose messages lie on the heap.
type HeapReader<F> = Reader<Vec<Message>, F>;

pub type AnyReader = ByFormat<HeapReader<Ft12>, HeapReader<Ft3>>;

impl<F: Format> Bench for HeapReader<F> {
    type Plan = ReaderPlan;

    type Call = ReaderCall;

    fn make(heap: Global, plan: ReaderPlan) -> Result<HeapReader<F>, Failure<'static>> {
        reader::check(plan)?;
        let class1 = vec![in heap; Message::BLANK; plan.class1]?;
        let class2 = vec![in heap; Message::BLANK; plan.class2]?;
        let inbox = vec![in heap; Message::BLANK; plan.inbox]?;
        Ok(Reader::over(plan.address, class1, class2, inbox))
    }

    fn call(
        &mut self,
        call: ReaderCall,
        buffer: &mut [u16],
        answer: &mut String,
    ) -> Result<(), Failure<'static>> {
        let mut marked = Message::BLANK;
        match call {
            ReaderCall::Hear(burst) => {
                let heard = self.hear(burst.as_slice(), &mut marked, buffer)?;
                let effects = Effects::new(heard.taken, heard.mark, marked);
                write_frame::<F>(answer, buffer, heard.count)?;
                write!(answer, "{effects}")?;
            }
            ReaderCall::Offer { class, octets } => {
                self.offer(class, octets.as_slice())?;
                write!(answer, "offered")?;
            }
            ReaderCall::Collect => {
                let message = self.collect()?;
                write!(answer, "message: {message}")?;
            }
            ReaderCall::Restart => {
                let mark = self.restart(&mut marked);
                let effects = Effects::new(false, mark, marked);
                write!(answer, "restarted{effects}")?;
            }
        }
        Ok(())
    }
}
