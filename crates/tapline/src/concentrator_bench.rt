// A concentrator alone on the bench.
use crate::answer::write_frame;
use crate::bench::{Bench, ByFormat};
use crate::command::BenchCall;
use crate::concentrator_call::{AsConcentrator, call_concentrator};
use crate::failure::Failure;
use concentrator::Concentrator;
use fault::Fault;
use frame::Format;
use ft3::Ft3;
use ft12::Ft12;
use rules::records::{Arrival, ConcentratorPlan, Report, UserRequest};
use std::alloc::Global;

// A concentrator whose queues lie on the heap.
type HeapConcentrator<F> = Concentrator<Vec<Arrival>, Vec<Report>, F>;

pub type AnyConcentrator = ByFormat<HeapConcentrator<Ft12>, HeapConcentrator<Ft3>>;

impl<F: Format> Bench for HeapConcentrator<F> {
    type Plan = ConcentratorPlan;

    type Call = BenchCall;

    fn make(heap: Global, plan: ConcentratorPlan) -> Result<HeapConcentrator<F>, Failure<'static>> {
        concentrator::check(plan)?;
        let arrivals = vec![in heap; Arrival::BLANK; plan.arrivals]?;
        let reports = vec![in heap; Report::BLANK; plan.reports]?;
        Ok(Concentrator::over(plan.repetitions, arrivals, reports))
    }

    fn call(
        &mut self,
        call: BenchCall,
        buffer: &mut [u16],
        answer: &mut String,
    ) -> Result<(), Failure<'static>> {
        match call {
            BenchCall::Hear(burst) => {
                let outcome = self.hear(burst.as_slice())?;
                write!(answer, "{outcome}")?;
                Ok(())
            }
            BenchCall::Concentrator(call) => call_concentrator(self, call, buffer, answer),
        }
    }
}

impl<F: Format> AsConcentrator for HeapConcentrator<F> {
    fn ask(
        &mut self,
        station: u8,
        request: UserRequest<'_>,
        buffer: &mut [u16],
        answer: &mut String,
    ) -> Result<(), Failure<'static>> {
        let count = self.request(station, request, buffer)?;
        write_frame::<F>(answer, buffer, count)?;
        Ok(())
    }

    fn repeat(&mut self, buffer: &mut [u16], answer: &mut String) -> Result<(), Failure<'static>> {
        match self.time_out(buffer)? {
            // 0: it has ended, section 10 of docs/RULES.md
            0 => write!(answer, "doubtful")?,
            count => write_frame::<F>(answer, buffer, count)?,
        }
        Ok(())
    }

    // A concentrator and a site both have these calls, and no trait of the library names them.
    fn next_report(&mut self) -> Result<Report, Fault> {
        self.fetch_report()
    }

    fn next_arrival(&mut self) -> Result<Arrival, Fault> {
        self.fetch_arrival()
    }

    fn stations(&mut self, buffer: &mut [u8]) -> Result<usize, Fault> {
        self.survey(buffer)
    }
}
