// The commands on frames alone.
use crate::answer::{Contents, write_frame};
use crate::bench::{Bench, ByFormat};
use crate::command::FrameCall;
use crate::failure::Failure;
use frame::{Format, MOST_OCTETS, fill_record};
use ft3::Ft3;
use ft12::Ft12;
use std::alloc::Global;
use std::marker::PhantomData;

// Frames of a format, which need nothing on the bench.
#[derive(Clone, Copy)]
pub struct Frames<F> {
    format: PhantomData<F>,
}

pub type AnyFrames = ByFormat<Frames<Ft12>, Frames<Ft3>>;

impl<F: Format> Bench for Frames<F> {
    type Plan = ();

    type Call = FrameCall;

    fn make(_heap: Global, _plan: ()) -> Result<Frames<F>, Failure<'static>> {
        Ok(Frames {
            format: PhantomData,
        })
    }

    fn call(
        &mut self,
        call: FrameCall,
        buffer: &mut [u16],
        answer: &mut String,
    ) -> Result<(), Failure<'static>> {
        let mut user = [0; MOST_OCTETS];
        match call {
            FrameCall::Write { content, octets } => {
                fill_record(&mut user, octets.as_slice());
                let count = F::write(content, &user, buffer)?;
                write_frame::<F>(answer, buffer, count)?;
            }
            FrameCall::Read(burst) => {
                let content = F::read(burst.as_slice(), &mut user)?;
                let contents = Contents {
                    content,
                    user: &user,
                };
                write!(answer, "{contents}")?;
            }
        }
        Ok(())
    }
}
