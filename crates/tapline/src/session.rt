// A run of the console: what earlier commands have set, and how each command is carried out.
use crate::bench::FormatName;
use crate::command::Command;
use crate::concentrator_bench::AnyConcentrator;
use crate::failure::Failure;
use crate::frames::AnyFrames;
use crate::mistake::Mistake;
use crate::reader_bench::AnyReader;
use crate::site_bench::AnySite;
use std::alloc::{AllocError, Global};

// More than any answer but an account has. It is kept free, so that no answer lacks memory once its call is made.
const ROOM: usize = 2048;

#[derive(Drop)]
pub struct Session {
    heap: Global,
    format: FormatName,
    // lent to every call that writes
    buffer: Vec<u16>,
    // the answer to the last line
    text: String,
    reader: Option<AnyReader>,
    concentrator: Option<AnyConcentrator>,
    site: Option<AnySite>,
}

impl Session {
    pub fn new(heap: Global) -> Result<Session, AllocError> {
        Ok(Session {
            heap,
            format: FormatName::Ft12,
            buffer: vec![in heap; 0; FormatName::Ft12.longest()]?,
            text: String::with_capacity(heap, ROOM)?,
            reader: None,
            concentrator: None,
            site: None,
        })
    }

    // The answer to the last line: a whole line, or nothing.
    pub fn text(&self) -> &str {
        self.text.as_str()
    }

    // Carries out a line, and answers it; an error if it is no command.
    pub fn answer<'a>(&mut self, line_number: u64, line: &'a [u8]) -> Result<(), Mistake<'a>> {
        self.text.clear();
        self.carry_out(line)
            .or_else(|failure| self.fail(line_number, failure))
    }

    // Answers the line of this number, which has no result; an error if it is no command.
    pub fn fail<'a>(&mut self, line_number: u64, failure: Failure<'a>) -> Result<(), Mistake<'a>> {
        self.text.clear();
        // There is room for it.
        let _ = match failure {
            // Not by the fault's own Display, which has more words than docs/CONSOLE.md wants.
            Failure::Refused(fault) => {
                let number = fault.number();
                let layer = fault.layer();
                let place = fault.place;
                writeln!(self.text, "refused {number} {layer} {place}")
            }
            Failure::NotAllowed(trouble) => writeln!(self.text, "not allowed: {trouble}"),
            Failure::Mistake(mistake) => writeln!(self.text, "error {line_number}: {mistake}"),
        };
        match failure {
            Failure::Mistake(mistake) => Err(mistake),
            _ => Ok(()),
        }
    }

    fn carry_out<'a>(&mut self, line: &'a [u8]) -> Result<(), Failure<'a>> {
        let Some(command) = Command::parse(self.heap, line)? else {
            return Ok(());
        };
        self.call(command)?;
        writeln!(self.text)?;
        Ok(())
    }

    // What stands on a bench stays until what replaces it is made.
    fn call(&mut self, command: Command) -> Result<(), Failure<'static>> {
        let buffer = self.buffer.as_mut_slice();
        let text = &mut self.text;
        match command {
            Command::Format(format) => self.set_format(format)?,
            Command::Buffer(length) => self.set_buffer(length)?,
            Command::Frame(call) => {
                AnyFrames::make(self.heap, self.format, ())?.call(call, buffer, text)?;
            }
            Command::BenchReader(plan) => {
                self.reader = Some(AnyReader::make(self.heap, self.format, plan)?);
                write!(text, "bench reader {}", plan.address)?;
            }
            Command::Reader(call) => {
                let bench = self.reader.as_mut().ok_or(Mistake::NoBench("reader"))?;
                bench.call(call, buffer, text)?;
            }
            Command::BenchConcentrator(plan) => {
                self.concentrator = Some(AnyConcentrator::make(self.heap, self.format, plan)?);
                write!(text, "bench concentrator")?;
            }
            Command::Concentrator(call) => {
                let absent = Mistake::NoBench("concentrator");
                let bench = self.concentrator.as_mut().ok_or(absent)?;
                bench.call(call, buffer, text)?;
            }
            Command::Site(plan) => {
                self.site = Some(AnySite::make(self.heap, self.format, plan)?);
                write!(text, "site")?;
            }
            Command::OnSite(call) => {
                let site = self.site.as_mut().ok_or(Mistake::NoSite)?;
                site.call(call, buffer, text)?;
            }
        }
        Ok(())
    }

    fn set_format(&mut self, format: FormatName) -> Result<(), AllocError> {
        self.buffer = vec![in self.heap; 0; format.longest()]?;
        self.format = format;
        write!(self.text, "format {format}")
    }

    fn set_buffer(&mut self, length: usize) -> Result<(), AllocError> {
        self.buffer = vec![in self.heap; 0; length]?;
        write!(self.text, "buffer {length}")
    }
}
