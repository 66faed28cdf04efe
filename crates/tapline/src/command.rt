// The commands of the console, and how a line is read as one.
use crate::arguments::Arguments;
use crate::bench::FormatName;
use crate::mistake::Mistake;
use crate::site_command::{SiteCall, parse_site_call};
use console::Words;
use frame::{Content, MOST_OCTETS};
use links::STATIONS;
use rules::records::{ConcentratorPlan, ReaderPlan, UserRequest};
use std::alloc::Global;
use std::str::from_utf8;

// What a line asks for.
#[derive(Drop)]
pub enum Command {
    Format(FormatName),
    Buffer(usize),
    Frame(FrameCall),
    BenchReader(ReaderPlan),
    Reader(ReaderCall),
    BenchConcentrator(ConcentratorPlan),
    Concentrator(BenchCall),
    // a new site, and what is asked of it
    Site(ConcentratorPlan),
    OnSite(SiteCall),
}

// What is asked of a format.
#[derive(Drop)]
pub enum FrameCall {
    Write { content: Content, octets: Vec<u8> },
    Read(Vec<u16>),
}

// What is asked of a reader.
#[derive(Drop)]
pub enum ReaderCall {
    Hear(Vec<u16>),
    Offer { class: u8, octets: Vec<u8> },
    Collect,
    Restart,
}

// What is asked of a concentrator on the bench.
#[derive(Drop)]
pub enum BenchCall {
    Hear(Vec<u16>),
    Concentrator(ConcentratorCall),
}

// What is asked of a concentrator, on the bench or on a site.
#[derive(Drop)]
pub enum ConcentratorCall {
    Request { station: u8, wish: Wish },
    TimeOut,
    FetchReport,
    FetchArrival,
    // with so many places for addresses
    Survey(usize),
}

// What a user requests of a station, with the octets that it sends.
#[derive(Drop)]
pub enum Wish {
    Reset,
    Status,
    Send(Vec<u8>),
    Poll(u8),
}

// The same, with its octets lent.
impl<'a> From<&'a Wish> for UserRequest<'a> {
    fn from(wish: &'a Wish) -> UserRequest<'a> {
        match wish {
            Wish::Reset => UserRequest::Reset,
            Wish::Status => UserRequest::Status,
            Wish::Send(octets) => UserRequest::Send(octets.as_slice()),
            Wish::Poll(class) => UserRequest::Poll(*class),
        }
    }
}

impl Command {
    // The command of a line; none if the line is empty but for blanks and a comment.
    pub fn parse<'a>(heap: Global, line: &'a [u8]) -> Result<Option<Command>, Mistake<'a>> {
        let mut words = Words::new(line);
        let Some(name) = words.next() else {
            return Ok(None);
        };
        let name = from_utf8(name).map_err(|_| Mistake::UnknownCommand)?;
        let arguments = Arguments::new(heap, name, words);
        let command = match name {
            "format" => parse_format(arguments)?,
            "buffer" => parse_buffer(arguments)?,
            "write" => parse_write(arguments)?,
            "read" => Command::Frame(FrameCall::Read(arguments.list()?)),
            "bench" => parse_bench(arguments)?,
            "r" => parse_reader_call(arguments)?,
            "c" => parse_bench_call(arguments)?,
            "site" => Command::Site(parse_concentrator_plan(arguments)?),
            "reader" => Command::OnSite(SiteCall::Join(parse_reader_plan(arguments)?)),
            // What is left is a site's, or unknown: its usage is not told by name.
            _ => {
                let arguments = Arguments::new(heap, "this command", words);
                Command::OnSite(parse_site_call(name, arguments)?)
            }
        };
        Ok(Some(command))
    }
}

fn parse_format<'a>(mut arguments: Arguments<'a>) -> Result<Command, Mistake<'a>> {
    let name = arguments.keyword()?;
    let format = name.parse().map_err(|_| arguments.usage())?;
    arguments.end()?;
    Ok(Command::Format(format))
}

fn parse_buffer<'a>(mut arguments: Arguments<'a>) -> Result<Command, Mistake<'a>> {
    let length = arguments.count()?;
    arguments.end()?;
    Ok(Command::Buffer(length))
}

fn parse_write<'a>(mut arguments: Arguments<'a>) -> Result<Command, Mistake<'a>> {
    let call = match arguments.keyword()? {
        "single" => write_bare(Content::Single, arguments)?,
        "fixed" => {
            let control = arguments.control()?;
            let address = arguments.octet()?;
            write_bare(Content::Fixed { control, address }, arguments)?
        }
        "variable" => {
            let control = arguments.control()?;
            let address = arguments.octet()?;
            let octets = arguments.list()?;
            let content = Content::Variable {
                control,
                address,
                count: content_count(octets.as_slice()),
            };
            FrameCall::Write { content, octets }
        }
        _ => return Err(arguments.usage()),
    };
    Ok(Command::Frame(call))
}

// A content without user octets.
fn write_bare<'a>(content: Content, arguments: Arguments<'a>) -> Result<FrameCall, Mistake<'a>> {
    let octets = arguments.empty_list()?;
    Ok(FrameCall::Write { content, octets })
}

// How many octets a content has; of more than 64, 65, which write refuses alike.
fn content_count(octets: &[u8]) -> u8 {
    octets.len().min(MOST_OCTETS + 1) as u8
}

fn parse_bench<'a>(mut arguments: Arguments<'a>) -> Result<Command, Mistake<'a>> {
    match arguments.keyword()? {
        "reader" => Ok(Command::BenchReader(parse_reader_plan(arguments)?)),
        "concentrator" => Ok(Command::BenchConcentrator(parse_concentrator_plan(arguments)?)),
        _ => Err(arguments.usage()),
    }
}

fn parse_reader_plan<'a>(mut arguments: Arguments<'a>) -> Result<ReaderPlan, Mistake<'a>> {
    let plan = ReaderPlan {
        address: arguments.capped()?,
        class1: arguments.count()?,
        class2: arguments.count()?,
        inbox: arguments.count()?,
    };
    arguments.end()?;
    Ok(plan)
}

fn parse_concentrator_plan<'a>(
    mut arguments: Arguments<'a>,
) -> Result<ConcentratorPlan, Mistake<'a>> {
    let plan = ConcentratorPlan {
        repetitions: arguments.capped()?,
        reports: arguments.count()?,
        arrivals: arguments.count()?,
    };
    arguments.end()?;
    Ok(plan)
}

fn parse_reader_call<'a>(mut arguments: Arguments<'a>) -> Result<Command, Mistake<'a>> {
    let call = match arguments.keyword()? {
        "hear" => ReaderCall::Hear(arguments.list()?),
        "offer" => {
            let class = arguments.capped()?;
            let octets = arguments.list()?;
            ReaderCall::Offer { class, octets }
        }
        "collect" => {
            arguments.end()?;
            ReaderCall::Collect
        }
        "restart" => {
            arguments.end()?;
            ReaderCall::Restart
        }
        _ => return Err(arguments.usage()),
    };
    Ok(Command::Reader(call))
}

fn parse_bench_call<'a>(mut arguments: Arguments<'a>) -> Result<Command, Mistake<'a>> {
    let call = match arguments.keyword()? {
        "hear" => BenchCall::Hear(arguments.list()?),
        name => {
            let call = parse_concentrator_call(name, arguments)?;
            BenchCall::Concentrator(call.ok_or(arguments.usage())?)
        }
    };
    Ok(Command::Concentrator(call))
}

// The call of this name; none if a concentrator has no such call.
pub fn parse_concentrator_call<'a>(
    name: &str,
    mut arguments: Arguments<'a>,
) -> Result<Option<ConcentratorCall>, Mistake<'a>> {
    let call = match name {
        "reset" => parse_request(arguments, Wish::Reset)?,
        "status" => parse_request(arguments, Wish::Status)?,
        "send" => {
            let station = arguments.capped()?;
            let wish = Wish::Send(arguments.list()?);
            ConcentratorCall::Request { station, wish }
        }
        "poll" => {
            let station = arguments.capped()?;
            let wish = Wish::Poll(arguments.capped()?);
            arguments.end()?;
            ConcentratorCall::Request { station, wish }
        }
        "timeout" => {
            arguments.end()?;
            ConcentratorCall::TimeOut
        }
        "fetch" => parse_fetch(arguments)?,
        "survey" => parse_survey(arguments)?,
        _ => return Ok(None),
    };
    Ok(Some(call))
}

fn parse_request<'a>(
    mut arguments: Arguments<'a>,
    wish: Wish,
) -> Result<ConcentratorCall, Mistake<'a>> {
    let station = arguments.capped()?;
    arguments.end()?;
    Ok(ConcentratorCall::Request { station, wish })
}

fn parse_fetch<'a>(mut arguments: Arguments<'a>) -> Result<ConcentratorCall, Mistake<'a>> {
    let call = match arguments.keyword()? {
        "report" => ConcentratorCall::FetchReport,
        "arrival" => ConcentratorCall::FetchArrival,
        _ => return Err(arguments.usage()),
    };
    arguments.end()?;
    Ok(call)
}

// A survey has room for every station, if its places are not given.
fn parse_survey<'a>(mut arguments: Arguments<'a>) -> Result<ConcentratorCall, Mistake<'a>> {
    if arguments.is_empty() {
        return Ok(ConcentratorCall::Survey(usize::from(STATIONS)));
    }
    let places = arguments.count()?;
    arguments.end()?;
    Ok(ConcentratorCall::Survey(places))
}
