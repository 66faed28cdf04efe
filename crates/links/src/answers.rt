// What an answer means to the open exchange, and what the end of an exchange makes of its link.
ghost use Rattle.fault.specs.declared.Fault.{Fault};
ghost use Rattle.frame.specs.Verdicts.{after};
ghost use Rattle.rules.specs.Concentrator.{fixed_ends, flags_of, from_station, link_after, single_ends, variable_ends, verdict};
ghost use Rattle.rules.specs.declared.records.Ending.{Ending};
ghost use Rattle.std.specs.Prelude.{◌≡◌, Result};

use fault::{Cause, Fault};
use frame::Control;
use rules::link::Link;
use rules::message::Message;
use rules::records::{Ending, Exchange, Flags, Reply, Request};
use rules::telegram::Telegram;

// Single stands for ACK and for no data.
fn single_ends(request: Request) -> Result<Ending, Fault>
    ensures { result ≡ single_ends request }
{
    match request {
        Request::Reset => Ok(Ending::Done),
        Request::Send(_) => Ok(Ending::Confirmed),
        Request::Poll(_) => Ok(Ending::Empty),
        Request::Status => Err(Fault::of(Cause::WrongControl)),
    }
}

fn fixed_ends(reply: Option<Reply>, request: Request) -> Result<Ending, Fault>
    ensures { result ≡ fixed_ends reply request }
{
    match (request, reply) {
        (Request::Reset, Some(Reply::Ack)) | (Request::Status, Some(Reply::Status)) => {
            Ok(Ending::Done)
        }
        (Request::Send(_), Some(Reply::Ack)) => Ok(Ending::Confirmed),
        (Request::Reset | Request::Send(_), Some(Reply::Busy)) => Ok(Ending::Busy),
        (Request::Poll(_), Some(Reply::NoData)) => Ok(Ending::Empty),
        (_, Some(Reply::NotFunctioning | Reply::NotImplemented)) => Ok(Ending::Unserved),
        _ => Err(Fault::of(Cause::WrongControl)),
    }
}

fn variable_ends(reply: Option<Reply>, request: Request, message: Message) -> Result<Ending, Fault>
    ensures { result ≡ variable_ends reply request message }
{
    match (request, reply) {
        (Request::Poll(_), Some(Reply::Data)) => Ok(Ending::Brought(message)),
        _ => Err(Fault::of(Cause::WrongControl)),
    }
}

// 8 if a primary station sent it, then 9 if it comes from another station, then 10 if bit 7 is 1. A reader asks for the
// other PRM bit; one check for both ends would take that as a flag.
fn check_sender(control: Control, address: u8, station: u8) -> Result<(), Fault>
    ensures { (v : Result Ending Fault) → from_station control address station v ≡ after result v }
{
    if control.prm() {
        return Err(Fault::of(Cause::WrongSender));
    }
    if address != station {
        return Err(Fault::of(Cause::OtherAddress));
    }
    if control.reserved() {
        return Err(Fault::of(Cause::WrongControl));
    }
    Ok(())
}

// How an answer ends the exchange, or why it is none to it.
#[tactic(auto, unfolding(rules::specs::Concentrator::verdict))]
pub fn verdict(exchange: &Exchange, telegram: &Telegram) -> Result<Ending, Fault>
    ensures { result ≡ verdict exchange.now telegram.now }
{
    match *telegram {
        Telegram::Single => single_ends(exchange.request),
        Telegram::Fixed { control, address } => {
            check_sender(control, address, exchange.station)?;
            fixed_ends(Reply::try_from(control.code()).ok(), exchange.request)
        }
        Telegram::Variable {
            control,
            address,
            message,
        } => {
            check_sender(control, address, exchange.station)?;
            variable_ends(
                Reply::try_from(control.code()).ok(),
                exchange.request,
                message,
            )
        }
    }
}

// ACD and DFC as heard.
pub fn flags(telegram: &Telegram) -> Flags
    ensures { result ≡ flags_of telegram.now }
{
    match *telegram {
        Telegram::Single => Flags::default(),
        Telegram::Fixed { control, .. } | Telegram::Variable { control, .. } => Flags {
            acd: control.acd(),
            dfc: control.dfc(),
        },
    }
}

// The link after an exchange: every answer to a send or a poll flips its bit; doubt and not served unset it.
#[tactic(auto, unfolding(rules::specs::Concentrator::link_after))]
pub fn link_after(request: Request, ending: Ending, link: Link) -> Link
    ensures { result ≡ link_after request ending link }
{
    match (ending, request) {
        (Ending::Done, Request::Reset) => Link::reset(),
        (Ending::Busy, Request::Reset) => link.unset(),
        (Ending::Busy, Request::Send(_)) => link.flipped(),
        (Ending::Done | Ending::Busy, _) => link,
        (Ending::Confirmed | Ending::Brought(_) | Ending::Empty, _) => link.flipped(),
        (Ending::Unserved | Ending::Doubted, _) => link.unset(),
    }
}
