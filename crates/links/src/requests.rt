// What a request needs and what it sends.
ghost use Rattle.rules.specs.Concentrator.{link_asked, ready, transmission};
ghost use Rattle.std.specs.Prelude.{◌≡◌};

use frame::Control;
use rules::link::Link;
use rules::records::{Exchange, Function, Request};
use rules::telegram::Telegram;

// A send and a poll need the link set.
pub fn is_ready(request: &Request, link: Link) -> bool
    ensures { result ≡ ready request.now link }
{
    match *request {
        Request::Reset | Request::Status => true,
        Request::Send(_) | Request::Poll(_) => link.set,
    }
}

// A reset makes the link unset there and then.
pub fn link_asked(request: &Request, link: Link) -> Link
    ensures { result ≡ link_asked request.now link }
{
    match *request {
        Request::Reset => link.unset(),
        Request::Status | Request::Send(_) | Request::Poll(_) => link,
    }
}

// The frame of an exchange, the same each time that it is sent. A send and a poll have the frame count bit.
// Inlined, so that a telegram without octets is not copied with the room for them.
#[inline(always)]
pub fn transmission(exchange: &Exchange) -> Telegram
    ensures { result ≡ transmission exchange.now }
{
    let address = exchange.station;
    let counted = matches!(exchange.request, Request::Send(_) | Request::Poll(_));
    let function = Function::from(exchange.request);
    let control = Control::primary(counted && exchange.bit, counted, function.into());
    match exchange.request {
        Request::Send(message) => Telegram::Variable {
            control,
            address,
            message,
        },
        Request::Reset | Request::Status | Request::Poll(_) => Telegram::Fixed { control, address },
    }
}
