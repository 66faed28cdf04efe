// Both ends over slots that are lent to them. A device's firmware does it like this: the slots are its own arrays, and
// nothing takes memory from a heap.
use concentrator::Concentrator;
use frame::Format;
use ft12::Ft12;
use reader::Reader;
use rules::message::Message;
use rules::records::{Arrival, Outcome, Report, UserRequest};

const STATION: u8 = 5;

// A reset sets the link at both ends, and marks nothing, as nothing is out.
#[test]
fn a_link_is_set(rt: HostRuntime) {
    let mut arrivals = [Arrival::BLANK; 2];
    let mut reports = [Report::BLANK; 2];
    let mut concentrator = Concentrator::<_, _, Ft12>::over(0, &mut arrivals[..], &mut reports[..]);
    let mut class1 = [Message::BLANK; 2];
    let mut class2 = [Message::BLANK; 2];
    let mut inbox = [Message::BLANK; 2];
    let mut reader = Reader::<_, Ft12>::over(
        STATION,
        &mut class1[..],
        &mut class2[..],
        &mut inbox[..],
    );
    let mut asked = [0; Ft12::LONGEST];
    let mut answered = [0; Ft12::LONGEST];
    let mut marked = Message::BLANK;

    let sent = concentrator.request(STATION, UserRequest::Reset, &mut asked);
    assert!(rt; matches!(sent, Ok(5)));
    let Ok(heard) = reader.hear(&asked[..5], &mut marked, &mut answered) else {
        return assert!(rt; false, "no answer");
    };
    assert!(rt; heard.mark.is_none());
    let answer = &answered[..heard.count.min(Ft12::LONGEST)];
    assert!(rt; matches!(concentrator.hear(answer), Ok(Outcome::Done)));
    assert!(rt; concentrator.link(STATION).set && reader.link().set);
}
