// How the records of the link are shown: "report 5 send confirmed acd 0 dfc 0 sent 1".
use crate::message::Message;
use crate::records::{Arrival, Mark, Outcome, Report, Service, UnknownCode};
use std::error::Error;
use std::fmt;

impl fmt::Display for UnknownCode {
    fn fmt<W: fmt::Write>(&self, f: &mut fmt::Formatter<W>) -> fmt::Result {
        let code = self.0;
        write!(f, "{code} stands for nothing")
    }
}

impl Error for UnknownCode {}

impl fmt::Display for Mark {
    fn fmt<W: fmt::Write>(&self, f: &mut fmt::Formatter<W>) -> fmt::Result {
        f.write_str(match self {
            Mark::Settled => "settled",
            Mark::Doubtful => "doubtful",
        })
    }
}

impl fmt::Display for Service {
    fn fmt<W: fmt::Write>(&self, f: &mut fmt::Formatter<W>) -> fmt::Result {
        f.write_str(match self {
            Service::Reset => "reset",
            Service::Status => "status",
            Service::Send => "send",
            Service::Poll => "poll",
        })
    }
}

impl fmt::Display for Outcome {
    fn fmt<W: fmt::Write>(&self, f: &mut fmt::Formatter<W>) -> fmt::Result {
        f.write_str(match self {
            Outcome::Done => "done",
            Outcome::Confirmed => "confirmed",
            Outcome::Busy => "busy",
            Outcome::Data => "data",
            Outcome::NoData => "none",
            Outcome::NotServed => "not served",
            Outcome::Doubtful => "doubtful",
        })
    }
}

// Its octets, with a blank between two.
impl fmt::Display for Message {
    fn fmt<W: fmt::Write>(&self, f: &mut fmt::Formatter<W>) -> fmt::Result {
        // The first octet has no blank before it.
        for (place, octet) in self.octets().iter().enumerate() {
            if place > 0 {
                f.write_str(" ")?;
            }
            write!(f, "{octet:02X}")?;
        }
        Ok(())
    }
}

impl fmt::Display for Arrival {
    fn fmt<W: fmt::Write>(&self, f: &mut fmt::Formatter<W>) -> fmt::Result {
        let station = self.station;
        let message = self.message;
        write!(f, "arrival {station}: {message}")
    }
}

impl fmt::Display for Report {
    fn fmt<W: fmt::Write>(&self, f: &mut fmt::Formatter<W>) -> fmt::Result {
        let station = self.station;
        let service = self.service;
        let outcome = self.outcome;
        let acd = u8::from(self.flags.acd);
        let dfc = u8::from(self.flags.dfc);
        let sent = self.transmissions;
        write!(
            f,
            "report {station} {service} {outcome} acd {acd} dfc {dfc} sent {sent}"
        )
    }
}

#[cfg(test)]
mod tests {
    use crate::message::Message;
    use crate::records::{Arrival, Class, Flags, Outcome, Report, Service};
    use std::test::Fail;

    #[test]
    fn shown_as_reported(rt: HostRuntime) -> Result<(), Fail> {
        let alloc = rt.alloc();
        let report = Report {
            station: 5,
            service: Service::Send,
            outcome: Outcome::NotServed,
            flags: Flags {
                acd: true,
                dfc: false,
            },
            transmissions: 2,
        };
        let shown = format!(in alloc; "{report}")?;
        assert_eq!(rt;
            shown.as_str(),
            "report 5 send not served acd 1 dfc 0 sent 2"
        );
        let Ok(message) = Message::new(&[0x41, 0x0A]) else {
            return Ok(());
        };
        let arrival = Arrival {
            station: 32,
            message,
        };
        let shown = format!(in alloc; "{arrival}")?;
        assert_eq!(rt; shown.as_str(), "arrival 32: 41 0A");
        if let Err(unknown) = Class::try_from(3) {
            let shown = format!(in alloc; "{unknown}")?;
            assert_eq!(rt; shown.as_str(), "3 stands for nothing");
        }
        Ok(())
    }
}
