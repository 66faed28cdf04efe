// The account of a site: five lines for each reader, in the order of their addresses.
use frame::Format;
use links::STATIONS;
use rules::link::Link;
use site::Site;
use station::Station;
use std::alloc::AllocError;
use std::fmt;

// Writes the account as an answer, of which nothing is written yet.
pub fn write_account<F: Format>(site: &Site<F>, answer: &mut String) -> Result<(), AllocError> {
    for address in 1..=STATIONS {
        if let Some(station) = site.reader(address) {
            if !answer.is_empty() {
                writeln!(answer)?;
            }
            write_reader(address, station, site.link(address), answer)?;
        }
    }
    if answer.is_empty() {
        write!(answer, "no readers")?;
    }
    Ok(())
}

fn write_reader<F: Format>(
    address: u8,
    station: &Station<F>,
    link: Link,
    answer: &mut String,
) -> Result<(), AllocError> {
    let books = station.books();
    let sends = Numbered(books.sends());
    let inbox = Numbers(books.entered());
    let offers = Numbered(books.offers());
    let arrivals = Numbers(books.arrived());
    let concentrator = NextBit(link);
    let reader = NextBit(station.link());
    writeln!(answer, "{address} sends:{sends}")?;
    writeln!(answer, "{address} inbox:{inbox}")?;
    writeln!(answer, "{address} offers:{offers}")?;
    writeln!(answer, "{address} arrivals:{arrivals}")?;
    write!(
        answer,
        "{address} link: concentrator {concentrator}, reader {reader}"
    )
}

// States of messages, which are numbered from 1.
#[derive(Clone, Copy)]
struct Numbered<'a, T>(&'a [T]);

impl<T: fmt::Display> fmt::Display for Numbered<'_, T> {
    fn fmt<W: fmt::Write>(&self, f: &mut fmt::Formatter<W>) -> fmt::Result {
        for (state, number) in self.0.iter().zip(1u64..) {
            write!(f, " #{number} {state}")?;
        }
        Ok(())
    }
}

// Messages by their numbers.
#[derive(Clone, Copy)]
struct Numbers<'a>(&'a [usize]);

impl fmt::Display for Numbers<'_> {
    fn fmt<W: fmt::Write>(&self, f: &mut fmt::Formatter<W>) -> fmt::Result {
        for number in self.0 {
            write!(f, " #{number}")?;
        }
        Ok(())
    }
}

// The next bit of a link that is set.
#[derive(Clone, Copy)]
struct NextBit(Link);

impl fmt::Display for NextBit {
    fn fmt<W: fmt::Write>(&self, f: &mut fmt::Formatter<W>) -> fmt::Result {
        if !self.0.set {
            return f.write_str("unset");
        }
        let next = u8::from(self.0.next);
        write!(f, "set {next}")
    }
}
