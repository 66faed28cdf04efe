// The parts that several answers have.
use frame::{Content, Format, UserOctets};
use rules::message::Message;
use rules::records::Mark;
use std::alloc::AllocError;
use std::fmt;

// Octets or symbols, each after a blank, with so many hexadecimal digits.
#[derive(Clone, Copy)]
pub struct Listed<'a, T> {
    units: &'a [T],
    digits: usize,
}

pub fn octets(octets: &[u8]) -> Listed<'_, u8> {
    Listed {
        units: octets,
        digits: 2,
    }
}

pub fn symbols<F: Format>(symbols: &[u16]) -> Listed<'_, u16> {
    Listed {
        units: symbols,
        digits: (F::WIDTH as usize).div_ceil(4),
    }
}

impl<T: fmt::Radix + Copy> fmt::Display for Listed<'_, T> {
    fn fmt<W: fmt::Write>(&self, f: &mut fmt::Formatter<W>) -> fmt::Result {
        let digits = self.digits;
        for unit in self.units {
            write!(f, " {unit:0digits$X}")?;
        }
        Ok(())
    }
}

// The frame at the front of a buffer.
pub fn write_frame<F: Format>(
    answer: &mut String,
    buffer: &[u16],
    count: usize,
) -> Result<(), AllocError> {
    let frame = symbols::<F>(&buffer[..count.min(buffer.len())]);
    write!(answer, "frame {count}:{frame}")
}

// A content, with the record of its user octets.
#[derive(Clone, Copy)]
pub struct Contents<'a> {
    pub content: Content,
    pub user: &'a UserOctets,
}

impl fmt::Display for Contents<'_> {
    fn fmt<W: fmt::Write>(&self, f: &mut fmt::Formatter<W>) -> fmt::Result {
        match self.content {
            Content::Single => f.write_str("single"),
            Content::Fixed { control, address } => {
                let head = [control.octet, address];
                let head = octets(&head);
                write!(f, "fixed{head}")
            }
            Content::Variable {
                control,
                address,
                count,
            } => {
                let head = [control.octet, address];
                let head = octets(&head);
                let user = self.user;
                let count = usize::from(count).min(user.len());
                let user = octets(&user[..count]);
                write!(f, "variable{head}:{user}")
            }
        }
    }
}

// What a reader has done beside its answer: taken a message in, and marked the one that was out.
#[derive(Clone, Copy)]
pub struct Effects {
    taken: bool,
    marked: Option<(Mark, Message)>,
}

impl Effects {
    // The record of the marked message counts if there is a mark.
    pub fn new(taken: bool, mark: Option<Mark>, marked: Message) -> Effects {
        Effects {
            taken,
            marked: mark.map(|mark| (mark, marked)),
        }
    }
}

impl fmt::Display for Effects {
    fn fmt<W: fmt::Write>(&self, f: &mut fmt::Formatter<W>) -> fmt::Result {
        if self.taken {
            f.write_str(" taken")?;
        }
        if let Some((mark, marked)) = self.marked {
            write!(f, " {mark}: {marked}")?;
        }
        Ok(())
    }
}
