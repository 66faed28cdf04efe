// The commands of a site, and how a line is read as one.
use crate::arguments::Arguments;
use crate::command::{ConcentratorCall, parse_concentrator_call};
use crate::mistake::Mistake;
use damage::Damage;
use rules::records::ReaderPlan;

// Who hears a burst, or for whom the line loses it. Not an Option: neither end is an absence.
#[derive(Clone, Copy)]
pub enum End {
    Concentrator,
    Reader(u8),
}

// What is asked of a site.
#[derive(Drop)]
pub enum SiteCall {
    // a reader more
    Join(ReaderPlan),
    Concentrator(ConcentratorCall),
    Hear {
        end: End,
        burst: usize,
        damage: Damage,
    },
    Lose {
        end: End,
        burst: usize,
    },
    Quiet,
    Offer {
        address: u8,
        class: u8,
        octets: Vec<u8>,
    },
    Collect(u8),
    Restart(u8),
    Account,
}

// The call of this name.
pub fn parse_site_call<'a>(
    name: &str,
    mut arguments: Arguments<'a>,
) -> Result<SiteCall, Mistake<'a>> {
    match name {
        "hear" => {
            let end = parse_end(&mut arguments)?;
            let burst = arguments.count()?;
            let damage = parse_damage(arguments)?;
            Ok(SiteCall::Hear { end, burst, damage })
        }
        "lose" => {
            let end = parse_end(&mut arguments)?;
            let burst = arguments.count()?;
            arguments.end()?;
            Ok(SiteCall::Lose { end, burst })
        }
        "quiet" => {
            arguments.end()?;
            Ok(SiteCall::Quiet)
        }
        "offer" => parse_offer(arguments),
        "collect" => Ok(SiteCall::Collect(parse_address(arguments)?)),
        "restart" => Ok(SiteCall::Restart(parse_address(arguments)?)),
        "account" => {
            arguments.end()?;
            Ok(SiteCall::Account)
        }
        _ => {
            let call = parse_concentrator_call(name, arguments)?;
            Ok(SiteCall::Concentrator(call.ok_or(Mistake::UnknownCommand)?))
        }
    }
}

fn parse_address<'a>(mut arguments: Arguments<'a>) -> Result<u8, Mistake<'a>> {
    let address = arguments.capped()?;
    arguments.end()?;
    Ok(address)
}

fn parse_offer<'a>(mut arguments: Arguments<'a>) -> Result<SiteCall, Mistake<'a>> {
    let address = arguments.capped()?;
    let class = arguments.capped()?;
    let octets = arguments.list()?;
    Ok(SiteCall::Offer {
        address,
        class,
        octets,
    })
}

fn parse_end<'a>(arguments: &mut Arguments<'a>) -> Result<End, Mistake<'a>> {
    if arguments.take_keyword("concentrator") {
        return Ok(End::Concentrator);
    }
    Ok(End::Reader(arguments.capped()?))
}

// A cut stands before the flips, and one word brings all of these.
fn parse_damage<'a>(mut arguments: Arguments<'a>) -> Result<Damage, Mistake<'a>> {
    let cut = if arguments.take_keyword("cut") {
        Some(arguments.count()?)
    } else {
        None
    };
    let flips = if !arguments.take_keyword("flip") {
        arguments.empty_list()?
    } else if arguments.is_empty() {
        return Err(arguments.usage());
    } else {
        arguments.list()?
    };
    Ok(Damage { cut, flips })
}
