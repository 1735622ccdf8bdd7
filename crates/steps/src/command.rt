// What a line asks.
use crate::rest::{Bytes, bytes_in, number_in, offer_in, parted};
use offers::Offer;
use port::Event;
use setup::Setting;

// What comes to a port.
#[derive(Clone, Copy)]
pub enum Coming {
    Lone(Event),
    Packet(Bytes),
    Offer(Offer),
}

// What is to be done. Something comes to the port that stands alone, or to the port of the rack with
// this number; or one of the two is set up.
#[derive(Clone, Copy)]
pub enum Command {
    Alone(Coming),
    InRack(u8, Coming),
    NewPort(u32, Offer),
    Supply(u32),
    Place(Setting),
    SetUp,
}

// The words that stand alone.
fn lone(word: &[u8]) -> Option<Event> {
    match word {
        b"attach" => Some(Event::Attach),
        b"detach" => Some(Event::Detach),
        b"hardreset" => Some(Event::HardReset),
        b"acknowledgement" => Some(Event::Acknowledgement),
        b"senderresponse" => Some(Event::SenderResponse),
        b"sourcecapability" => Some(Event::SourceCapability),
        b"pshardreset" => Some(Event::PsHardReset),
        b"supplyready" => Some(Event::SupplyReady),
        b"yes" => Some(Event::Yes),
        b"no" => Some(Event::No),
        _ => None,
    }
}

fn coming_in(s: &[u8]) -> Option<Coming> {
    match parted(s) {
        (b"packet", bytes) => Some(Coming::Packet(bytes_in(bytes)?)),
        (b"offer", objects) => Some(Coming::Offer(offer_in(objects)?)),
        (word, b"") => Some(Coming::Lone(lone(word)?)),
        _ => None,
    }
}

// A number of the line's own, and what follows it.
fn numbered(s: &[u8]) -> Option<(u32, &[u8])> {
    let (word, rest) = parted(s);
    Some((number_in(word, 7)?, rest))
}

fn new_port(s: &[u8]) -> Option<Command> {
    let (limit, objects) = numbered(s)?;
    Some(Command::NewPort(limit, offer_in(objects)?))
}

fn supply(s: &[u8]) -> Option<Command> {
    match numbered(s)? {
        (supply, b"") => Some(Command::Supply(supply)),
        _ => None,
    }
}

fn place(s: &[u8]) -> Option<Command> {
    let (share, rest) = numbered(s)?;
    let (limit, objects) = numbered(rest)?;
    Some(Command::Place(Setting {
        share,
        limit,
        offer: offer_in(objects)?,
    }))
}

// What the line asks; nothing where it cannot be understood.
pub fn understand(line: &[u8]) -> Option<Command> {
    let (word, rest) = parted(line);
    match word {
        b"port" => new_port(rest),
        b"supply" => supply(rest),
        b"place" => place(rest),
        b"setup" if rest.is_empty() => Some(Command::SetUp),
        _ => match number_in(word, 3) {
            // No rack has a port 255, and so that stands for every larger one.
            Some(number) => Some(Command::InRack(number.min(255) as u8, coming_in(rest)?)),
            None => Some(Command::Alone(coming_in(line)?)),
        },
    }
}
