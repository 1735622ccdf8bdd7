// A field as the loop meets it.
ghost use Rattle.std.specs.Prelude.{◌≡◌};
ghost use Rattle.playing.specs.Meeting.{turn_in, met_in, offer_in, stepped_by};

use night::Found;
use offers::Offer;
use plan::Met;
use port::{Answer, Event, Port};
use slot::{Beside, Slot};

// What comes to a port. The bytes of a packet and of a new offer stand in the field.
#[derive(Clone, Copy)]
pub(crate) enum Coming {
    Event(Event),
    Packet,
    NewOffer,
}

// An event: what comes, and to the port of which number.
#[derive(Clone, Copy)]
pub(crate) struct Turn {
    pub number: u8,
    pub coming: Coming,
}

// The event that a field is, where it is one.
pub(crate) fn turn_in(found: Found) -> Option<Turn>
    ensures { result ≡ turn_in found }
{
    let (number, coming) = match found {
        Found::Event(number, e) => (number, Coming::Event(e)),
        Found::Packet(number) => (number, Coming::Packet),
        Found::NewOffer(number) => (number, Coming::NewOffer),
        _ => return None,
    };
    Some(Turn { number, coming })
}

fn met(t: Slot, coming: Coming, f: &[u8]) -> Met
    ensures { result ≡ met_in t coming f.now }
{
    let p = t.port;
    match coming {
        Coming::Event(e) => plan::event(p, e),
        Coming::Packet => plan::packet(p, night::behind(f)),
        Coming::NewOffer => plan::new_offer(t.limit, night::offer(f)),
    }
}

// The new offer, where one has come.
fn offer_in(p: Port, coming: Coming, f: &[u8]) -> Offer
    ensures { result ≡ offer_in p coming f.now }
{
    match coming {
        Coming::NewOffer => night::offer(f),
        _ => p.newest,
    }
}

// What the port answers, beside the others.
pub(crate) fn stepped(t: Slot, coming: Coming, f: &[u8], beside: Beside) -> Answer
    ensures { result ≡ stepped_by t coming f.now beside.others beside.supply }
{
    let o = offer_in(t.port, coming, f);
    plan::done(t, o, met(t, coming, f), beside)
}
