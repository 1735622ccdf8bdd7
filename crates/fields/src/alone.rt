// A field at one port of the rack, which is looked at by itself: where it is an event that does not ask
// for power, no other port has a part in the answer, and a large rack need not be handed about for it.
ghost use Rattle.std.specs.Prelude.{◌≡◌};
ghost use Rattle.fields.specs.PortAlone.{elsewhere, answered_alone, alone_of};

use ground::Verdict;
use night::Found;
use port::{Actions, Answer, NO_ACTIONS};
use slot::Slot;

// What the port has answered.
#[derive(Clone, Copy)]
pub struct Alone {
    // As the port's answer has it.
    pub verdict: Verdict,
    pub actions: Actions,
    // The port afterwards.
    pub slot: Slot,
    // How many bytes the reading goes on by.
    pub size: usize,
}

// What is no event is nothing to a port, which stays.
fn elsewhere(t: Slot) -> Alone
    ensures { result ≡ elsewhere t }
{
    Alone {
        verdict: Ok(()),
        actions: NO_ACTIONS,
        slot: t,
        size: 0,
    }
}

// The port's own answer to an event, which came to this port or to another.
fn answered(t: Slot, here: bool, a: Answer, size: usize) -> Result<Alone, Alone>
    ensures { result ≡ answered_alone t here a size }
{
    let settled = here & !slot::has_asked(t.port, a.port);
    let own = Alone {
        verdict: a.verdict,
        actions: a.actions,
        slot: Slot { port: a.port, ..t },
        size,
    };
    if settled { Ok(own) } else { Err(own) }
}

// What the first field of some bytes comes to at the port of a number: `Ok` where the port has answered it by itself, and
// that is all; `Err` where the rack is to be asked, with the port's own step all the same.
#[tactic(auto, unfolding(crate::specs::PortAlone::alone_of, port::specs::Calls::step))]
pub fn at_port(t: Slot, number: u8, s: &[u8]) -> Result<Alone, Alone>
    ensures { result ≡ alone_of t number s.now }
{
    let found = night::next(s);
    let size = night::size(s);
    let p = t.port;
    match found {
        Found::Cut | Found::UnknownTag | Found::WrongLength | Found::SetUp => Err(elsewhere(t)),
        Found::Event(n, e) => answered(t, n == number, p.event(e), size),
        Found::Packet(n) => answered(t, n == number, p.packet(night::behind(s)), size),
        Found::NewOffer(n) => {
            answered(t, n == number, p.new_offer(t.limit, night::offer(s)), size)
        }
    }
}
