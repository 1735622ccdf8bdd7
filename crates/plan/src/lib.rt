// A port's step in two: what comes of an event is decided while the port is only read, and then done at
// once. Long runs are fast so. It promises the answer by definitions that are shown equal to the port's
// step with the power answer in it, and rests on the port and its place in the rack.
#![tactic(auto)]

ghost use Rattle.std.specs.Prelude.{◌≡◌};
ghost use Rattle.plan.specs.Plans.{met_event, met_packet, met_offer, done_of};

use ground::Refusal;
use offers::{Asked, Offer};
use port::{Answer, Event, Port};
use power::Change;
use sending::HeaderBytes;
use slot::{Beside, Slot};
use source::{Heard, Stimulus, Timer, Way};

mod deciding;
mod doing;
mod meeting;

// What the protocol rules do to the port first; `Nothing` is one of six rules, each with a step of its own.
#[derive(Clone, Copy)]
pub enum Prior {
    Nothing,
    Cleared,
    Ended,
    Again,
    Heard(u8, bool),
    Replaced,
}

// What is left of an event once the protocol rules have been asked: a refusal, nothing more to do, a
// stimulus (and whether it is a timer, which no longer runs), or a new packet. A refusal is one of the four:
// as a Result around `Met`, `done` would have to take one too.
#[derive(Clone, Copy)]
pub enum Cue {
    Refused(Refusal),
    Done,
    Meets(Stimulus, bool),
    Hears(Heard),
}

#[derive(Clone, Copy)]
pub struct Met {
    pub cue: Cue,
    pub prior: Prior,
    pub crc: Option<HeaderBytes>,
    pub asked: Asked,
}

// What is to be done, where nothing is refused.
#[derive(Clone, Copy)]
pub struct Plan {
    pub prior: Prior,
    pub crc: Option<HeaderBytes>,
    pub runs: Option<Timer>,
    pub change: Change,
    pub way: Way,
    // Whether the power rule is asked. What a Request asks stands beside it, and not under it: `turn` is given it
    // in any case, as `port` gives it.
    pub asks: bool,
    pub asked: Asked,
}

// An event comes to a port.
pub fn event(p: Port, e: Event) -> Met
    ensures { result ≡ met_event p.channel e }
{
    meeting::event(p.channel, e)
}

// A packet comes to a port.
pub fn packet(p: Port, s: &[u8]) -> Met
    ensures { result ≡ met_packet p s.now }
{
    meeting::packet(p, s)
}

// A new offer comes to a port with this limit.
pub fn new_offer(limit: u32, o: Offer) -> Met
    ensures { result ≡ met_offer limit o }
{
    meeting::new_offer(limit, o)
}

// The answer of a port beside the others. `o` is the new offer, where one has come.
#[tactic(auto, unfolding(crate::specs::Plans::done_of))]
pub fn done(t: Slot, o: Offer, m: Met, beside: Beside) -> Answer
    ensures { result ≡ done_of t o m beside.others beside.supply }
{
    match deciding::decided(t.port, m) {
        Ok(x) => doing::performed(t.port, o, deciding::settled(t, x, beside)),
        Err(r) => t.port.refused(r),
    }
}
