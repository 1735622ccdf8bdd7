// The USB PD source for one port. A port is stepped by value: each call takes the memory and hands back
// the next one, with the actions, or a refusal and the very same port. It promises each answer by the
// paper's rules, for every port, and rests on the layers for offers, messages, channel, power and states.
#![tactic(auto)]

ghost use Rattle.std.specs.Prelude.{◌≡◌};
ghost use Rattle.port.specs.Memory.{detached_port};
ghost use Rattle.port.specs.Steps.{event_of, new_offer_of};
ghost use Rattle.port.specs.Packets.{packet_of};

use channel::Channel;
use ground::{Refusal, Verdict};
use offers::{NO_OFFER, Offer};
use outgoing::{NO_PACKET, Packet};
use power::{Change, Power};
use sending::HeaderBytes;
use source::{State, Stimulus, Timer};

mod entering;
pub mod packets;
mod steps;

// The port's memory.
#[derive(Clone, Copy)]
pub struct Port {
    pub state: State,
    // MessageID counter, stored MessageID, pending message and its retries.
    pub channel: Channel,
    pub newest: Offer,
    // Whether the newest offer has gone out.
    pub gone_out: bool,
    // The last offer put on the wire.
    pub last: Offer,
    // Accepted request, contract, held power.
    pub power: Power,
    // Offers since the count was last cleared, at most fifty.
    pub count: u8,
    pub connected: bool,
}

// What can come to a port, packets and new offers aside: the four timers' expiries among them, and the
// power answer.
#[derive(Clone, Copy)]
pub enum Event {
    Attach,
    Detach,
    HardReset,
    Acknowledgement,
    SenderResponse,
    SourceCapability,
    PsHardReset,
    SupplyReady,
    Yes,
    No,
}

// What the supply is set to.
#[derive(Clone, Copy)]
pub enum Supply {
    Default,
    Position(u8),
}

// At most one of each, in the order in which they are done. An empty packet is none to transmit, as it is none
// pending: what goes out and what is pending are compared whole (`portclaims/proofs/Transmissions`).
#[derive(Clone, Copy)]
pub struct Actions {
    // The GoodCRC for a packet.
    pub good_crc: Option<HeaderBytes>,
    pub stop: Option<Timer>,
    pub transmit: Packet,
    pub hard_reset: bool,
    pub supply: Option<Supply>,
    pub start: Option<Timer>,
}

// The answer: fine or refused, the next port, the actions, and what happened to held power. The verdict stands
// beside them, and is no Result of them, since of a refused event too it is said that the port is the very same
// and that nothing is done (`Demand1`: `no_port_is_different`, `nothing_is_done`).
#[derive(Clone, Copy)]
pub struct Answer {
    pub verdict: Verdict,
    pub port: Port,
    pub actions: Actions,
    pub held: Change,
}

// What is done on the way: the next port, the message that goes out, and what else.
#[derive(Clone, Copy)]
pub struct Entered {
    pub port: Port,
    pub transmit: Packet,
    pub hard_reset: bool,
    pub supply: Option<Supply>,
    pub start: Option<Timer>,
}

pub const NO_ACTIONS: Actions = Actions {
    good_crc: None,
    stop: None,
    transmit: NO_PACKET,
    hard_reset: false,
    supply: None,
    start: None,
};

impl Port {
    // A port that nothing is attached to: zero, none and no, the newest offer aside.
    pub fn new(newest: Offer) -> Port
        ensures { result ≡ detached_port newest }
    {
        Port {
            state: State::Detached,
            channel: channel::new(),
            newest,
            gone_out: false,
            last: NO_OFFER,
            power: power::new(),
            count: 0,
            connected: false,
        }
    }

    // An event.
    #[tactic(auto, unfolding(crate::specs::Steps::event_of))]
    pub fn event(self, e: Event) -> Answer
        ensures { result ≡ event_of self e }
    {
        match e {
            Event::Attach => self.happens(Stimulus::Attach, self.cleared(), self.runs()),
            Event::Detach => self.happens(Stimulus::Detach, self.cleared(), self.runs()),
            Event::HardReset => self.happens(Stimulus::HardReset, self, self.runs()),
            Event::Acknowledgement => {
                self.by_outcome(self.channel.expired(), self.refused(Refusal::NotAwaited))
            }
            Event::SenderResponse => self.happens(Stimulus::SenderResponse, self, None),
            Event::SourceCapability => self.happens(Stimulus::SourceCapability, self, None),
            Event::PsHardReset => self.happens(Stimulus::PsHardReset, self, None),
            Event::SupplyReady => self.happens(Stimulus::SupplyReady, self, self.runs()),
            Event::Yes => self.happens(Stimulus::Yes, self, self.runs()),
            Event::No => self.happens(Stimulus::No, self, self.runs()),
        }
    }

    // A packet, any bytes.
    #[tactic(auto, unfolding(crate::specs::Packets::packet_of))]
    pub fn packet(self, s: &[u8]) -> Answer
        ensures { result ≡ packet_of self s.now }
    {
        match reading::read(s) {
            Ok(m) => {
                let request = packets::first_object(reading::objects(s));
                let fit = offers::judge(m.objects, request, self.last);
                self.message(m, fit)
            }
            Err(no) => self.refused(no),
        }
    }

    // A new offer for a port with this limit: any objects.
    #[tactic(auto, unfolding(crate::specs::Steps::new_offer_of))]
    pub fn new_offer(self, limit: u32, o: Offer) -> Answer
        ensures { result ≡ new_offer_of self limit o }
    {
        if offers::good(limit, o) {
            self.happens(Stimulus::NewOffer, self.replaced(o), self.runs())
        } else {
            self.refused(Refusal::BadOffer)
        }
    }
}
