// What is done where the rules lead: a way on, and the port that has gone it.
ghost use Rattle.std.specs.Prelude.{◌≡◌};
ghost use Rattle.port.specs.Parts.{to, power_is};
ghost use Rattle.port.specs.Controls.{type_of};
ghost use Rattle.port.specs.Entering.{starts, supplies, transmits, tells, capabilities, offering, one_offer, unchannelled, hardened, enter};
ghost use Rattle.source.specs.declared.State.{State};
ghost use Rattle.source.specs.declared.Way.{Way};
ghost use Rattle.power.specs.Power.{judges, nothing_asked};

use crate::{Entered, Port, Supply};
use offers::Asked;
use outgoing::{NO_PACKET, Packet};
use source::{State, Timer, Way};

// Source_Capabilities, the data message that we send, by its type (000, Table 6.6).
const SOURCE_CAPABILITIES: u8 = 1;

// The control messages that we send, by their types (000, Table 6.5).
#[derive(Clone, Copy)]
pub(crate) enum Control {
    Accept = 3,
    Reject = 4,
    PsRdy = 6,
    SoftReset = 13,
    NotSupported = 16,
}

// One offer more, at most fifty.
fn one_offer(count: u8) -> u8
    ensures { result ≡ one_offer count }
{
    if count < 50 { count + 1 } else { 50 }
}

impl Port {
    // The port with nothing done but perhaps a timer started.
    pub(crate) fn starts(self, t: Option<Timer>) -> Entered
        ensures { result ≡ starts t self }
    {
        Entered {
            port: self,
            transmit: NO_PACKET,
            hard_reset: false,
            supply: None,
            start: t,
        }
    }

    fn supplies(self, x: Option<Supply>) -> Entered
        ensures { result ≡ supplies x self }
    {
        Entered {
            supply: x,
            ..self.starts(None)
        }
    }

    // The port with a message that goes out for the first time, and is pending.
    fn transmits(self, m: Packet) -> Entered
        ensures { result ≡ transmits m self }
    {
        let sending = Port {
            channel: self.channel.sends(m),
            ..self
        };
        Entered {
            transmit: m,
            ..sending.starts(None)
        }
    }

    fn to(self, s: State) -> Port
        ensures { result ≡ to s self }
    {
        Port { state: s, ..self }
    }

    // A control message goes out from a state.
    fn tells(self, s: State, control: Control) -> Entered
        ensures { result ≡ tells (type_of control) (to s self) }
    {
        let m = outgoing::control(control as u8, self.channel.counter);
        self.to(s).transmits(m)
    }

    // The newest offer becomes the last, and goes out.
    fn offers(self) -> Entered
        ensures { result ≡ transmits (capabilities self) (to State.Offer (offering self)) }
    {
        let o = self.newest;
        let counter = self.channel.counter;
        let m = outgoing::with_objects(SOURCE_CAPABILITIES, counter, o.objects, o.count);
        let offering = Port {
            state: State::Offer,
            last: o,
            gone_out: true,
            count: one_offer(self.count),
            ..self
        };
        offering.transmits(m)
    }

    fn unchannelled(self) -> Port
        ensures { result ≡ unchannelled self }
    {
        Port {
            channel: channel::new(),
            ..self
        }
    }

    // Hard: pending dropped, counter 0, stored cleared, signal or not, start PSHardReset.
    fn hardened(self, signal: bool) -> Entered
        ensures { result ≡ hardened signal self }
    {
        let hard = self.unchannelled().to(State::Hard);
        Entered {
            hard_reset: signal,
            ..hard.starts(Some(Timer::PsHardReset))
        }
    }

    // The offer is acknowledged: someone is there.
    #[tactic(auto, unfolding(crate::specs::Entering::enter))]
    fn offered(self) -> Entered
        ensures { result ≡ enter Way.Offered nothing_asked self }
    {
        let heard = Port {
            count: 0,
            connected: true,
            ..self
        };
        heard.starts(Some(Timer::SenderResponse))
    }

    fn judges(self, a: Asked) -> Port
        ensures { result ≡ power_is (judges self.power a) self }
    {
        Port {
            power: self.power.judges(a),
            ..self
        }
    }

    #[tactic(auto, unfolding(crate::specs::Entering::enter))]
    fn moves(self) -> Entered
        ensures { result ≡ enter Way.Moving nothing_asked self }
    {
        let position = self.power.accepted.position;
        self.to(State::Moving)
            .supplies(Some(Supply::Position(position)))
    }

    #[tactic(auto, unfolding(crate::specs::Entering::enter))]
    fn softens(self) -> Entered
        ensures { result ≡ enter Way.Soft nothing_asked self }
    {
        self.unchannelled().tells(State::Soft, Control::SoftReset)
    }

    // Where the rules lead.
    #[tactic(auto, unfolding(crate::specs::Entering::enter))]
    pub(crate) fn enter(self, way: Way, a: Asked) -> Entered
        ensures { result ≡ enter way a self }
    {
        match way {
            Way::Stay => self.starts(None),
            Way::Offered => self.offered(),
            Way::Softened => self.starts(Some(Timer::SenderResponse)),
            Way::Offer => self.offers(),
            Way::Discovery => self
                .to(State::Discovery)
                .starts(Some(Timer::SourceCapability)),
            Way::Disabled => self.to(State::Disabled).starts(None),
            Way::Judge => self.judges(a).to(State::Judge).starts(None),
            Way::Accepting => self.tells(State::Accepting, Control::Accept),
            Way::Moving => self.moves(),
            Way::Telling => self.tells(State::Telling, Control::PsRdy),
            Way::Ready => self.to(State::Ready).starts(None),
            Way::Declining => self.tells(State::Declining, Control::NotSupported),
            Way::Refusing => self.tells(State::Refusing, Control::Reject),
            Way::Waiting => self.to(State::Waiting).starts(None),
            Way::Soft => self.softens(),
            Way::Answering => self.tells(State::Answering, Control::Accept),
            Way::Hard => self.hardened(true),
            Way::HardHeard => self.hardened(false),
            Way::Default => self.to(State::Default).supplies(Some(Supply::Default)),
            Way::Detached => self.to(State::Detached).starts(None),
        }
    }
}
