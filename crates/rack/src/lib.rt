// Ports that share one supply. A rack is stepped by value: each call takes the rack, the number of a
// port and what comes to it, and hands back the next rack with the port's actions, or a refusal and the
// very same rack. It promises each answer by the port's rules and the power rule, for every rack.
#![tactic(auto)]

ghost use Rattle.std.specs.Prelude.{◌≡◌, ◌<◌};
ghost use Rattle.rack.specs.Ports.{most_ports, ports_in, in_rack, at, loads, others, put};
ghost use Rattle.rack.specs.Steps.{event, packet, new_offer, turned, refused_by, step};
ghost use Rattle.slot.specs.Answers.{settled};

use ground::{Refusal, Verdict};
use offers::Offer;
use port::{Actions, Answer, Event, NO_ACTIONS, Port};
use power::Change;
use slot::{Beside, Slot};

// The most ports of a rack.
pub const PORTS: usize = 32;

// Fixed memory, and no heap: places for the most ports, stepped by value. A count past them is as the most
// (`ports_in`), for any rack.
#[derive(Clone, Copy)]
pub struct Rack {
    pub slots: [Slot; PORTS],
    // How many of the slots have a port, numbered from 1.
    pub count: u8,
    pub supply: u32,
}

// The answer: fine or refused, the next rack, the actions of the port that the event came to, and what
// happened to the power that it holds. A refused event has all four too, as a port's answer.
#[derive(Clone, Copy)]
pub struct RackAnswer {
    pub verdict: Verdict,
    pub rack: Rack,
    pub actions: Actions,
    pub held: Change,
}

impl Rack {
    // How many ports there are.
    fn ports(self) -> usize
        ensures { result ≡ ports_in self }
    {
        (self.count as usize).min(PORTS)
    }

    // Whether the rack has a port of this number.
    pub fn has(self, number: u8) -> bool
        ensures { result ≡ in_rack self number }
    {
        let n = self.ports();
        (1 <= number) & (number as usize <= n)
    }

    // What all ports take of the supply.
    pub fn load(self) -> u64
        ensures { result ≡ loads self }
    {
        let mut total: u64 = 0;
        for s in &self.slots[..self.ports()] {
            total += s.load() as u64;
        }
        total
    }

    // The port at a place, with its share and its limit.
    fn slot(self, i: usize) -> Slot
        requires { i < most_ports }
        ensures { result ≡ at self i }
    {
        self.slots[i]
    }

    // What the other ports take of it. `i < ports_in self`, here and below, is a fact about two values: a type for it
    // would hold the rack beside the place, and copy 5 KB at each call.
    fn others(self, i: usize) -> u64
        requires { i < ports_in self }
        ensures { result ≡ others self i }
    {
        let s = self.slot(i);
        self.load() - s.load() as u64
    }

    // The port's own answer with the power answer in it; the others are summed only where it has asked.
    #[tactic(auto, unfolding(slot::specs::Answers::settled))]
    fn settled(self, i: usize, a: Answer) -> Answer
        requires { i < ports_in self }
        ensures { result ≡ settled (at self i) (others self i) self.supply a }
    {
        let s = self.slot(i);
        if slot::has_asked(s.port, a.port) {
            let beside = Beside {
                others: self.others(i),
                supply: self.supply,
            };
            s.settles(a, beside)
        } else {
            a
        }
    }

    fn put(self, i: usize, p: Port) -> Rack
        requires { i < most_ports }
        ensures { result ≡ put self i p }
    {
        let mut r = self;
        r.slots[i].port = p;
        r
    }

    // The rack with a port's answer.
    fn turned(self, i: usize, a: Answer) -> RackAnswer
        requires { i < ports_in self }
        ensures { result ≡ turned self i (settled (at self i) (others self i) self.supply a) }
    {
        let b = self.settled(i, a);
        RackAnswer {
            verdict: b.verdict,
            rack: self.put(i, b.port),
            actions: b.actions,
            held: b.held,
        }
    }

    // A refusal: the very same rack, and no action.
    fn refused(self, no: Refusal) -> RackAnswer
        ensures { result ≡ refused_by no self }
    {
        RackAnswer {
            verdict: Err(no),
            rack: self,
            actions: NO_ACTIONS,
            held: Change::Nothing,
        }
    }

    // The three calls have one shape. As one, with a closure for what comes to the port, it would have a promise
    // longer than they are.

    // An event at the port of a number.
    pub fn event(self, number: u8, e: Event) -> RackAnswer
        ensures { result ≡ step self number (event e) }
    {
        if self.has(number) {
            let i = (number - 1) as usize;
            return self.turned(i, self.slot(i).port.event(e));
        }
        self.refused(Refusal::NotInRack)
    }

    // A packet, any bytes, at the port of a number.
    pub fn packet(self, number: u8, bytes: &[u8]) -> RackAnswer
        ensures { result ≡ step self number (packet bytes.now) }
    {
        if self.has(number) {
            let i = (number - 1) as usize;
            return self.turned(i, self.slot(i).port.packet(bytes));
        }
        self.refused(Refusal::NotInRack)
    }

    // A new offer, any objects, for the port of a number.
    pub fn new_offer(self, number: u8, o: Offer) -> RackAnswer
        ensures { result ≡ step self number (new_offer o) }
    {
        if self.has(number) {
            let i = (number - 1) as usize;
            let s = self.slot(i);
            return self.turned(i, s.port.new_offer(s.limit, o));
        }
        self.refused(Refusal::NotInRack)
    }
}
