// What stands on the bench, a port and beside it a rack, and what a line does to it.
use crate::command::Coming;
use ground::Verdict;
use offers::Offer;
use port::{Actions, Answer, NO_ACTIONS, Port};
use power::Change;
use rack::{PORTS, Rack, RackAnswer};
use setup::{NO_SET_UP, SetUp, Setting};

// The port that stands alone and its limit; the rack, and the set-up in hand for the next one, which is put
// together line by line.
#[derive(Clone, Copy)]
pub struct Bench {
    pub port: Port,
    limit: u32,
    pub rack: Rack,
    in_hand: SetUp,
}

// What is said of what came, the memory aside.
#[derive(Clone, Copy)]
pub struct Told {
    pub verdict: Verdict,
    pub actions: Actions,
    pub held: Change,
}

impl Bench {
    // What stands there at first: a port with the paper's two objects, 5 V 3 A and 9 V 3 A, and no rack.
    pub fn new() -> Bench {
        let offer = Offer {
            objects: [0x0001912C, 0x0002D12C, 0, 0, 0, 0, 0],
            count: 2,
        };
        Bench {
            port: Port::new(offer),
            limit: 120000,
            rack: setup::no_rack(),
            in_hand: NO_SET_UP,
        }
    }

    // ---- the port that stands alone

    fn answered(&mut self, a: Answer) -> Told {
        self.port = a.port;
        Told {
            verdict: a.verdict,
            actions: a.actions,
            held: a.held,
        }
    }

    // A new port, if its offer is good. It is given the offer twice, the second time as an event that
    // does nothing; where the offer is bad, the old port refuses it.
    pub fn new_port(&mut self, limit: u32, offer: Offer) -> Told {
        if offers::good(limit, offer) {
            self.port = Port::new(offer);
            self.limit = limit;
        }
        self.answered(self.port.new_offer(limit, offer))
    }

    // What comes to the port.
    pub fn alone(&mut self, c: Coming) -> Told {
        self.answered(match c {
            Coming::Lone(e) => self.port.event(e),
            Coming::Packet(bytes) => self.port.packet(bytes.as_slice()),
            Coming::Offer(offer) => self.port.new_offer(self.limit, offer),
        })
    }

    // ---- the rack

    fn rack_answered(&mut self, a: RackAnswer) -> Told {
        self.rack = a.rack;
        Told {
            verdict: a.verdict,
            actions: a.actions,
            held: a.held,
        }
    }

    // What comes to the port of the rack with this number.
    pub fn in_rack(&mut self, number: u8, c: Coming) -> Told {
        self.rack_answered(match c {
            Coming::Lone(e) => self.rack.event(number, e),
            Coming::Packet(bytes) => self.rack.packet(number, bytes.as_slice()),
            Coming::Offer(offer) => self.rack.new_offer(number, offer),
        })
    }

    // A new set-up is in hand, with this supply and no port.
    pub fn begin(&mut self, supply: u32) {
        self.in_hand = SetUp {
            supply,
            ..NO_SET_UP
        };
    }

    // The set-up in hand has one port more. There is no room for one past the last: its number alone is
    // kept, by which the set-up is a bad one.
    pub fn place(&mut self, s: Setting) {
        let count = self.in_hand.count as usize;
        if count < PORTS {
            self.in_hand.settings[count] = s;
            self.in_hand.count += 1;
        } else {
            self.in_hand.count = PORTS as u8 + 1;
        }
    }

    // The rack is set up as the set-up in hand says, and stays as it was where that is a bad one.
    pub fn set_up(&mut self) -> Told {
        let verdict = setup::set_up(self.in_hand).map(|rack| self.rack = rack);
        Told {
            verdict,
            actions: NO_ACTIONS,
            held: Change::Nothing,
        }
    }
}
