// A port's place in the rack: the port with its share and its limit, what it takes of the supply, and
// the power answer within an event. It promises the power rule, for whatever the other ports take, and
// rests on the port.
#![tactic(auto)]

ghost use Rattle.std.specs.Prelude.{◌≡◌, ◌+◌, leb};
ghost use Rattle.slot.specs.Load.{load_of, approves};
ghost use Rattle.slot.specs.Answers.{has_asked, answer_of, joined, settled};

use port::{Actions, Answer, Event, Port};

// What the other ports take of the supply, and the supply that all share.
#[derive(Clone, Copy)]
pub struct Beside {
    pub others: u64,
    pub supply: u32,
}

#[derive(Clone, Copy)]
pub struct Slot {
    pub port: Port,
    pub share: u32,
    pub limit: u32,
}

impl Beside {
    // Whether there is room for so much beside what the others take.
    fn has_room(self, load: u32) -> bool
        ensures { result ≡ leb (self.others + load) self.supply }
    {
        let all = self.supply as u64;
        self.others <= all && load as u64 <= all - self.others
    }
}

// Whether a port has come to ask the power rule.
pub fn has_asked(before: Port, after: Port) -> bool
    ensures { result ≡ has_asked before after }
{
    !source::judging(before.state) & source::judging(after.state)
}

fn answer_of(yes: bool) -> Event
    ensures { result ≡ answer_of yes }
{
    if yes { Event::Yes } else { Event::No }
}

// Two steps of a port in one event: their actions are one set.
fn joined(a: Answer, b: Answer) -> Answer
    ensures { result ≡ joined a b }
{
    Answer {
        actions: Actions {
            good_crc: a.actions.good_crc,
            stop: a.actions.stop,
            ..b.actions
        },
        ..b
    }
}

impl Slot {
    // What the port takes of the supply: its share, or what it holds where that is more.
    pub fn load(self) -> u32
        ensures { result ≡ load_of self }
    {
        ground::larger(self.share, self.port.power.held)
    }

    // The power rule, for a port beside others that take so much of the supply.
    #[tactic(auto, unfolding(crate::specs::Load::approves))]
    pub fn approves(self, beside: Beside, asked: u32) -> bool
        ensures { result ≡ approves self beside.others beside.supply asked }
    {
        let load = ground::larger(self.load(), asked);
        (asked <= self.limit) & beside.has_room(load)
    }

    // The port's own answer to an event; with the power answer where it has asked.
    #[tactic(auto, unfolding(crate::specs::Answers::judged, crate::specs::Answers::settled))]
    pub fn settles(self, a: Answer, beside: Beside) -> Answer
        ensures { result ≡ settled self beside.others beside.supply a }
    {
        if has_asked(self.port, a.port) {
            let yes = self.approves(beside, a.port.power.accepted.worth);
            joined(a, a.port.event(answer_of(yes)))
        } else {
            a
        }
    }
}
