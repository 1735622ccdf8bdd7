// The power that a port has promised: the accepted request, the contract, and what is held for them.
// It promises what each change does to the three, for every port, and rests on what an offer is.
#![tactic(auto)]

ghost use Rattle.std.specs.Prelude.{◌≡◌, Some};
ghost use Rattle.power.specs.Power.{none, judges, accepts, comes_into_force, gives_up, changed, by_offer, standing_of};
ghost use Rattle.power.specs.Words.{change_words};

use offers::{Asked, Offer};
use std::fmt;

#[derive(Clone, Copy)]
pub struct Power {
    // The request that was last judged, accepted once the power answer is yes. "Numbers are zero, none or no at
    // attach": this one is zero (`none`).
    pub accepted: Asked,
    // What was last agreed and put in force.
    pub contract: Option<Asked>,
    pub held: u32,
}

// What happens to held power in an event. `Nothing` is one of the four answers of the Source states' tables:
// as an Option, every other entry of them would be wrapped, and no reader helped.
#[derive(Clone, Copy)]
pub enum Change {
    Nothing,
    Accepted,
    InForce,
    GivenUp,
}

// The words of docs/STEPS.md.
impl fmt::Display for Change {
    ghost output = { λ x. Some (change_words x) };

    #[tactic(auto, unfolding(crate::specs::Words::change_words))]
    fn fmt<W: fmt::Write>(&self, f: &mut fmt::Formatter<W>) -> fmt::Result {
        f.write_str(match self {
            Change::Nothing => "nothing",
            Change::Accepted => "accepted",
            Change::InForce => "in force",
            Change::GivenUp => "given up",
        })
    }
}

// How a contract stands to an offer: three cases with a rule of their own each, and no value in any.
#[derive(Clone, Copy)]
pub enum Standing {
    NoContract,
    Honoured,
    Broken,
}

// What is asked where nothing is.
pub const NOTHING_ASKED: Asked = Asked {
    position: 0,
    voltage: 0,
    current: 0,
    worth: 0,
};

// At attach: zero, none, zero.
pub fn new() -> Power
    ensures { result ≡ none }
{
    Power {
        accepted: NOTHING_ASKED,
        contract: None,
        held: 0,
    }
}

impl Power {
    // A Request is to be judged.
    pub fn judges(self, a: Asked) -> Power
        ensures { result ≡ judges self a }
    {
        Power {
            accepted: a,
            ..self
        }
    }

    fn accepts(self) -> Power
        ensures { result ≡ accepts self }
    {
        Power {
            held: ground::larger(self.held, self.accepted.worth),
            ..self
        }
    }

    fn comes_into_force(self) -> Power
        ensures { result ≡ comes_into_force self }
    {
        Power {
            contract: Some(self.accepted),
            held: self.accepted.worth,
            ..self
        }
    }

    fn gives_up(self) -> Power
        ensures { result ≡ gives_up self }
    {
        Power {
            contract: None,
            held: 0,
            ..self
        }
    }

    // The power after a change.
    #[tactic(auto, unfolding(crate::specs::Power::changed))]
    pub fn changed(self, c: Change) -> Power
        ensures { result ≡ changed c self }
    {
        match c {
            Change::Nothing => self,
            Change::Accepted => self.accepts(),
            Change::InForce => self.comes_into_force(),
            Change::GivenUp => self.gives_up(),
        }
    }

    // How the contract stands to an offer.
    #[tactic(auto, unfolding(crate::specs::Power::standing_of))]
    pub fn standing(self, o: Offer) -> Standing
        ensures { result ≡ standing_of self.contract o }
    {
        match self.contract {
            None => Standing::NoContract,
            Some(a) => by_offer(offers::honoured(a, o)),
        }
    }
}

fn by_offer(honoured: bool) -> Standing
    ensures { result ≡ by_offer honoured }
{
    if honoured {
        Standing::Honoured
    } else {
        Standing::Broken
    }
}
