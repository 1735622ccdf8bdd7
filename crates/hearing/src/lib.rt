// Where a new packet leads each Source state. It promises the paper's state list, for every state and every
// kind of packet, and rests on the states.
#![tactic(auto)]

ghost use Rattle.std.specs.Prelude.{◌≡◌};
ghost use Rattle.hearing.specs.Packets.{on_packet};

use source::{Heard, State, Way};

mod rules;

// Where a new packet leads a state.
#[tactic(auto, unfolding(crate::specs::Packets::on_packet))]
pub fn packet_leads(s: State, h: Heard) -> Option<Way>
    ensures { result ≡ on_packet s h }
{
    match s {
        State::Offer | State::Discovery => Some(rules::awaiting(h)),
        State::Judge | State::Declining | State::Refusing => Some(rules::answered(h)),
        State::Accepting | State::Moving | State::Telling => Some(Way::Hard),
        State::Ready => Some(rules::at_rest(h)),
        State::Waiting => Some(rules::waited(h)),
        State::Soft => Some(rules::resetting(h)),
        State::Answering => Some(rules::answering(h)),
        State::Detached | State::Disabled | State::Hard | State::Default => None,
    }
}
