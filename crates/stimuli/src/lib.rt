// Where each stimulus leads each Source state, new packets aside. It promises the paper's state list, for
// every state and every stimulus, and rests on the states.
#![tactic(auto)]

ghost use Rattle.std.specs.Prelude.{◌≡◌};
ghost use Rattle.stimuli.specs.Leads.{leads};

use source::{Facts, State, Stimulus, Way};

mod rules;

// Where a stimulus leads a state.
#[tactic(auto, unfolding(crate::specs::Leads::leads))]
pub fn leads(s: State, e: Stimulus, f: Facts) -> Option<Way>
    ensures { result ≡ leads s e f }
{
    let contract = f.standing;
    match e {
        Stimulus::Attach => rules::on_attach(s),
        Stimulus::Detach => rules::on_detach(s),
        Stimulus::HardReset => rules::on_hard_reset(s),
        Stimulus::Acknowledged => rules::on_acknowledged(s, contract, f.gone_out),
        Stimulus::Failed => rules::on_failed(s, f.connected),
        Stimulus::SenderResponse => rules::on_sender_response(s, f.pending),
        Stimulus::SourceCapability => rules::on_source_capability(s, f.fifty),
        Stimulus::PsHardReset => rules::on_ps_hard_reset(s),
        Stimulus::SupplyReady => rules::on_supply_ready(s),
        Stimulus::NewOffer => rules::on_new_offer(s),
        Stimulus::Yes => rules::on_answer(s, Some(Way::Accepting)),
        Stimulus::No => rules::on_answer(s, Some(Way::Refusing)),
    }
}
