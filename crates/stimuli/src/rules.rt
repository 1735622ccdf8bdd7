// Where each stimulus leads: a rule for each, state by state.
ghost use Rattle.std.specs.Prelude.{◌≡◌};
ghost use Rattle.stimuli.specs.Leads.{ready_or, waiting_or, after_reject, unheard_offer, no_answer, offer_again, on_attach, on_detach, on_hard_reset, on_acknowledged, on_failed, on_sender_response, on_source_capability, on_ps_hard_reset, on_supply_ready, on_new_offer, on_answer};

use power::Standing;
use source::{State, Way, listens};

// Ready, or Offer at once.
fn ready_or_offer(gone_out: bool) -> Way
    ensures { result ≡ ready_or gone_out }
{
    if gone_out { Way::Ready } else { Way::Offer }
}

// Waiting, or Offer at once.
fn waiting_or_offer(gone_out: bool) -> Way
    ensures { result ≡ waiting_or gone_out }
{
    if gone_out { Way::Waiting } else { Way::Offer }
}

// A Reject is acknowledged.
fn after_reject(contract: Standing, gone_out: bool) -> Way
    ensures { result ≡ after_reject contract gone_out }
{
    match contract {
        Standing::NoContract => waiting_or_offer(gone_out),
        Standing::Honoured => ready_or_offer(gone_out),
        Standing::Broken => Way::Hard,
    }
}

// Attach.
pub(crate) fn on_attach(s: State) -> Option<Way>
    ensures { result ≡ on_attach s }
{
    match s {
        State::Detached => Some(Way::Offer),
        _ => None,
    }
}

// Detach.
pub(crate) fn on_detach(s: State) -> Option<Way>
    ensures { result ≡ on_detach s }
{
    match s {
        State::Detached => None,
        _ => Some(Way::Detached),
    }
}

// A heard Hard Reset.
pub(crate) fn on_hard_reset(s: State) -> Option<Way>
    ensures { result ≡ on_hard_reset s }
{
    if listens(s) {
        Some(Way::HardHeard)
    } else {
        None
    }
}

// The pending message is acknowledged.
pub(crate) fn on_acknowledged(s: State, contract: Standing, gone_out: bool) -> Option<Way>
    ensures { result ≡ on_acknowledged s contract gone_out }
{
    match s {
        State::Offer => Some(Way::Offered),
        State::Accepting => Some(Way::Moving),
        State::Telling | State::Declining => Some(ready_or_offer(gone_out)),
        State::Refusing => Some(after_reject(contract, gone_out)),
        State::Soft => Some(Way::Softened),
        State::Answering => Some(Way::Offer),
        _ => Some(Way::Stay),
    }
}

// No one acknowledges an offer.
fn unheard_offer(connected: bool) -> Way
    ensures { result ≡ unheard_offer connected }
{
    if connected { Way::Soft } else { Way::Discovery }
}

// The pending message has failed.
pub(crate) fn on_failed(s: State, connected: bool) -> Option<Way>
    ensures { result ≡ on_failed s connected }
{
    match s {
        State::Offer => Some(unheard_offer(connected)),
        State::Refusing | State::Declining | State::Waiting => Some(Way::Soft),
        State::Accepting | State::Moving | State::Telling => Some(Way::Hard),
        State::Soft | State::Answering => Some(Way::Hard),
        _ => Some(Way::Stay),
    }
}

// SenderResponse expires, which runs once the message is acknowledged.
fn no_answer(pending: bool) -> Option<Way>
    ensures { result ≡ no_answer pending }
{
    (!pending).then_some(Way::Hard)
}

// The expiry of SenderResponse.
pub(crate) fn on_sender_response(s: State, pending: bool) -> Option<Way>
    ensures { result ≡ on_sender_response s pending }
{
    match s {
        State::Offer | State::Soft => no_answer(pending),
        _ => None,
    }
}

// Offer once more, or never again.
fn offer_again(fifty: bool) -> Way
    ensures { result ≡ offer_again fifty }
{
    if fifty { Way::Disabled } else { Way::Offer }
}

// The expiry of SourceCapability.
pub(crate) fn on_source_capability(s: State, fifty: bool) -> Option<Way>
    ensures { result ≡ on_source_capability s fifty }
{
    match s {
        State::Discovery => Some(offer_again(fifty)),
        _ => None,
    }
}

// The expiry of PSHardReset.
pub(crate) fn on_ps_hard_reset(s: State) -> Option<Way>
    ensures { result ≡ on_ps_hard_reset s }
{
    match s {
        State::Hard => Some(Way::Default),
        _ => None,
    }
}

// The supply is ready.
pub(crate) fn on_supply_ready(s: State) -> Option<Way>
    ensures { result ≡ on_supply_ready s }
{
    match s {
        State::Moving => Some(Way::Telling),
        State::Default => Some(Way::Offer),
        _ => None,
    }
}

// A new offer is given.
pub(crate) fn on_new_offer(s: State) -> Option<Way>
    ensures { result ≡ on_new_offer s }
{
    match s {
        State::Ready | State::Waiting => Some(Way::Offer),
        _ => Some(Way::Stay),
    }
}

// The power answer.
pub(crate) fn on_answer(s: State, lead: Option<Way>) -> Option<Way>
    ensures { result ≡ on_answer s lead }
{
    match s {
        State::Judge => lead,
        _ => None,
    }
}
