// The Source states: which of them listen, the timer that runs in each, and what happens to held power;
// and the names of all that leads from one to another. It promises the paper's state list, for every
// state, and holds no memory: the port gives the facts that a state asks for. Where the states lead,
// `stimuli` and `hearing` say.
#![tactic(auto)]

ghost use Rattle.std.specs.Prelude.{◌≡◌, Some};
ghost use Rattle.source.specs.declared.State.{State};
ghost use Rattle.source.specs.States.{code_of, same, listens, awaits_reply, running, stopped};
ghost use Rattle.source.specs.Changes.{change_of, when_acknowledged, when_supply_ready};
ghost use Rattle.source.specs.Words.{state_words, timer_words};

use power::{Change, Standing};
use std::fmt;

// The sixteen states, by the paper's names.
#[derive(Clone, Copy, PartialEq, Eq)]
pub enum State {
    Detached,
    Offer,
    Discovery,
    Disabled,
    Judge,
    Accepting,
    Moving,
    Telling,
    Ready,
    Declining,
    Refusing,
    Waiting,
    Soft,
    Answering,
    Hard,
    Default,
}

// The words of docs/STEPS.md.
impl fmt::Display for State {
    ghost output = { λ x. Some (state_words x) };

    #[tactic(auto, unfolding(crate::specs::Words::state_words))]
    fn fmt<W: fmt::Write>(&self, f: &mut fmt::Formatter<W>) -> fmt::Result {
        f.write_str(match self {
            State::Detached => "Detached",
            State::Offer => "Offer",
            State::Discovery => "Discovery",
            State::Disabled => "Disabled",
            State::Judge => "Judge",
            State::Accepting => "Accepting",
            State::Moving => "Moving",
            State::Telling => "Telling",
            State::Ready => "Ready",
            State::Declining => "Declining",
            State::Refusing => "Refusing",
            State::Waiting => "Waiting",
            State::Soft => "Soft",
            State::Answering => "Answering",
            State::Hard => "Hard",
            State::Default => "Default",
        })
    }
}

// The timers that are started and stopped.
#[derive(Clone, Copy, PartialEq, Eq)]
pub enum Timer {
    SenderResponse,
    SourceCapability,
    PsHardReset,
}

impl fmt::Display for Timer {
    ghost output = { λ x. Some (timer_words x) };

    #[tactic(auto, unfolding(crate::specs::Words::timer_words))]
    fn fmt<W: fmt::Write>(&self, f: &mut fmt::Formatter<W>) -> fmt::Result {
        f.write_str(match self {
            Timer::SenderResponse => "SenderResponse",
            Timer::SourceCapability => "SourceCapability",
            Timer::PsHardReset => "PSHardReset",
        })
    }
}

// What can happen to a port, new packets aside.
#[derive(Clone, Copy)]
pub enum Stimulus {
    Attach,
    Detach,
    HardReset,
    Acknowledged,
    Failed,
    SenderResponse,
    SourceCapability,
    PsHardReset,
    SupplyReady,
    NewOffer,
    Yes,
    No,
}

// A new packet, as far as the states tell packets apart.
#[derive(Clone, Copy)]
pub enum Heard {
    FittingRequest,
    OtherRequest,
    Accept,
    OtherReply,
    GetSourceCap,
    SoftReset,
    Quiet,
    Unsupported,
}

// What the states ask about the port.
#[derive(Clone, Copy)]
pub struct Facts {
    // Whether a message is pending, the receiver is known to be connected, the newest offer has gone
    // out, and fifty offers have.
    pub pending: bool,
    pub connected: bool,
    pub gone_out: bool,
    pub fifty: bool,
    // How the contract stands to the last offer.
    pub standing: Standing,
}

// Where the rules lead, unless nowhere, which is refusal 8: no further, on in the same state once the offer
// or the Soft_Reset is acknowledged, or into a state. Hard is entered with a signal, or without one where a Hard Reset was heard.
#[derive(Clone, Copy)]
pub enum Way {
    Stay,
    Offered,
    Softened,
    Offer,
    Discovery,
    Disabled,
    Judge,
    Accepting,
    Moving,
    Telling,
    Ready,
    Declining,
    Refusing,
    Waiting,
    Soft,
    Answering,
    Hard,
    HardHeard,
    Default,
    Detached,
}

// A number for each state, which the checksum of docs/REPLAY.md takes in.
pub fn code_of(s: State) -> u8
    ensures { result ≡ code_of s }
{
    s as u8
}

// Whether a state is this one: `==`, with the promise that is told in docs/PROMISES.md.
pub fn is(s: State, t: State) -> bool
    ensures { result ≡ same s t }
{
    s == t
}

// Whether the power rule is asked: the state is Judge.
pub fn judging(s: State) -> bool
    ensures { result ≡ same s State.Judge }
{
    is(s, State::Judge)
}

// Whether a state listens to packets.
pub fn listens(s: State) -> bool
    ensures { result ≡ listens s }
{
    !matches!(
        s,
        State::Detached | State::Hard | State::Default | State::Disabled
    )
}

// Once its message is acknowledged, a state waits for the answer.
fn awaits_reply(pending: bool) -> Option<Timer>
    ensures { result ≡ awaits_reply pending }
{
    if pending {
        None
    } else {
        Some(Timer::SenderResponse)
    }
}

// The timer that runs in a state, with or without a pending message.
pub fn running(s: State, pending: bool) -> Option<Timer>
    ensures { result ≡ running s pending }
{
    match s {
        State::Offer | State::Soft => awaits_reply(pending),
        State::Discovery => Some(Timer::SourceCapability),
        State::Hard => Some(Timer::PsHardReset),
        _ => None,
    }
}

// Leaving a state stops the timer that runs in it.
pub fn stopped(before: State, after: State, runs: Option<Timer>) -> Option<Timer>
    ensures { result ≡ stopped before after runs }
{
    if is(before, after) { None } else { runs }
}

// PS_RDY is acknowledged: what was accepted is in force.
fn when_acknowledged(s: State) -> Change
    ensures { result ≡ when_acknowledged s }
{
    match s {
        State::Telling => Change::InForce,
        _ => Change::Nothing,
    }
}

// The supply is back at its default: what was held is given up.
fn when_supply_ready(s: State) -> Change
    ensures { result ≡ when_supply_ready s }
{
    match s {
        State::Default => Change::GivenUp,
        _ => Change::Nothing,
    }
}

// What happens to held power when a stimulus leads a state on.
#[tactic(auto, unfolding(crate::specs::Changes::change_of))]
pub fn change(s: State, e: Stimulus) -> Change
    ensures { result ≡ change_of s e }
{
    match e {
        Stimulus::Detach => Change::GivenUp,
        Stimulus::Acknowledged => when_acknowledged(s),
        Stimulus::SupplyReady => when_supply_ready(s),
        Stimulus::Yes => Change::Accepted,
        _ => Change::Nothing,
    }
}
