// Where a new packet leads: a rule for each group of states, packet by packet.
ghost use Rattle.std.specs.Prelude.{◌≡◌};
ghost use Rattle.hearing.specs.Packets.{awaiting, at_rest, answered, waited, resetting, answering};

use source::{Heard, Way};

// Offer and Discovery await a Request.
pub(crate) fn awaiting(h: Heard) -> Way
    ensures { result ≡ awaiting h }
{
    match h {
        Heard::FittingRequest => Way::Judge,
        Heard::OtherRequest => Way::Refusing,
        Heard::SoftReset => Way::Answering,
        _ => Way::Soft,
    }
}

// Ready.
pub(crate) fn at_rest(h: Heard) -> Way
    ensures { result ≡ at_rest h }
{
    match h {
        Heard::FittingRequest => Way::Judge,
        Heard::OtherRequest => Way::Refusing,
        Heard::GetSourceCap => Way::Offer,
        Heard::Accept | Heard::OtherReply => Way::Soft,
        Heard::Quiet => Way::Stay,
        Heard::SoftReset => Way::Answering,
        Heard::Unsupported => Way::Declining,
    }
}

// Judge, Refusing and Declining await no packet.
pub(crate) fn answered(h: Heard) -> Way
    ensures { result ≡ answered h }
{
    match h {
        Heard::SoftReset => Way::Answering,
        _ => Way::Soft,
    }
}

// Waiting.
pub(crate) fn waited(h: Heard) -> Way
    ensures { result ≡ waited h }
{
    match h {
        Heard::GetSourceCap => Way::Offer,
        Heard::SoftReset => Way::Answering,
        _ => Way::Soft,
    }
}

// Soft awaits Accept.
pub(crate) fn resetting(h: Heard) -> Way
    ensures { result ≡ resetting h }
{
    match h {
        Heard::Accept => Way::Offer,
        Heard::SoftReset => Way::Answering,
        _ => Way::Hard,
    }
}

// Answering awaits no packet.
pub(crate) fn answering(h: Heard) -> Way
    ensures { result ≡ answering h }
{
    match h {
        Heard::SoftReset => Way::Answering,
        _ => Way::Hard,
    }
}
