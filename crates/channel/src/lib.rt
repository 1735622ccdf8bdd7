// One channel of messages to the receiver: the MessageID counter, the stored MessageID, the pending
// message, and the protocol rules over them. It promises each rule as the paper says it, for every
// channel, and rests on the message's header.
#![tactic(auto)]

ghost use Rattle.std.specs.Prelude.{◌≡◌};
ghost use Rattle.channel.specs.Channel.{is_pending, pending_id, is_repeat, next_id, once_more, counter_after, ended, again, heard, fresh, sends};
ghost use Rattle.channel.specs.Outcomes.{outcome_of, on_good_crc, on_expiry};

use outgoing::{NO_PACKET, Packet};

// The message that is not yet acknowledged, and how often it has been sent again; an empty packet is no
// message. It is no Option: the claims speak of every channel (`is_pending`, `Demand2`), one with retries and no
// message among them.
#[derive(Clone, Copy)]
pub struct Pending {
    pub packet: Packet,
    pub retries: u8,
}

#[derive(Clone, Copy)]
pub struct Channel {
    pub counter: u8,
    // The MessageID of the last new packet.
    pub stored: Option<u8>,
    pub pending: Pending,
}

// What a GoodCRC or the acknowledgement timer comes to for the pending message. That none is pending has a
// rule of its own, as the other three have, so it is no absent value.
#[derive(Clone, Copy)]
pub enum Outcome {
    NonePending,
    Acknowledged,
    Again,
    Failed,
}

const NONE_PENDING: Pending = Pending {
    packet: NO_PACKET,
    retries: 0,
};

// The rule for a pending message that is or is not acknowledged, and may or may not be sent again.
fn comes_to(pending: bool, acknowledged: bool, again: bool) -> Outcome
    ensures { result ≡ outcome_of pending acknowledged again }
{
    if !pending {
        Outcome::NonePending
    } else if acknowledged {
        Outcome::Acknowledged
    } else if again {
        Outcome::Again
    } else {
        Outcome::Failed
    }
}

// The MessageID after this one.
fn next(id: u8) -> u8
    ensures { result ≡ next_id id }
{
    (id % 8 + 1) % 8
}

// One more retry, at most two.
fn once_more(retries: u8) -> u8
    ensures { result ≡ once_more retries }
{
    if retries < 2 { retries + 1 } else { retries }
}

// The counter after a new packet, which may be a Soft_Reset and may drop a pending message.
fn counter_after(soft_reset: bool, pending: bool, counter: u8) -> u8
    ensures { result ≡ counter_after soft_reset pending counter }
{
    match (soft_reset, pending) {
        (true, _) => 0,
        (false, true) => next(counter),
        (false, false) => counter,
    }
}

// A channel at attach: zero, none, none.
pub fn new() -> Channel
    ensures { result ≡ fresh }
{
    Channel {
        counter: 0,
        stored: None,
        pending: NONE_PENDING,
    }
}

impl Channel {
    pub fn is_pending(self) -> bool
        ensures { result ≡ is_pending self }
    {
        0 < self.pending.packet.length
    }

    // The MessageID of the pending message.
    #[tactic(auto, unfolding(crate::specs::Channel::pending_id))]
    fn pending_id(self) -> u8
        ensures { result ≡ pending_id self }
    {
        message::unpack(message::word(&self.pending.packet.bytes)).message_id
    }

    // Whether a MessageID is the stored one.
    #[tactic(auto, unfolding(crate::specs::Channel::is_repeat))]
    pub fn repeats(self, id: u8) -> bool
        ensures { result ≡ is_repeat self id }
    {
        self.stored == Some(id)
    }

    // A GoodCRC with this MessageID.
    #[tactic(auto, unfolding(crate::specs::Outcomes::on_good_crc))]
    pub fn good_crc(self, id: u8) -> Outcome
        ensures { result ≡ on_good_crc self id }
    {
        comes_to(
            self.is_pending(),
            self.pending_id() == id,
            self.pending.retries < 2,
        )
    }

    // The acknowledgement timer.
    #[tactic(auto, unfolding(crate::specs::Outcomes::on_expiry))]
    pub fn expired(self) -> Outcome
        ensures { result ≡ on_expiry self }
    {
        comes_to(self.is_pending(), false, self.pending.retries < 2)
    }

    // The pending message is acknowledged, has failed or is dropped: nothing is pending, and the
    // counter goes one on.
    #[tactic(auto, unfolding(crate::specs::Channel::ended))]
    pub fn ended(self) -> Channel
        ensures { result ≡ ended self }
    {
        Channel {
            counter: next(self.counter),
            pending: NONE_PENDING,
            ..self
        }
    }

    // The pending message goes out again.
    #[tactic(auto, unfolding(crate::specs::Channel::again))]
    pub fn again(self) -> Channel
        ensures { result ≡ again self }
    {
        Channel {
            pending: Pending {
                retries: once_more(self.pending.retries),
                ..self.pending
            },
            ..self
        }
    }

    // A new packet is heard: a pending message is dropped, and the packet's MessageID stored; for a
    // Soft_Reset the counter is then 0.
    #[tactic(auto, unfolding(crate::specs::Channel::heard))]
    pub fn heard(self, id: u8, soft_reset: bool) -> Channel
        ensures { result ≡ heard self id soft_reset }
    {
        Channel {
            counter: counter_after(soft_reset, self.is_pending(), self.counter),
            stored: Some(id),
            pending: NONE_PENDING,
        }
    }

    // A message goes out for the first time.
    #[tactic(auto, unfolding(crate::specs::Channel::sends))]
    pub fn sends(self, m: Packet) -> Channel
        ensures { result ≡ sends self m }
    {
        Channel {
            pending: Pending {
                packet: m,
                retries: 0,
            },
            ..self
        }
    }
}
