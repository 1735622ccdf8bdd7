// What a packet does to a port.
ghost use Rattle.std.specs.Prelude.{◌≡◌};
ghost use Rattle.port.specs.Packets.{first_object, meaning_in, requested, replied, heard_as, asked_by, is_soft_reset, crc_for, hearing, new_packet, other_packet, good_crc_heard, by_meaning, message_of};

use crate::entering::Control;
use crate::{Answer, Port};
use ground::Refusal;
use meaning::Meaning;
use message::Fields;
use offers::Asked;
use power::{Change, NOTHING_ASKED};
use reading::Message;
use sending::HeaderBytes;
use source::Heard;

// The first object of some object bytes, least byte first.
#[tactic(auto, unfolding(crate::specs::Packets::first_object))]
pub fn first_object(o: &[u8]) -> u32
    ensures { result ≡ first_object o.now }
{
    let low = message::word(o) as u32;
    let high = message::word(o.get(2..).unwrap_or(&[])) as u32;
    low + high * 65536
}

#[tactic(auto, unfolding(crate::specs::Packets::meaning_in))]
pub fn meaning_in(m: Message) -> Meaning
    ensures { result ≡ meaning_in m.objects m.fields }
{
    let k = meaning::kind_of(m.fields.extended, m.objects);
    meaning::meaning_of(k, m.fields.message_type)
}

fn requested(fit: Option<Asked>) -> Heard
    ensures { result ≡ requested fit }
{
    match fit {
        None => Heard::OtherRequest,
        Some(_) => Heard::FittingRequest,
    }
}

fn replied(message_type: u8) -> Heard
    ensures { result ≡ replied message_type }
{
    if message_type == Control::Accept as u8 {
        Heard::Accept
    } else {
        Heard::OtherReply
    }
}

// A packet as far as the states tell packets apart.
#[tactic(auto, unfolding(crate::specs::Packets::heard_as))]
pub fn heard_as(m: Meaning, message_type: u8, fit: Option<Asked>) -> Heard
    ensures { result ≡ heard_as m message_type fit }
{
    match m {
        Meaning::Unsupported => Heard::Unsupported,
        Meaning::Reply => replied(message_type),
        Meaning::GetSourceCap => Heard::GetSourceCap,
        Meaning::SoftReset => Heard::SoftReset,
        Meaning::GoodCrc | Meaning::Quiet => Heard::Quiet,
        Meaning::Request => requested(fit),
    }
}

// What a Request asks that fits. What is not asked is zero, as `power` keeps it, so there is no Option.
pub fn asked_by(fit: Option<Asked>) -> Asked
    ensures { result ≡ asked_by fit }
{
    fit.unwrap_or(NOTHING_ASKED)
}

pub fn is_soft_reset(m: Meaning) -> bool
    ensures { result ≡ is_soft_reset m }
{
    m == Meaning::SoftReset
}

pub fn crc_for(f: Fields) -> Option<HeaderBytes>
    ensures { result ≡ crc_for f }
{
    Some(sending::good_crc(f))
}

impl Port {
    // A new packet is heard: pending dropped, MessageID stored, connected.
    fn hearing(self, id: u8, soft_reset: bool) -> Port
        ensures { result ≡ hearing self id soft_reset }
    {
        Port {
            channel: self.channel.heard(id, soft_reset),
            connected: true,
            ..self
        }
    }

    #[tactic(auto, unfolding(crate::specs::Packets::new_packet))]
    fn new_packet(self, f: Fields, m: Meaning, fit: Option<Asked>) -> Answer
        ensures { result ≡ new_packet self f m fit }
    {
        match hearing::packet_leads(self.state, heard_as(m, f.message_type, fit)) {
            None => self.refused(Refusal::NotAwaited),
            Some(way) => {
                let p = self.hearing(f.message_id, is_soft_reset(m));
                p.turn(
                    self.state,
                    crc_for(f),
                    self.runs(),
                    Change::Nothing,
                    way,
                    asked_by(fit),
                )
            }
        }
    }

    // Any packet but GoodCRC.
    #[tactic(auto, unfolding(crate::specs::Packets::other_packet))]
    fn other_packet(self, f: Fields, m: Meaning, fit: Option<Asked>) -> Answer
        ensures { result ≡ other_packet self f m fit }
    {
        let repeats = self.channel.repeats(f.message_id);
        let soft = is_soft_reset(m);
        if repeats & !soft {
            return self.nothing_done(crc_for(f));
        }
        self.new_packet(f, m, fit)
    }

    #[tactic(auto, unfolding(crate::specs::Packets::good_crc_heard))]
    fn good_crc_heard(self, f: Fields) -> Answer
        ensures { result ≡ good_crc_heard self f }
    {
        self.by_outcome(self.channel.good_crc(f.message_id), self.nothing_done(None))
    }

    #[tactic(auto, unfolding(crate::specs::Packets::by_meaning))]
    fn by_meaning(self, m: Meaning, f: Fields, fit: Option<Asked>) -> Answer
        ensures { result ≡ by_meaning m self f fit }
    {
        match m {
            Meaning::GoodCrc => self.good_crc_heard(f),
            _ => self.other_packet(f, m, fit),
        }
    }

    // A packet that was read.
    #[tactic(auto, unfolding(crate::specs::Packets::message_of))]
    pub(crate) fn message(self, m: Message, fit: Option<Asked>) -> Answer
        ensures { result ≡ message_of self m.objects m.fields fit }
    {
        if source::listens(self.state) {
            self.by_meaning(meaning_in(m), m.fields, fit)
        } else {
            self.refused(Refusal::NotAwaited)
        }
    }
}
