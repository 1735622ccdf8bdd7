// What a message means to us: its kind from the header, and from kind and type the paper's meaning,
// by a table of 96 entries. It promises every entry, and "unsupported" for whatever is not there.
#![tactic(auto)]

ghost use Rattle.std.specs.Prelude.{◌≡◌, ◌<◌, ◌+◌, Some};
ghost use Rattle.meaning.specs.Meaning.{kind_of, first_of, entry_of, meaning_of};
ghost use Rattle.meaning.specs.Words.{kind_words, meaning_words};

use std::fmt;

// The three kinds of messages.
#[derive(Clone, Copy, PartialEq, Eq)]
pub enum Kind {
    Control,
    Data,
    Extended,
}

// The words of docs/PACKETS.md.
impl fmt::Display for Kind {
    ghost output = { λ x. Some (kind_words x) };

    #[tactic(auto, unfolding(crate::specs::Words::kind_words))]
    fn fmt<W: fmt::Write>(&self, f: &mut fmt::Formatter<W>) -> fmt::Result {
        f.write_str(match self {
            Kind::Control => "control",
            Kind::Data => "data",
            Kind::Extended => "extended",
        })
    }
}

// What the states go by. A reply is an Accept, Reject, PS_RDY or Wait.
#[derive(Clone, Copy, PartialEq, Eq)]
pub enum Meaning {
    Unsupported,
    GoodCrc,
    Reply,
    GetSourceCap,
    SoftReset,
    Quiet,
    Request,
}

impl fmt::Display for Meaning {
    ghost output = { λ x. Some (meaning_words x) };

    #[tactic(auto, unfolding(crate::specs::Words::meaning_words))]
    fn fmt<W: fmt::Write>(&self, f: &mut fmt::Formatter<W>) -> fmt::Result {
        f.write_str(match self {
            Meaning::Unsupported => "unsupported",
            Meaning::GoodCrc => "GoodCRC",
            Meaning::Reply => "reply",
            Meaning::GetSourceCap => "Get_Source_Cap",
            Meaning::SoftReset => "Soft_Reset",
            Meaning::Quiet => "quiet",
            Meaning::Request => "Request",
        })
    }
}

// Three kinds by 32 types: control messages, then data messages, then extended messages.
const MEANINGS: [Meaning; 96] = [
    Meaning::Unsupported,
    Meaning::GoodCrc,
    Meaning::Unsupported,
    Meaning::Reply,
    Meaning::Reply,
    Meaning::Unsupported,
    Meaning::Reply,
    Meaning::GetSourceCap,
    Meaning::Unsupported,
    Meaning::Unsupported,
    Meaning::Unsupported,
    Meaning::Unsupported,
    Meaning::Reply,
    Meaning::SoftReset,
    Meaning::Unsupported,
    Meaning::Unsupported,
    Meaning::Quiet,
    Meaning::Unsupported,
    Meaning::Unsupported,
    Meaning::Unsupported,
    Meaning::Unsupported,
    Meaning::Unsupported,
    Meaning::Unsupported,
    Meaning::Unsupported,
    Meaning::Unsupported,
    Meaning::Unsupported,
    Meaning::Unsupported,
    Meaning::Unsupported,
    Meaning::Unsupported,
    Meaning::Unsupported,
    Meaning::Unsupported,
    Meaning::Unsupported,
    Meaning::Unsupported,
    Meaning::Unsupported,
    Meaning::Request,
    Meaning::Quiet,
    Meaning::Unsupported,
    Meaning::Unsupported,
    Meaning::Unsupported,
    Meaning::Unsupported,
    Meaning::Unsupported,
    Meaning::Unsupported,
    Meaning::Unsupported,
    Meaning::Unsupported,
    Meaning::Unsupported,
    Meaning::Unsupported,
    Meaning::Unsupported,
    Meaning::Unsupported,
    Meaning::Unsupported,
    Meaning::Unsupported,
    Meaning::Unsupported,
    Meaning::Unsupported,
    Meaning::Unsupported,
    Meaning::Unsupported,
    Meaning::Unsupported,
    Meaning::Unsupported,
    Meaning::Unsupported,
    Meaning::Unsupported,
    Meaning::Unsupported,
    Meaning::Unsupported,
    Meaning::Unsupported,
    Meaning::Unsupported,
    Meaning::Unsupported,
    Meaning::Unsupported,
    Meaning::Unsupported,
    Meaning::Unsupported,
    Meaning::Unsupported,
    Meaning::Unsupported,
    Meaning::Unsupported,
    Meaning::Unsupported,
    Meaning::Unsupported,
    Meaning::Unsupported,
    Meaning::Unsupported,
    Meaning::Unsupported,
    Meaning::Unsupported,
    Meaning::Unsupported,
    Meaning::Unsupported,
    Meaning::Unsupported,
    Meaning::Unsupported,
    Meaning::Unsupported,
    Meaning::Unsupported,
    Meaning::Unsupported,
    Meaning::Unsupported,
    Meaning::Unsupported,
    Meaning::Unsupported,
    Meaning::Unsupported,
    Meaning::Unsupported,
    Meaning::Unsupported,
    Meaning::Unsupported,
    Meaning::Unsupported,
    Meaning::Unsupported,
    Meaning::Unsupported,
    Meaning::Unsupported,
    Meaning::Unsupported,
    Meaning::Unsupported,
    Meaning::Unsupported,
];

// Extended set: an extended message; else no objects: control; else data.
pub fn kind_of(extended: bool, objects: u8) -> Kind
    ensures { result ≡ kind_of extended objects }
{
    if extended {
        Kind::Extended
    } else if objects == 0 {
        Kind::Control
    } else {
        Kind::Data
    }
}

// Where a kind's entries begin.
fn first(k: Kind) -> usize
    ensures { (result ≡ first_of k) × (result < 65) }
{
    match k {
        Kind::Control => 0,
        Kind::Data => 32,
        Kind::Extended => 64,
    }
}

fn entry(at: usize) -> Meaning
    requires { at < 96 }
    ensures { result ≡ entry_of at }
{
    MEANINGS[at]
}

// The meaning of a kind's type; a type over 31 is no one's, so it is unsupported.
pub fn meaning_of(k: Kind, message_type: u8) -> Meaning
    ensures { result ≡ meaning_of k message_type }
{
    let at = first(k);
    if message_type < 32 {
        entry(at + message_type as usize)
    } else {
        Meaning::Unsupported
    }
}
