// Reading a packet: any bytes of any length give the fields, or a refusal by the paper's number; and
// the object bytes as that part of the packet itself. It rests on the message's bytes.
#![tactic(auto)]

ghost use Rattle.std.specs.Prelude.{◌≡◌};
ghost use Rattle.reading.specs.Reading.{Part, reading_tried, read_of};

use ground::{Refusal, Verdict, refuse};
use message::Fields;

// What reading a packet gives, where nothing is refused: how many objects it has, and its fields.
#[derive(Clone, Copy)]
pub struct Message {
    pub objects: u8,
    pub fields: Fields,
}

// The tests, in the paper's order.
#[tactic(auto, unfolding(crate::specs::Reading::reading_tried, ground::specs::Refusals::refuse_if))]
fn tried(s: &[u8]) -> Verdict
    ensures { result ≡ reading_tried s.now }
{
    let h = message::word(s);
    let extended = message::unpack(h).extended;
    let n = s.len();
    refuse(n < 2, Refusal::TooShort)?;
    refuse(30 < n, Refusal::TooLong)?;
    refuse(extended & (n < 4), Refusal::WrongLength)?;
    refuse(
        extended & !message::chunked(s.get(2..).unwrap_or(&[])),
        Refusal::NotChunked,
    )?;
    refuse(
        n != 2 + 4 * (message::object_count(h) as usize),
        Refusal::WrongLength,
    )
}

// The fields and the number of objects, or the refusal.
#[tactic(auto, unfolding(crate::specs::Reading::read_of))]
pub fn read(s: &[u8]) -> Result<Message, Refusal>
    ensures { result ≡ read_of s.now }
{
    tried(s)?;
    let h = message::word(s);
    Ok(Message {
        objects: message::object_count(h),
        fields: message::unpack(h),
    })
}

// The object bytes: the caller's own slice from byte 2 on; where reading is refused, its empty
// beginning.
pub fn objects(s: &[u8]) -> &[u8]
    ensures { Part s.entry result }
{
    match tried(s) {
        Ok(()) => &s[2..],
        Err(_) => &s[..0],
    }
}
