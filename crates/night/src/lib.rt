// A night's file, a field at a time: what the next field says, and its parts. It promises every answer
// for all bytes, by the definitions of docs/NIGHT.md, and rests on the port's events and on what a set-up
// is.
#![tactic(auto)]

ghost use Rattle.std.specs.Prelude.{◌≡◌, ◌/◌, ◌<◌, min, drop};
ghost use Rattle.night.specs.Fields.{length_of, size_of, value_of, number_at, offer_in};
ghost use Rattle.night.specs.Events.{event_of, if_fits, kind_of, next_of, offer_of, Behind};
ghost use Rattle.night.specs.SetUps.{set_up_in};

use offers::Offer;
use port::{Event, packets};
use setup::SetUp;

mod setups;

// What the next field is, by docs/NIGHT.md's tags, which are read here and nowhere else. The bytes behind the
// port's number stand in the file; `behind` and `offer` hand them out, so that this is copied and borrows nothing.
#[derive(Clone, Copy)]
pub enum Found {
    // Fewer bytes are left than the field has.
    Cut,
    UnknownTag,
    WrongLength,
    SetUp,
    Event(u8, Event),
    Packet(u8),
    NewOffer(u8),
}

// The bytes from a place on; none past the end.
pub(crate) fn from(s: &[u8], at: usize) -> &[u8]
    ensures { result.now ≡ drop at s.now }
{
    s.get(at..).unwrap_or(&[])
}

// The length of a field's value.
pub(crate) fn length(s: &[u8]) -> usize
    ensures { (result ≡ length_of s.now) × (result < 65536) }
{
    message::word(from(s, 1)) as usize
}

// How many bytes a field has.
#[tactic(auto, unfolding(crate::specs::Fields::size_of))]
pub fn size(s: &[u8]) -> usize
    ensures { result ≡ size_of s.now }
{
    3 + length(s)
}

// The value of a field; none where it is not whole.
pub(crate) fn value(s: &[u8]) -> &[u8]
    ensures { result.now ≡ value_of s.now }
{
    let n = size(s);
    if n <= s.len() { &s[3..n] } else { &[] }
}

// A number of four bytes at a place, least byte first: as an object is read.
#[tactic(auto, unfolding(crate::specs::Fields::number_at, port::specs::Packets::first_object))]
pub(crate) fn number(s: &[u8], at: usize) -> u32
    ensures { result ≡ number_at s.now at }
{
    packets::first_object(from(s, at))
}

// The event of a tag that has nothing behind the port's number.
#[tactic(auto, unfolding(crate::specs::Events::event_of))]
fn event_of(tag: u8) -> Event
    ensures { result ≡ event_of tag }
{
    match tag {
        32 => Event::Attach,
        33 => Event::Detach,
        35 => Event::HardReset,
        36 => Event::Acknowledgement,
        37 => Event::SenderResponse,
        38 => Event::SourceCapability,
        39 => Event::PsHardReset,
        40 => Event::SupplyReady,
        42 => Event::Yes,
        _ => Event::No,
    }
}

// An event whose length does not fit its tag is damaged, whatever it says.
fn if_fits(fits: bool, n: Found) -> Found
    ensures { result ≡ if_fits fits n }
{
    if fits { n } else { Found::WrongLength }
}

// What a whole field is: by its tag, the length of its value, and the value's first byte. The tags that
// have a length of their own come before the row of events.
#[tactic(auto, unfolding(crate::specs::Events::kind_of))]
fn kind(tag: u8, length: usize, port: u8) -> Found
    ensures { result ≡ kind_of tag length port }
{
    match tag {
        16 => Found::SetUp,
        34 => if_fits(1 <= length, Found::Packet(port)),
        41 => if_fits(length % 4 == 1, Found::NewOffer(port)),
        32..=43 => if_fits(length == 1, Found::Event(port, event_of(tag))),
        _ => Found::UnknownTag,
    }
}

// The next field of some bytes.
#[tactic(auto, unfolding(crate::specs::Events::next_of, crate::specs::Fields::tag_of, crate::specs::Fields::is_whole))]
pub fn next(s: &[u8]) -> Found
    ensures { result ≡ next_of s.now }
{
    if size(s) <= s.len() {
        kind(message::byte(s, 0), length(s), message::byte(s, 3))
    } else {
        Found::Cut
    }
}

// What stands behind the port's number: that part of the bytes themselves.
pub fn behind(s: &[u8]) -> &[u8]
    ensures { Behind s.entry result }
{
    let n = size(s);
    if 4 <= n && n <= s.len() {
        &s[4..n]
    } else {
        &s[..0]
    }
}

// How many objects some bytes are, as far as a count goes.
fn object_count(bytes: usize) -> u8
    ensures { result ≡ min (bytes / 4) 255 }
{
    (bytes / 4).min(255) as u8
}

// Some bytes as an offer, four to an object.
#[tactic(auto, unfolding(crate::specs::Fields::offer_in))]
pub(crate) fn offer_in(o: &[u8]) -> Offer
    ensures { result ≡ offer_in o.now }
{
    // By `std::array::from_fn` its proof did not close: nothing says that the closure's `o` stays the same.
    let objects = [
        number(o, 0),
        number(o, 4),
        number(o, 8),
        number(o, 12),
        number(o, 16),
        number(o, 20),
        number(o, 24),
    ];
    Offer {
        objects,
        count: object_count(o.len()),
    }
}

// The offer of a new offer's field.
#[tactic(auto, unfolding(crate::specs::Events::offer_of))]
pub fn offer(s: &[u8]) -> Offer
    ensures { result ≡ offer_of s.now }
{
    offer_in(behind(s))
}

// The set-up of a rack group; none where it is not laid out as it must be.
#[tactic(auto, unfolding(crate::specs::SetUps::set_up_in))]
pub fn set_up(s: &[u8]) -> Option<SetUp>
    ensures { result ≡ set_up_in s.now }
{
    setups::group_in(value(s))
}
