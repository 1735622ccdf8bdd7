// A night over a rack, a field at a time: what the next field comes to, why the reading stopped, and what
// is kept of a piece for the next one. It promises every answer for all bytes, by the definitions of `night`,
// `rack` and `setup`, and rests on those.
#![tactic(auto)]

ghost use Rattle.std.specs.Prelude.{◌≡◌};
ghost use Rattle.fields.specs.Answers.{event_field, started_field, set_up_field, field_of};
ghost use Rattle.fields.specs.Endings.{ending_by, ending_of};
ghost use Rattle.fields.specs.Keeping.{part_in, Kept, goes_on, CarriedOver};

use ground::{Refusal, Verdict};
use night::Found;
use port::{Actions, NO_ACTIONS};
use rack::{Rack, RackAnswer};

pub mod alone;

// What a field that can be read comes to.
#[derive(Clone, Copy)]
pub struct Field {
    pub found: Found,
    // As the rack's answer has it.
    pub verdict: Verdict,
    pub actions: Actions,
    // The rack afterwards.
    pub rack: Rack,
    // How many bytes the reading goes on by.
    pub size: usize,
}

// What stands where the reading stopped: nothing, a field that is not whole, one that is damaged, or one
// that can be read: six cases that the programs tell apart, and no value in any.
#[derive(Clone, Copy)]
pub enum Ending {
    Whole,
    Cut,
    UnknownTag,
    WrongLength,
    NotLaid,
    Readable,
}

// What is left of a piece.
#[derive(Clone, Copy)]
pub struct Left {
    pub ending: Ending,
    // Where the night may go on with the next piece: how many bytes are kept in front of it.
    pub kept: Option<usize>,
}

// An event and the rack's answer to it.
fn answered(found: Found, a: RackAnswer, size: usize) -> Field
    ensures { result ≡ event_field found a size }
{
    Field {
        found,
        verdict: a.verdict,
        actions: a.actions,
        rack: a.rack,
        size,
    }
}

// A set-up that was tried: where it is a bad one, the rack stays.
fn started(r: Rack, s: Result<Rack, Refusal>, size: usize) -> Field
    ensures { result ≡ started_field r s size }
{
    let (verdict, rack) = match s {
        Ok(new) => (Ok(()), new),
        Err(no) => (Err(no), r),
    };
    Field {
        found: Found::SetUp,
        verdict,
        actions: NO_ACTIONS,
        rack,
        size,
    }
}

// A set-up that is not laid out as it must be cannot be read.
fn set_up(r: Rack, s: &[u8], size: usize) -> Result<Field, Found>
    ensures { result ≡ set_up_field r s.now size }
{
    match night::set_up(s) {
        Some(u) => Ok(started(r, setup::set_up(u), size)),
        None => Err(Found::SetUp),
    }
}

// What the first field of some bytes comes to over a rack; where it cannot be read, what stands there. Then it changes
// nothing, and the reading stays before it.
#[tactic(auto, unfolding(crate::specs::Answers::field_of))]
pub fn first(r: Rack, s: &[u8]) -> Result<Field, Found>
    ensures { result ≡ field_of r s.now }
{
    let found = night::next(s);
    let size = night::size(s);
    match found {
        Found::Cut | Found::UnknownTag | Found::WrongLength => Err(found),
        Found::SetUp => set_up(r, s, size),
        Found::Event(number, e) => Ok(answered(found, r.event(number, e), size)),
        Found::Packet(number) => Ok(answered(found, r.packet(number, night::behind(s)), size)),
        Found::NewOffer(number) => {
            Ok(answered(found, r.new_offer(number, night::offer(s)), size))
        }
    }
}

fn ending_by(found: Found, laid: bool) -> Ending
    ensures { result ≡ ending_by found laid }
{
    match found {
        Found::Cut => Ending::Cut,
        Found::UnknownTag => Ending::UnknownTag,
        Found::WrongLength => Ending::WrongLength,
        Found::SetUp if !laid => Ending::NotLaid,
        _ => Ending::Readable,
    }
}

// Why the reading stopped before some bytes.
#[tactic(auto, unfolding(crate::specs::Endings::ending_of))]
fn ending_of(s: &[u8]) -> Ending
    ensures { result ≡ ending_of s.now }
{
    if s.len() == 0 {
        return Ending::Whole;
    }
    ending_by(night::next(s), night::set_up(s).is_some())
}

// Moves the bytes from one place to another to the front, and hands back how many they are.
fn keep(buf: &mut [u8], at: usize, end: usize) -> usize
    ensures { Kept buf.old at end result buf.new }
{
    let last = end.min(buf.len());
    let from = at.min(last);
    buf.copy_within(from..last, 0);
    last - from
}

// The bytes from one place to another, as far as there are any.
fn part(s: &[u8], at: usize, end: usize) -> &[u8]
    ensures { result.now ≡ part_in s.now at end }
{
    let last = end.min(s.len());
    &s[at.min(last)..last]
}

// Whether the next piece may make up for what stands there.
fn goes_on(e: Ending) -> bool
    ensures { result ≡ goes_on e }
{
    matches!(e, Ending::Whole | Ending::Cut | Ending::Readable)
}

// What is left of a piece that ends at one place and is answered up to another: why the reading stopped there, and,
// unless the night is damaged, the bytes moved to the front of the buffer.
pub fn carry_over(buf: &mut [u8], at: usize, end: usize) -> Left
    ensures { CarriedOver buf.old at end result buf.new }
{
    let ending = ending_of(part(buf, at, end));
    if !goes_on(ending) {
        return Left { ending, kept: None };
    }
    let n = keep(buf, at, end);
    Left {
        ending,
        kept: Some(n),
    }
}
