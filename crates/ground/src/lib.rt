// The ground that every layer stands on: the paper's refusals with their numbers, and the verdict
// of a row of tests. It promises the number of each refusal and the order of the tests, and rests on
// nothing. Its `specs/` and `proofs/` hold the few notions and laws that all layers share.
#![tactic(auto)]

ghost use Rattle.std.specs.Prelude.{◌≡◌, max, Ok, Some};
ghost use Rattle.ground.specs.Refusals.{number_of, refuse_if};
ghost use Rattle.ground.specs.Words.{words_of};

use std::fmt;

// The paper's "Refusal numbers", one case for each row, with its number.
#[derive(Clone, Copy, PartialEq, Eq)]
pub enum Refusal {
    // packet under 2 bytes
    TooShort = 1,
    // packet over 30 bytes
    TooLong = 2,
    // length is not 2 + 4 x objects, or extended under 4 bytes
    WrongLength = 3,
    // extended with Chunked clear; in writing also extended without object
    NotChunked = 4,
    // fewer than 2 + 4 x objects bytes from the place to the buffer's end, or place past the end
    NoRoom = 5,
    // type over 31, MessageID over 7, a role over 1, revision 11b or over, object bytes not a
    // multiple of 4 or over 28
    OutOfRange = 6,
    // bad offer
    BadOffer = 7,
    // the event isn't awaited in this state
    NotAwaited = 8,
    // port number not in the rack
    NotInRack = 9,
    // bad set-up
    BadSetUp = 10,
}

// The words of docs/PACKETS.md and docs/STEPS.md.
impl fmt::Display for Refusal {
    ghost output = { λ r. Some (words_of r) };

    #[tactic(auto, unfolding(crate::specs::Words::words_of))]
    fn fmt<W: fmt::Write>(&self, f: &mut fmt::Formatter<W>) -> fmt::Result {
        f.write_str(match self {
            Refusal::TooShort => "packet under 2 bytes",
            Refusal::TooLong => "packet over 30 bytes",
            Refusal::WrongLength => "length is not 2 + 4 x objects, or extended under 4 bytes",
            Refusal::NotChunked => "extended with Chunked clear, or written without object",
            Refusal::NoRoom => "too little room from the place on, or place past the end",
            Refusal::OutOfRange => "a field or the object bytes out of range",
            Refusal::BadOffer => "bad offer",
            Refusal::NotAwaited => "the event is not awaited in this state",
            Refusal::NotInRack => "port number not in the rack",
            Refusal::BadSetUp => "bad set-up",
        })
    }
}

// What a row of tests comes to: nothing to refuse, or the first refusal in the row.
pub type Verdict = Result<(), Refusal>;

// The refusal's number in the paper's table.
pub fn number(r: Refusal) -> u8
    ensures { result ≡ number_of r }
{
    r as u8
}

// One test in front of the rest of a row: its refusal where it holds, else what the rest comes to.
#[tactic(auto, unfolding(crate::specs::Refusals::refuse_if))]
pub fn refuse_if(test: bool, r: Refusal, rest: Verdict) -> Verdict
    ensures { result ≡ refuse_if test r rest }
{
    if test { Err(r) } else { rest }
}

// One test of a row of tests, each with a `?` behind it.
pub fn refuse(test: bool, r: Refusal) -> Verdict
    ensures { result ≡ refuse_if test r (Ok tt) }
{
    refuse_if(test, r, Ok(()))
}

// The larger of two numbers: `max`, with the promise that is told in docs/PROMISES.md.
pub fn larger(a: u32, b: u32) -> u32
    ensures { result ≡ max a b }
{
    a.max(b)
}
