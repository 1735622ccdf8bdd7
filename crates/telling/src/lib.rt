// What the programs say in common: what is said of an event, how far a night was read, how it ended, and
// the table of a rack. It promises what is kept of a piece for the next one, and the place where the reading
// goes on, for all bytes; it rests on `fields`.
#![tactic(auto)]

ghost use Rattle.std.specs.Prelude.{◌≡◌};
ghost use Rattle.telling.specs.Inputs.{nothing_read, GoesOn};

use fields::Ending;
use std::fmt;

mod answer;
mod table;

pub use answer::{Answered, Sent};
pub use table::{StateColumn, Table};

// A night is read a piece at a time. In front of a piece stands what is kept of the one before: at most the
// longest field but for one byte, 65,537 bytes.
pub const PIECE: usize = 65536;

pub const KEPT: usize = 65600;

pub const ROOM: usize = 131200;

// How far a night was read, and answered.
#[derive(Clone, Copy)]
pub struct Input {
    // The place in the file of the first byte that is not answered, and how many bytes are kept from there on.
    pub place: u64,
    pub kept: usize,
    // Why they are not answered, if no more comes.
    pub ending: Ending,
}

// How a night ended: what stands at the place where the answers stop; or the machine could not read on at
// a place.
#[derive(Clone, Copy)]
pub enum End {
    Stopped(Ending, u64),
    Unread(u64),
}

impl Input {
    // Nothing was read yet.
    pub fn new() -> Input
        ensures { result ≡ nothing_read }
    {
        Input {
            place: 0,
            kept: 0,
            ending: Ending::Whole,
        }
    }

    // Once the bytes before a place are answered, of those up to an end: what is left is kept for the next
    // piece, unless the night is damaged there.
    pub fn answered(self, buf: &mut [u8], at: usize, end: usize) -> Result<Input, End>
        ensures { GoesOn self buf.old at end result buf.new }
    {
        let left = fields::carry_over(buf, at, end);
        let ending = left.ending;
        let place = self.place.wrapping_add(at as u64);
        match left.kept {
            Some(n) => Ok(Input {
                place,
                kept: n,
                ending,
            }),
            None => Err(End::Stopped(ending, place)),
        }
    }
}

// The line about a night that was not read to its end; none about one that was. A field that was begun is
// cut: none is left that can be read.
impl fmt::Display for End {
    fn fmt<W: fmt::Write>(&self, f: &mut fmt::Formatter<W>) -> fmt::Result {
        match self {
            End::Stopped(Ending::Whole, _) => Ok(()),
            End::Stopped(Ending::Cut | Ending::Readable, place) => {
                writeln!(f, "the night is cut at byte {place}")
            }
            End::Stopped(Ending::UnknownTag, place) => {
                writeln!(f, "the night is damaged at byte {place}: an unknown tag")
            }
            End::Stopped(Ending::WrongLength, place) => {
                writeln!(f, "the night is damaged at byte {place}: a wrong length")
            }
            End::Stopped(Ending::NotLaid, place) => writeln!(
                f,
                "the night is damaged at byte {place}: a set-up that is not laid out as it must be"
            ),
            End::Unread(place) => writeln!(f, "the night could not be read on at byte {place}"),
        }
    }
}
