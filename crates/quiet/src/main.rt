// Plays a night from standard input through a rack, and writes what it comes to in counts, and a table. For
// long nights: docs/NIGHT.md has the file, docs/REPLAY.md what is written.
#![tactic(auto)]

ghost use Rattle.std.specs.Prelude.{◌≤◌, Result, IfOk};

mod counts;

use counts::put_counts;
use rack::Rack;
use std::fmt::{self, Write as _};
use std::io::{Read, Stderr, Stdin, Stdout, Write as _};
use tally::Tally;
use telling::{End, Input, KEPT, PIECE, ROOM, Table};
use text::Line;

// Reads once, behind the bytes that are kept: how many bytes there are then, unless no more come. `replay`
// has the same function: a public call of a library settles its result here (`NothingLoose`), and what a read
// brings nothing settles.
fn read_behind(mut from: Stdin, buf: &mut [u8; ROOM], i: Input) -> Result<usize, End>
    ensures { IfOk result (λ end. end ≤ 131200) }
{
    // No field is so long that more is kept; the test shows that a piece has room behind it.
    if KEPT < i.kept {
        return Err(End::Unread(i.place.wrapping_add(i.kept as u64)));
    }
    match from.read(&mut buf[i.kept..i.kept + PIECE]) {
        Ok(0) => Err(End::Stopped(i.ending, i.place)),
        Ok(n) => Ok(i.kept + n),
        Err(_) => Err(End::Unread(i.place.wrapping_add(i.kept as u64))),
    }
}

// Reads once, and answers what can be answered of it. `replay` has its own, and its own `play`, around its own
// way to answer: what is read settles nothing, so that no library can have the turn.
fn once(
    from: Stdin,
    buf: &mut [u8; ROOM],
    i: Input,
    rack: &mut Rack,
    tally: &mut Tally,
) -> Result<Input, End> {
    let end = read_behind(from, buf, i)?;
    let played = playing::night(*rack, *tally, &buf[..end]);
    *rack = played.rack;
    *tally = played.tally;
    i.answered(buf, played.at, end)
}

// Answers the night, and hands back how it ended. A proved loop has to end, and nothing says that an input
// does: no input uses up so many turns.
fn play(from: Stdin, rack: &mut Rack, tally: &mut Tally) -> End {
    let mut buf = [0u8; ROOM];
    let mut input = Input::new();
    for _turn in 0..u64::MAX {
        match once(from, &mut buf, input, rack, tally) {
            Ok(next) => input = next,
            Err(end) => return end,
        }
    }
    End::Stopped(input.ending, input.place)
}

// How the night ended, the counts, and the table.
fn put_all(line: &mut Line, end: End, tally: &Tally, rack: &Rack) -> fmt::Result {
    write!(line, "{end}")?;
    put_counts(line, tally)?;
    write!(line, "{}", Table(rack))
}

// Writes all that there is to say; what failed is said on standard error too, as `replay` says it: what is written
// settles nothing either.
fn finish(mut to: Stdout, mut aside: Stderr, end: End, tally: &Tally, rack: &Rack) {
    let mut buffer = [0u8; 4096];
    let mut line = Line::new(&mut buffer);
    // There is room.
    let _ = put_all(&mut line, end, tally, rack);
    let written = to.write_all(line.as_bytes()).is_ok();
    if matches!(end, End::Unread(_)) {
        let _ = aside.write_all(b"the night could not be read to its end\n");
    }
    if !written {
        let _ = aside.write_all(b"the answers could not be written\n");
    }
}

fn main(rt: HostRuntime) {
    let mut rack = setup::no_rack();
    let mut tally = tally::new();
    let end = play(rt.stdin(), &mut rack, &mut tally);
    finish(rt.stdout(), rt.stderr(), end, &tally, &rack);
}
