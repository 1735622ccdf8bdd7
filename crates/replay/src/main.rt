// Plays a night from standard input through a rack, and writes a line for each event and a table at the
// end. docs/NIGHT.md has the file, docs/REPLAY.md what is written.
#![tactic(auto)]

ghost use Rattle.std.specs.Prelude.{◌≤◌, Result, IfOk};

mod lines;
mod what;

use lines::{TEXT, Told};
use rack::Rack;
use std::io::{Read, Stderr, Stdin, Write};
use telling::{End, Input, KEPT, PIECE, ROOM};

// Reads once, behind the bytes that are kept: how many bytes there are then, unless no more come. `quiet`
// has the same function: a public call of a library settles its result here (`NothingLoose`), and what a read
// brings nothing settles.
fn read_behind(mut from: Stdin, buf: &mut [u8; ROOM], i: Input) -> Result<usize, End>
    ensures { IfOk result (λ end. end ≤ 131200) }
{
    // No field is so long that more is kept; the test shows that a piece has room behind it.
    if KEPT < i.kept {
        return Err(End::Unread(i.place.wrapping_add(i.kept as u64)));
    }
    match from.read(&mut buf[i.kept..i.kept + PIECE]) {
        Ok(0) => Err(End::Stopped(i.ending, i.place)),
        Ok(n) => Ok(i.kept + n),
        Err(_) => Err(End::Unread(i.place.wrapping_add(i.kept as u64))),
    }
}

// Reads once, and answers what can be answered of it. `quiet` has its own, and its own `play`, around its own
// way to answer: what is read settles nothing, so that no library can have the turn.
fn once(
    from: Stdin,
    buf: &mut [u8; ROOM],
    i: Input,
    rack: &mut Rack,
    told: &mut Told,
) -> Result<Input, End> {
    let end = read_behind(from, buf, i)?;
    let at = told.run(rack, &buf[..end]);
    i.answered(buf, at, end)
}

// Answers the night, and hands back how it ended. A proved loop has to end, and nothing says that an input
// does: no input uses up so many turns.
fn play(from: Stdin, rack: &mut Rack, told: &mut Told) -> End {
    let mut buf = [0u8; ROOM];
    let mut input = Input::new();
    for _turn in 0..u64::MAX {
        match once(from, &mut buf, input, rack, told) {
            Ok(next) if told.written => input = next,
            Ok(next) => return End::Stopped(next.ending, next.place),
            Err(end) => return end,
        }
    }
    End::Stopped(input.ending, input.place)
}

// What failed is said on standard error too, as `quiet` says it: what is written settles nothing either.
fn complain(mut to: Stderr, end: End, written: bool) {
    if matches!(end, End::Unread(_)) {
        let _ = to.write_all(b"the night could not be read to its end\n");
    }
    if !written {
        let _ = to.write_all(b"the answers could not be written\n");
    }
}

fn main(rt: HostRuntime) {
    let mut out = [0u8; TEXT];
    let mut told = Told::new(rt.stdout(), &mut out);
    let mut rack = setup::no_rack();
    let end = play(rt.stdin(), &mut rack, &mut told);
    told.finish(end, &rack);
    complain(rt.stderr(), end, told.written);
}
