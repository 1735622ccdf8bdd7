// Reads packets, a line each, from standard input, and writes for each what reading it gives and what
// writing it back gives. docs/PACKETS.md has the lines.
#![tactic(auto)]

mod answer;
mod input;

use input::Input;
use std::io::{Read, Stdout, Write};
use text::Line;

// Answers a line. An answer that cannot be written is lost, and the next line is gone on with.
fn respond(mut to: Stdout, input: &Input) {
    let mut buffer = [0; 4096];
    let mut line = Line::new(&mut buffer);
    let _ = answer::put_answer(&mut line, input);
    let _ = to.write_all(line.as_bytes());
}

// Goes through a piece of the input, behind the line that has not ended, and answers each line that ends in it.
// `steps` has the same, and the like of `respond` and `main`: a public call of a library settles its result
// (`NothingLoose`), and what is read and written settles nothing.
fn take_in(to: Stdout, input: &mut Input, piece: &[u8]) {
    for &c in piece {
        if c == b'\n' {
            respond(to, input);
            *input = Input::new();
        } else {
            input.push(c);
        }
    }
}

// A proved loop has to end, and nothing says that an input does: no input has so many pieces.
fn main(rt: HostRuntime) {
    let mut input = Input::new();
    let mut piece = [0; 65536];
    for _ in 0..u64::MAX {
        // No more where the input has ended, or cannot be read on.
        let n = rt.stdin().read(&mut piece).unwrap_or(0);
        if n == 0 {
            break;
        }
        take_in(rt.stdout(), &mut input, &piece[..n]);
    }
    if input.started {
        respond(rt.stdout(), &input);
    }
}
