// The answer to a line, as text. The line has room for the longest.
use crate::bench::{Bench, Told};
use crate::command::{Command, understand};
use crate::input::Input;
use crate::memory::put_memory;
use rack::Rack;
use std::fmt::{self, Write};
use telling::Answered;
use text::Line;

// What is said of an event: its actions or the refusal, and what happened to held power.
fn put_told(line: &mut Line, t: &Told) -> fmt::Result {
    if t.verdict.is_ok() {
        write!(line, "actions: ")?;
    }
    let answered = Answered(t.verdict, &t.actions);
    write!(line, "{answered} | held: {} | ", t.held)
}

fn put_alone(line: &mut Line, t: Told, b: &Bench) -> fmt::Result {
    put_told(line, &t)?;
    put_memory(line, &b.port)
}

// The memory of the rack's port with this number, or a dash where the rack has none.
fn put_memory_in(line: &mut Line, r: &Rack, number: u8) -> fmt::Result {
    if r.has(number) {
        put_memory(line, &r.slots[number as usize - 1].port)
    } else {
        write!(line, "-")
    }
}

// What is said of what came to the port of the rack with this number.
fn put_in_rack(line: &mut Line, t: Told, b: &Bench, number: u8) -> fmt::Result {
    put_told(line, &t)?;
    put_memory_in(line, &b.rack, number)?;
    write!(line, " | rack: {} of ", b.rack.load())?;
    line.put_decimal(b.rack.supply);
    Ok(())
}

fn put_noted(line: &mut Line) -> fmt::Result {
    write!(line, "noted")
}

// Does what a command asks, and answers it.
fn obey(line: &mut Line, b: &mut Bench, c: Command) -> fmt::Result {
    match c {
        Command::Alone(coming) => put_alone(line, b.alone(coming), b),
        Command::NewPort(limit, offer) => put_alone(line, b.new_port(limit, offer), b),
        Command::InRack(number, coming) => put_in_rack(line, b.in_rack(number, coming), b, number),
        // It is about no one port; no rack has a port 0, and so there is no memory to tell.
        Command::SetUp => put_in_rack(line, b.set_up(), b, 0),
        Command::Supply(supply) => {
            b.begin(supply);
            put_noted(line)
        }
        Command::Place(setting) => {
            b.place(setting);
            put_noted(line)
        }
    }
}

// Does what a line asks. The answer has its line end.
pub fn put_answer(line: &mut Line, b: &mut Bench, input: &Input) -> fmt::Result {
    match input.text().and_then(understand) {
        Some(command) => obey(line, b, command)?,
        None => write!(line, "not understood")?,
    }
    writeln!(line)
}
