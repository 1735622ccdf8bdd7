// The fields of a night, each told in a line. What a field comes to is `fields`' answer; here it is only
// written down.
ghost use Rattle.std.specs.Prelude.{◌≡◌, ◌+◌, ◌-◌, ◌%◌};
ghost use Rattle.rack.specs.Ports.{most_ports};
ghost use Rattle.fields.specs.Answers.{Through};

use crate::what::put_what;
use fields::{Field, alone};
use ground::Verdict;
use night::Found;
use port::{Actions, NO_ACTIONS};
use rack::{PORTS, Rack};
use source::State;
use std::fmt::{self, Write as _};
use std::io::{Stdout, Write as _};
use telling::{Answered, End, StateColumn, Table};
use text::Line;

// The text is written once there is so much of it; a line and a table have room behind that.
const MUCH: usize = 61440;

pub const TEXT: usize = 65536;

// Port 1 has the first slot. The remainder changes no number of a port, and shows that there is a slot for
// it.
fn slot_of(port: u8) -> usize
    ensures { result ≡ (port + most_ports - 1) % most_ports }
{
    (port as usize + PORTS - 1) % PORTS
}

// The state of a port of the rack.
fn state_in(r: &Rack, port: u8) -> Option<State> {
    if r.has(port) {
        return Some(r.slots[slot_of(port)].port.state);
    }
    None
}

// The number of the port that an event comes to: the first byte behind tag and length.
fn port_of(field: &[u8]) -> u8 {
    message::byte(field, 3)
}

// What has been told, and where it is told.
#[derive(Drop)]
pub struct Told<'a> {
    to: Stdout,
    // The text that is not written yet, and whether all before it could be written.
    line: Line<'a>,
    pub written: bool,
    // How many events there were.
    events: u64,
}

impl<'a> Told<'a> {
    pub fn new(to: Stdout, buffer: &'a mut [u8]) -> Told<'a> {
        Told {
            to,
            line: Line::new(buffer),
            written: true,
            events: 0,
        }
    }

    // Writes the text, unless some before it could not be written.
    fn say(&mut self) {
        if self.written {
            self.written = self.to.write_all(self.line.as_bytes()).is_ok();
        }
        self.line.end = 0;
    }

    fn say_much(&mut self) {
        if MUCH <= self.line.end {
            self.say();
        }
    }

    fn put_event(
        &mut self,
        field: &[u8],
        v: Verdict,
        a: Actions,
        state: Option<State>,
    ) -> fmt::Result {
        let line = &mut self.line;
        write!(line, "{} | port {} | ", self.events, port_of(field))?;
        put_what(line, field)?;
        writeln!(line, " | {} | {}", Answered(v, &a), StateColumn(state))
    }

    // An event, its answer, and the state that it led to.
    fn event(&mut self, field: &[u8], v: Verdict, a: Actions, state: Option<State>) {
        self.events = self.events.wrapping_add(1);
        // There is room.
        let _ = self.put_event(field, v, a, state);
        self.say_much();
    }

    // A set-up; where it is accepted, the table of the rack before it stands first, if there was one.
    fn put_set_up(&mut self, before: &Rack, field: &[u8], v: Verdict) -> fmt::Result {
        let line = &mut self.line;
        let Some(u) = night::set_up(field) else {
            return Ok(());
        };
        if v.is_ok() && 0 < before.count {
            write!(line, "{}", Table(before))?;
        }
        let answered = Answered(v, &NO_ACTIONS);
        writeln!(
            line,
            "set-up | ports {} | supply {} | {answered}",
            u.count, u.supply
        )
    }

    fn set_up(&mut self, before: &Rack, field: &[u8], v: Verdict) {
        let _ = self.put_set_up(before, field, v);
        self.say_much();
    }

    // A field that was read, over the rack before it.
    fn field(&mut self, field: &[u8], before: &Rack, f: &Field, port: u8) {
        match f.found {
            Found::SetUp => self.set_up(before, field, f.verdict),
            _ => self.event(field, f.verdict, f.actions, state_in(&f.rack, port)),
        }
    }

    // How the night ended, and the table.
    pub fn finish(&mut self, end: End, rack: &Rack) {
        let _ = write!(self.line, "{end}{}", Table(rack));
        self.say();
    }

    // Goes through a piece, up to the first field that cannot be read, and hands back its place. A port that
    // answers by itself is stepped in its place: to hand the whole rack on and back takes longer than most
    // answers.
    pub fn run(&mut self, rack: &mut Rack, s: &[u8]) -> usize
        ensures { Through rack.old s.now rack.new result }
    {
        let mut at: usize = 0;
        // There are at most as many fields as bytes, which is why it ends.
        for _turn in 0..s.len() {
            let field = &s[at..];
            let port = port_of(field);
            let i = slot_of(port);
            if let Ok(x) = alone::at_port(rack.slots[i], port, field)
                && rack.has(port)
            {
                at += x.size;
                rack.slots[i] = x.slot;
                self.event(field, x.verdict, x.actions, Some(x.slot.port.state));
                continue;
            }
            let Ok(f) = fields::first(*rack, field) else {
                return at;
            };
            at += f.size;
            self.field(field, rack, &f, port);
            *rack = f.rack;
        }
        at
    }
}
