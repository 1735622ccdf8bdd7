// A line of input as it comes in, character by character, and what it asks once it is whole.
ghost use Rattle.std.specs.Prelude.{◌≤◌};

use message::Fields;

// What a line asks: to read a packet, or to write a message of some fields and object bytes.
pub enum Asked<'a> {
    Read(&'a [u8]),
    Write(Fields, &'a [u8]),
}

// The form of a line: a packet, given fields, what we send.
#[derive(Clone, Copy)]
enum Form {
    Packet,
    Write,
    Send,
}

// What follows the `@`: no `@` is there yet, nothing follows it yet, the size of the buffer, the place too.
#[derive(Clone, Copy)]
enum Room {
    NotGiven,
    Begun,
    Size(u8),
    SizeAndPlace(u8, u8),
}

#[derive(Clone, Copy)]
pub struct Input {
    form: Form,
    // The bytes before the `@`, at most 64 of them kept. Fixed memory, and no heap.
    bytes: [u8; 64],
    count: usize,
    room: Room,
    // The first digit of a byte whose second has not come.
    half: Option<u8>,
    // Whether any character, and any but a blank, has come.
    pub started: bool,
    begun: bool,
    odd: bool,
    ghost kept: { count ≤ 64 },
}

impl Input {
    pub fn new() -> Input {
        Input {
            form: Form::Packet,
            bytes: [0; 64],
            count: 0,
            room: Room::NotGiven,
            half: None,
            started: false,
            begun: false,
            odd: false,
        }
    }

    // Takes in one more character.
    pub fn push(&mut self, c: u8) {
        self.started = true;
        match c {
            // Nothing may come between the two digits of a byte.
            b' ' | b'\r' => self.odd |= self.half.is_some(),
            b'@' => self.at(),
            b'w' => self.begins(Form::Write),
            b's' => self.begins(Form::Send),
            _ => self.digit(c),
        }
    }

    // The `@` stands once.
    fn at(&mut self) {
        self.odd |= self.half.is_some() || !matches!(self.room, Room::NotGiven);
        self.begun = true;
        self.room = Room::Begun;
    }

    // `w` and `s` stand first.
    fn begins(&mut self, form: Form) {
        self.odd |= self.begun;
        self.begun = true;
        self.form = form;
    }

    fn digit(&mut self, c: u8) {
        let Some(digit) = char::from(c).to_digit(16) else {
            self.odd = true;
            return;
        };
        let digit = digit as u8;
        self.begun = true;
        match self.half.take() {
            Some(high) => self.byte(high << 4 | digit),
            None => self.half = Some(digit),
        }
    }

    fn byte(&mut self, b: u8) {
        match self.room {
            Room::NotGiven => self.keep(b),
            Room::Begun => self.room = Room::Size(b),
            Room::Size(size) => self.room = Room::SizeAndPlace(size, b),
            Room::SizeAndPlace(..) => self.odd = true,
        }
    }

    fn keep(&mut self, b: u8) {
        if self.count < 64 {
            self.bytes[self.count] = b;
            self.count += 1;
        }
    }

    // Whether both bytes follow the `@`, if it is there, and the size is not over 64.
    fn has_whole_room(&self) -> bool {
        match self.room {
            Room::NotGiven => true,
            Room::SizeAndPlace(size, _) => size <= 64,
            _ => false,
        }
    }

    // The size of the buffer and the place to write from: as given, else those of a message that needs so
    // many bytes.
    pub fn room(&self, needed: usize) -> (usize, usize) {
        match self.room {
            Room::SizeAndPlace(size, place) => (size as usize, place as usize),
            _ => (needed, 0),
        }
    }

    // What the line, now whole, asks; nothing where it cannot be understood.
    pub fn asked(&self) -> Option<Asked<'_>> {
        if self.odd || self.half.is_some() || !self.has_whole_room() {
            return None;
        }
        let bytes = &self.bytes[..self.count];
        match self.form {
            Form::Packet => Some(Asked::Read(bytes)),
            Form::Write => written(bytes),
            Form::Send => sent(bytes),
        }
    }
}

// Six fields, and object bytes.
fn written(bytes: &[u8]) -> Option<Asked<'_>> {
    let [
        extended,
        message_id,
        power_role,
        revision,
        data_role,
        message_type,
        objects @ ..,
    ] = bytes
    else {
        return None;
    };
    let fields = Fields {
        extended: *extended != 0,
        message_id: *message_id,
        power_role: *power_role,
        revision: *revision,
        data_role: *data_role,
        message_type: *message_type,
    };
    Some(Asked::Write(fields, objects))
}

// A type and a MessageID of ours, and object bytes.
fn sent(bytes: &[u8]) -> Option<Asked<'_>> {
    let [message_type, message_id, objects @ ..] = bytes else {
        return None;
    };
    let fields = sending::our_fields(*message_type, *message_id);
    Some(Asked::Write(fields, objects))
}
