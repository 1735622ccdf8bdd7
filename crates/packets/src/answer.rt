// The answer to a line, as text. The line has room for the longest.
use crate::input::{Asked, Input};
use ground::Refusal;
use message::Fields;
use reading::Message;
use std::array;
use std::fmt::{self, Write};
use text::Line;

// A number under its name.
fn put_named(line: &mut Line, name: &str, n: u8) -> fmt::Result {
    line.write_str(name)?;
    line.put_number(n);
    Ok(())
}

fn put_refusal(line: &mut Line, r: Refusal) -> fmt::Result {
    put_named(line, "refused ", ground::number(r))?;
    write!(line, ", {r}")
}

// Writes a message into a buffer of which byte i holds i, and says what came of it.
fn put_writing(line: &mut Line, f: Fields, objects: &[u8], input: &Input) -> fmt::Result {
    let mut bytes: [u8; 64] = array::from_fn(|i| i as u8);
    let (size, place) = input.room(2 + objects.len());
    // No size is over 64.
    let buffer = &mut bytes[..size.min(64)];
    match writing::write(f, objects, buffer, place) {
        Ok(n) => {
            // A message has 30 bytes at most.
            put_named(line, "written: ", (n % 256) as u8)?;
            line.write_str(" bytes")?;
        }
        Err(r) => put_refusal(line, r)?,
    }
    write!(line, "; buffer: ")?;
    line.put_bytes(buffer);
    Ok(())
}

fn put_fields(line: &mut Line, f: Fields) -> fmt::Result {
    put_named(line, "; MessageID ", f.message_id)?;
    put_named(line, "; power role ", f.power_role)?;
    put_named(line, "; revision ", f.revision)?;
    put_named(line, "; data role ", f.data_role)?;
    put_named(line, "; type ", f.message_type)
}

// All that reading gives, and our GoodCRC for such a packet.
fn put_message(line: &mut Line, m: Message, objects: &[u8]) -> fmt::Result {
    let kind = meaning::kind_of(m.fields.extended, m.objects);
    let meaning = meaning::meaning_of(kind, m.fields.message_type);
    write!(line, "{kind}, {meaning}")?;
    put_fields(line, m.fields)?;
    put_named(line, "; objects ", m.objects)?;
    write!(line, ": ")?;
    line.put_bytes(objects);
    write!(line, " | GoodCRC: ")?;
    line.put_bytes(&sending::good_crc(m.fields));
    write!(line, " | ")
}

fn put_reading(line: &mut Line, packet: &[u8], input: &Input) -> fmt::Result {
    write!(line, "read: ")?;
    match reading::read(packet) {
        Ok(m) => {
            let objects = reading::objects(packet);
            put_message(line, m, objects)?;
            put_writing(line, m.fields, objects, input)
        }
        Err(r) => put_refusal(line, r),
    }
}

// The answer, with its line end.
pub fn put_answer(line: &mut Line, input: &Input) -> fmt::Result {
    match input.asked() {
        Some(Asked::Read(packet)) => put_reading(line, packet, input)?,
        Some(Asked::Write(f, objects)) => put_writing(line, f, objects, input)?,
        None => write!(line, "not understood")?,
    }
    writeln!(line)
}
