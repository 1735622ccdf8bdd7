// What came to a port, in the words of docs/STEPS.md.
use night::Found;
use port::Event;
use std::fmt::{self, Write};
use text::Line;

fn name(e: Event) -> &'static str {
    match e {
        Event::Attach => "attach",
        Event::Detach => "detach",
        Event::HardReset => "hardreset",
        Event::Acknowledgement => "acknowledgement",
        Event::SenderResponse => "senderresponse",
        Event::SourceCapability => "sourcecapability",
        Event::PsHardReset => "pshardreset",
        Event::SupplyReady => "supplyready",
        Event::Yes => "yes",
        Event::No => "no",
    }
}

// Bytes under a name.
fn put_bytes(line: &mut Line, name: &str, bytes: &[u8]) -> fmt::Result {
    line.write_str(name)?;
    line.put_bytes(bytes);
    Ok(())
}

// The event of a field. A packet and a new offer are told with their bytes, unless there are more than a
// packet or an offer can have.
pub fn put_what(line: &mut Line, field: &[u8]) -> fmt::Result {
    let bytes = night::behind(field);
    let n = bytes.len();
    match night::next(field) {
        Found::Event(_, e) => line.write_str(name(e)),
        Found::Packet(_) if 30 < n => write!(line, "packet of {n} bytes"),
        Found::Packet(_) => put_bytes(line, "packet ", bytes),
        Found::NewOffer(_) if 28 < n => write!(line, "offer of {} objects", n / 4),
        Found::NewOffer(_) => put_bytes(line, "offer ", bytes),
        Found::Cut | Found::UnknownTag | Found::WrongLength | Found::SetUp => Ok(()),
    }
}
