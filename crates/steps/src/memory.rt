// A port's memory, as text.
use channel::Channel;
use offers::{Asked, Offer};
use port::Port;
use power::Power;
use std::fmt::{self, Write};
use telling::Sent;
use text::Line;

fn yes_or_no(yes: bool) -> &'static str {
    if yes { "yes" } else { "no" }
}

// A number under its name.
fn put_named(line: &mut Line, name: &str, n: u32) -> fmt::Result {
    line.write_str(name)?;
    line.put_decimal(n);
    Ok(())
}

fn put_channel(line: &mut Line, c: &Channel) -> fmt::Result {
    put_named(line, ", counter ", c.counter as u32)?;
    match c.stored {
        Some(id) => put_named(line, ", stored ", id as u32)?,
        None => write!(line, ", stored none")?,
    }
    write!(line, ", pending {}", Sent(&c.pending.packet))?;
    put_named(line, ", retries ", c.pending.retries as u32)
}

// The objects' bytes as a message of ours has them, behind its header.
fn put_offer(line: &mut Line, o: Offer) {
    let m = outgoing::with_objects(0, 0, o.objects, o.count);
    if let Some(objects) = m.bytes.get(2..m.length as usize) {
        line.put_bytes(objects);
    }
}

fn put_offers(line: &mut Line, p: &Port) -> fmt::Result {
    write!(line, ", newest ")?;
    put_offer(line, p.newest);
    write!(line, ", gone out {}, last ", yes_or_no(p.gone_out))?;
    put_offer(line, p.last);
    Ok(())
}

fn put_asked(line: &mut Line, name: &str, a: Asked) -> fmt::Result {
    put_named(line, name, a.position as u32)?;
    put_named(line, " ", a.voltage)?;
    put_named(line, " ", a.current)?;
    put_named(line, " ", a.worth)
}

fn put_power(line: &mut Line, w: &Power) -> fmt::Result {
    put_asked(line, ", accepted ", w.accepted)?;
    match w.contract {
        Some(a) => put_asked(line, ", contract ", a)?,
        None => write!(line, ", contract none")?,
    }
    put_named(line, ", held ", w.held)
}

pub fn put_memory(line: &mut Line, p: &Port) -> fmt::Result {
    write!(line, "{}", p.state)?;
    put_channel(line, &p.channel)?;
    put_offers(line, p)?;
    put_power(line, &p.power)?;
    put_named(line, ", count ", p.count as u32)?;
    write!(line, ", connected {}", yes_or_no(p.connected))
}
