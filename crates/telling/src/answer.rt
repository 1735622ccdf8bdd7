// What is said of an event: its refusal, or its actions.
use ground::Verdict;
use outgoing::Packet;
use port::{Actions, Supply};
use std::fmt::{self, Display};
use text::Line;

// The refusal, or the actions where there is none.
#[derive(Clone, Copy)]
pub struct Answered<'a>(pub Verdict, pub &'a Actions);

impl Display for Answered<'_> {
    fn fmt<W: fmt::Write>(&self, f: &mut fmt::Formatter<W>) -> fmt::Result {
        match self.0 {
            Ok(()) => Done(self.1).fmt(f),
            Err(r) => write!(f, "refused {}, {r}", Number(ground::number(r))),
        }
    }
}

// The actions in the order in which they are done.
#[derive(Clone, Copy)]
struct Done<'a>(&'a Actions);

impl Display for Done<'_> {
    fn fmt<W: fmt::Write>(&self, f: &mut fmt::Formatter<W>) -> fmt::Result {
        let a = self.0;
        let mut between = "";
        if let Some(crc) = &a.good_crc {
            write!(f, "GoodCRC {}", Hex(crc))?;
            between = "; ";
        }
        if let Some(timer) = a.stop {
            write!(f, "{between}stop {timer}")?;
            between = "; ";
        }
        if a.transmit.length != 0 {
            write!(f, "{between}transmit {}", Sent(&a.transmit))?;
            between = "; ";
        }
        if a.hard_reset {
            write!(f, "{between}signal Hard Reset")?;
            between = "; ";
        }
        if let Some(supply) = a.supply {
            write!(f, "{between}{}", Supplied(supply))?;
            between = "; ";
        }
        if let Some(timer) = a.start {
            write!(f, "{between}start {timer}")?;
            between = "; ";
        }
        if between.is_empty() {
            return f.write_str("none");
        }
        Ok(())
    }
}

#[derive(Clone, Copy)]
struct Supplied(Supply);

impl Display for Supplied {
    fn fmt<W: fmt::Write>(&self, f: &mut fmt::Formatter<W>) -> fmt::Result {
        match self.0 {
            Supply::Default => f.write_str("supply default"),
            Supply::Position(n) => write!(f, "supply {}", Number(n)),
        }
    }
}

// The bytes of a message of ours; all that there are where they are said to be more.
#[derive(Clone, Copy)]
pub struct Sent<'a>(pub &'a Packet);

impl Display for Sent<'_> {
    fn fmt<W: fmt::Write>(&self, f: &mut fmt::Formatter<W>) -> fmt::Result {
        let m = self.0;
        let n = (m.length as usize).min(m.bytes.len());
        Hex(&m.bytes[..n]).fmt(f)
    }
}

// A small number in decimal: its digits are those that `text` promises.
#[derive(Clone, Copy)]
struct Number(u8);

impl Display for Number {
    fn fmt<W: fmt::Write>(&self, f: &mut fmt::Formatter<W>) -> fmt::Result {
        let mut room = [0; 3];
        let mut line = Line::new(&mut room);
        line.put_number(self.0);
        put_line(f, &line)
    }
}

// Bytes in hexadecimal with a blank between two, or a dash where there are none.
#[derive(Clone, Copy)]
struct Hex<'a>(&'a [u8]);

impl Display for Hex<'_> {
    fn fmt<W: fmt::Write>(&self, f: &mut fmt::Formatter<W>) -> fmt::Result {
        // In one piece: a piece for each byte takes `replay` an eighth longer.
        let mut room = [0; 90];
        let mut line = Line::new(&mut room);
        line.put_bytes(self.0);
        put_line(f, &line)
    }
}

// What stands in a line of letters and digits.
fn put_line<W: fmt::Write>(f: &mut fmt::Formatter<W>, line: &Line) -> fmt::Result {
    f.write_str(str::from_utf8(line.as_bytes()).unwrap_or_default())
}
