// The table of a rack: a row for each port, and what all of them take of the supply.
use offers::Asked;
use rack::{PORTS, Rack};
use slot::Slot;
use source::State;
use std::fmt;

// The whole table; of a rack without ports, its first line and its last.
#[derive(Clone, Copy)]
pub struct Table<'a>(pub &'a Rack);

impl fmt::Display for Table<'_> {
    fn fmt<W: fmt::Write>(&self, f: &mut fmt::Formatter<W>) -> fmt::Result {
        let rack = self.0;
        let n = (rack.count as usize).min(PORTS);
        f.write_str("port | state | contract | held | share | limit\n")?;
        for (i, slot) in rack.slots[..n].iter().enumerate() {
            writeln!(f, "{} | {}", i + 1, Row(slot))?;
        }
        writeln!(f, "rack | {} of {}", rack.load(), rack.supply)
    }
}

// What a row tells of a port, behind its number.
#[derive(Clone, Copy)]
struct Row<'a>(&'a Slot);

impl fmt::Display for Row<'_> {
    fn fmt<W: fmt::Write>(&self, f: &mut fmt::Formatter<W>) -> fmt::Result {
        let slot = self.0;
        let power = slot.port.power;
        write!(
            f,
            "{} | {} | {} | {} | {}",
            StateColumn(Some(slot.port.state)),
            Contract(power.contract),
            power.held,
            slot.share,
            slot.limit
        )
    }
}

#[derive(Clone, Copy)]
struct Contract(Option<Asked>);

impl fmt::Display for Contract {
    fn fmt<W: fmt::Write>(&self, f: &mut fmt::Formatter<W>) -> fmt::Result {
        match self.0 {
            None => f.write_str("none"),
            Some(a) => {
                // In hundredths: a voltage field counts steps of 50 mV, and a current field steps of 10 mA.
                let v = a.voltage as u64 * 5;
                let i = a.current;
                write!(
                    f,
                    "{}.{:02} V {}.{:02} A",
                    v / 100,
                    v % 100,
                    i / 100,
                    i % 100
                )
            }
        }
    }
}

// The state of a port, and a dash where there is no such port.
#[derive(Clone, Copy)]
pub struct StateColumn(pub Option<State>);

impl fmt::Display for StateColumn {
    fn fmt<W: fmt::Write>(&self, f: &mut fmt::Formatter<W>) -> fmt::Result {
        match self.0 {
            None => f.write_str("-"),
            Some(s) => write!(f, "{s}"),
        }
    }
}
