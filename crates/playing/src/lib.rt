// A night played over a rack: the loop that answers a million events. It keeps the ports in a local
// array and the sum of their loads in a number, and promises what stepping the rack field by field
// answers. It rests on the rack's step, by way of `plan`, and on the reading of a night's file.
#![tactic(auto)]

ghost use Rattle.std.specs.Prelude.{◌≡◌, ◌&&◌, ◌+◌, ◌-◌, ◌*◌, ◌≤◌, min, leb, length, Err};
ghost use Rattle.ground.specs.declared.Refusal.TheVariants.{NotInRack};
ghost use Rattle.source.specs.declared.State.{State};
ghost use Rattle.port.specs.Memory.{state_of, no_actions};
ghost use Rattle.rack.specs.Ports.{most_ports, loads};
ghost use Rattle.tally.specs.Counts.{told, sums_of};
ghost use Rattle.playing.specs.Nights.{begun, night_in};
ghost use Rattle.playing.specs.Meeting.{held_by, Small};

use ground::Refusal;
use night::Found;
use port::{Answer, NO_ACTIONS};
use rack::{PORTS, Rack};
use slot::{Beside, Slot};
use source::State;
use tally::{Answered, Sums, Tally};

mod laying;
mod turns;

#[derive(Clone, Copy)]
pub struct Played {
    pub rack: Rack,
    pub tally: Tally,
    // How many bytes were read.
    pub at: usize,
}

// An event at a number that is not in the rack is refused.
fn nobody(t: Tally, number: u8) -> Tally
    ensures { result ≡ told t number (Err NotInRack) no_actions State.Detached State.Detached 0 }
{
    t.told(Answered {
        port: number,
        verdict: Err(Refusal::NotInRack),
        actions: NO_ACTIONS,
        before: State::Detached,
        after: State::Detached,
        held: 0,
    })
}

// The answer of the port that an event came to, which was in a state before: all but the count by verdict.
fn answered(t: Tally, number: u8, was: State, a: Answer) -> Sums
    ensures { result ≡ sums_of (told t number a.verdict a.actions was (state_of a.port) a.port.power.held) }
{
    t.sums(Answered {
        port: number,
        verdict: a.verdict,
        actions: a.actions,
        before: was,
        after: a.port.state,
        held: a.port.power.held,
    })
}

// How many ports a rack of this count has.
fn ports(count: u8) -> usize
    ensures { result ≡ min count most_ports }
{
    (count as usize).min(PORTS)
}

// Whether a rack of this count has a port of this number. `Rack::has` takes a whole rack, and the loop holds
// its parts: a call would copy all slots at each event.
fn is_in(count: u8, number: u8) -> bool
    ensures { result ≡ (leb 1 number && leb number (min count most_ports)) }
{
    let n = ports(count);
    (1 <= number) & (number as usize <= n)
}

// What all ports take of the supply; and no port takes more than a number of its size can say, of which the
// contract of `Rack::load` says nothing.
fn summed(r: Rack) -> u64
    ensures { (result ≡ loads r) × Small r }
{
    let mut total: u64 = 0;
    for s in &r.slots[..ports(r.count)] {
        total += s.load() as u64;
    }
    total
}

// The sum of the loads once one of them was so much and is so much.
fn moved(total: u64, was: u32, is: u32) -> u64
    requires { (was ≤ total) × (total ≤ most_ports * 4294967295) }
    ensures { result ≡ total - was + is }
{
    total - was as u64 + is as u64
}

// What the loop holds, as it is handed back.
fn held(slots: [Slot; PORTS], count: u8, supply: u32, tally: Tally, at: usize) -> Played
    ensures { result ≡ held_by slots count supply tally at }
{
    Played {
        rack: Rack {
            slots,
            count,
            supply,
        },
        tally,
        at,
    }
}

// The fields of a night, from the first on up to one that cannot be read. It is longer than other functions, and
// keeps a rack in its parts: what a turn changes are locals, and a call would copy them (docs/SPEED.md).
pub fn night(r: Rack, t: Tally, s: &[u8]) -> Played
    ensures { result ≡ night_in (length s.now) (begun r t) s.now }
{
    let mut slots = r.slots;
    let mut count = r.count;
    let mut supply = r.supply;
    let mut total = summed(r);
    let mut tally = t;
    let mut at: usize = 0;
    // There are at most as many fields as bytes.
    for _ in 0..s.len() {
        let f = &s[at..];
        let found = night::next(f);
        if let Some(turn) = turns::turn_in(found) {
            let number = turn.number;
            at += night::size(f);
            if is_in(count, number) {
                let i = (number - 1) as usize;
                let t = slots[i];
                let state = t.port.state;
                let was = t.load();
                let beside = Beside {
                    others: total - was as u64,
                    supply,
                };
                let a = turns::stepped(t, turn.coming, f, beside);
                let q = laying::port(a.port);
                let u = Slot { port: q, ..t };
                slots[i] = u;
                total = moved(total, was, u.load());
                let sums = answered(tally, number, state, a);
                let k = tally::verdict_number(a.verdict) as usize;
                tally.verdicts[k] = tally::one_more(tally.verdicts[k]);
                tally.sums = sums;
                continue;
            }
            tally = nobody(tally, number);
            continue;
        }
        let Found::SetUp = found else {
            return held(slots, count, supply, tally, at);
        };
        let Some(u) = night::set_up(f) else {
            return held(slots, count, supply, tally, at);
        };
        at += night::size(f);
        match setup::set_up(u) {
            Ok(rack) => {
                tally = tally.set_up_told(Ok(()));
                slots = rack.slots;
                count = rack.count;
                supply = rack.supply;
                total = summed(rack);
                continue;
            }
            Err(no) => {
                tally = tally.set_up_told(Err(no));
                continue;
            }
        }
    }
    held(slots, count, supply, tally, at)
}
