// What came of a night: how many answers there were of each sort, and a checksum over all of them. It
// promises every count and the checksum by docs/REPLAY.md, for every answer, and rests on the port's
// answers.
#![tactic(auto)]

ghost use Rattle.std.specs.Prelude.{◌≡◌, ◌<◌};
ghost use Rattle.source.specs.declared.State.{State};
ghost use Rattle.tally.specs.Checksum.{mixed, verdict_number, timer_number, supply_number, crc_number, bit, mixed_packet, checked};
ghost use Rattle.tally.specs.Counts.{one_more, no_tally, comes_to, counted_if, told, sums_of, set_up_told};

use ground::Verdict;
use outgoing::Packet;
use port::{Actions, Supply};
use sending::HeaderBytes;
use source::{State, Timer};

#[derive(Clone, Copy)]
pub struct Tally {
    // Answers by the number of their verdict: those that were not refused stand first.
    pub verdicts: [u64; 11],
    pub sums: Sums,
}

// All of it but the answers by verdict: a loop that keeps those in their place need not hand them on.
#[derive(Clone, Copy)]
pub struct Sums {
    pub accepts: u64,
    pub rejects: u64,
    pub hard_resets: u64,
    pub checksum: u32,
}

// An event's answer: at which port, what was answered, the port's state before and after, and what it then
// holds.
#[derive(Clone, Copy)]
pub struct Answered {
    pub port: u8,
    pub verdict: Verdict,
    pub actions: Actions,
    pub before: State,
    pub after: State,
    pub held: u32,
}

// Nothing has been answered.
pub fn new() -> Tally
    ensures { result ≡ no_tally }
{
    Tally {
        verdicts: [0u64; 11],
        sums: Sums {
            accepts: 0,
            rejects: 0,
            hard_resets: 0,
            checksum: 0,
        },
    }
}

// The numbers below are docs/REPLAY.md's, by which answers go into the checksum.

// The number of a verdict, which is a place among the counts too.
pub fn verdict_number(v: Verdict) -> u8
    ensures { (result ≡ verdict_number v) × (result < 11) }
{
    match v {
        Ok(()) => 0,
        Err(r) => ground::number(r),
    }
}

fn timer_number(t: Option<Timer>) -> u8
    ensures { result ≡ timer_number t }
{
    match t {
        None => 0,
        Some(Timer::SenderResponse) => 1,
        Some(Timer::SourceCapability) => 2,
        Some(Timer::PsHardReset) => 3,
    }
}

fn supply_number(x: Option<Supply>) -> u8
    ensures { result ≡ supply_number x }
{
    match x {
        None => 0,
        Some(Supply::Default) => 255,
        Some(Supply::Position(n)) => n,
    }
}

#[tactic(auto, unfolding(crate::specs::Checksum::crc_number))]
fn crc_number(c: Option<HeaderBytes>) -> u32
    ensures { result ≡ crc_number c }
{
    match c {
        None => 0,
        Some(bytes) => message::word(&bytes) as u32,
    }
}

fn bit(b: bool) -> u32
    ensures { result ≡ bit b }
{
    b as u32
}

// The checksum with a number taken in.
#[tactic(auto, unfolding(crate::specs::Checksum::mixed))]
fn mixed(sum: u32, x: u32) -> u32
    ensures { result ≡ mixed sum x }
{
    ((sum as u64 * 16777619 + x as u64) % 4294967296) as u32
}

// The checksum with a message taken in: its length, then its bytes.
fn mixed_packet(sum: u32, m: Packet) -> u32
    ensures { result ≡ mixed_packet sum m }
{
    let n = (m.length as usize).min(30);
    let mut mix = mixed(sum, m.length as u32);
    for &b in &m.bytes[..n] {
        mix = mixed(mix, b as u32);
    }
    mix
}

// The checksum with an answer taken in.
#[tactic(auto, unfolding(crate::specs::Checksum::checked))]
fn checked(sum: u32, e: Answered) -> u32
    ensures { result ≡ checked sum e.port e.verdict e.actions e.after e.held }
{
    let a = e.actions;
    let begun = mixed(mixed(sum, e.port as u32), verdict_number(e.verdict) as u32);
    let stopped = mixed(
        mixed(begun, crc_number(a.good_crc)),
        timer_number(a.stop) as u32,
    );
    let sent = mixed_packet(stopped, a.transmit);
    let set = mixed(
        mixed(sent, bit(a.hard_reset)),
        supply_number(a.supply) as u32,
    );
    let started = mixed(set, timer_number(a.start) as u32);
    mixed(mixed(started, source::code_of(e.after) as u32), e.held)
}

// One more, as far as the place for it goes.
pub fn one_more(n: u64) -> u64
    ensures { result ≡ one_more n }
{
    n.saturating_add(1)
}

fn counted_if(b: bool, n: u64) -> u64
    ensures { result ≡ counted_if b n }
{
    if b { one_more(n) } else { n }
}

// Whether a port has come to a state from another.
fn comes_to(s: State, before: State, after: State) -> bool
    ensures { result ≡ comes_to s before after }
{
    !source::is(before, after) & source::is(after, s)
}

impl Tally {
    // The sums with an event's answer in them. Where this is a call, the loop over a night takes an eighth more
    // instructions.
    #[inline(always)]
    #[tactic(auto, unfolding(crate::specs::Counts::told))]
    pub fn sums(self, e: Answered) -> Sums
        ensures { result ≡ sums_of (told self e.port e.verdict e.actions e.before e.after e.held) }
    {
        let s = self.sums;
        Sums {
            accepts: counted_if(comes_to(State::Accepting, e.before, e.after), s.accepts),
            rejects: counted_if(comes_to(State::Refusing, e.before, e.after), s.rejects),
            hard_resets: counted_if(comes_to(State::Hard, e.before, e.after), s.hard_resets),
            checksum: checked(s.checksum, e),
        }
    }

    // An event's answer, taken in.
    #[tactic(auto, unfolding(crate::specs::Counts::told))]
    pub fn told(self, e: Answered) -> Tally
        ensures { result ≡ told self e.port e.verdict e.actions e.before e.after e.held }
    {
        let k = verdict_number(e.verdict) as usize;
        let mut t = self;
        t.verdicts[k] = one_more(t.verdicts[k]);
        t.sums = self.sums(e);
        t
    }

    // A set-up's answer: it is no event, and counts only where it is refused.
    #[tactic(auto, unfolding(crate::specs::Counts::set_up_told))]
    pub fn set_up_told(self, v: Verdict) -> Tally
        ensures { result ≡ set_up_told self v }
    {
        let k = verdict_number(v) as usize;
        let mut t = self;
        t.sums.checksum = mixed(t.sums.checksum, k as u32);
        if v.is_err() {
            t.verdicts[k] = one_more(t.verdicts[k]);
        }
        t
    }
}
