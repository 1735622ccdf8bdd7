// Setting up a rack: which set-ups are good, and the rack that a good one gives. It promises the paper's
// rule for every set-up, and that nothing is set up by a bad one; it rests on the rack.
#![tactic(auto)]

ghost use Rattle.std.specs.Prelude.{◌≡◌, map};
ghost use Rattle.setup.specs.SetUps.{good_setting, good_set_up, slot_of, no_rack, accepted_set_up};

use ground::Refusal;
use offers::{NO_OFFER, Offer};
use port::Port;
use rack::{PORTS, Rack};
use slot::Slot;

pub const LARGEST_SUPPLY: u32 = 6400000;

const LARGEST_LIMIT: u32 = 200000;

// The least supply, and the least share.
const LEAST: u32 = 30000;

// A port of a set-up: its share, its limit and its first offer.
#[derive(Clone, Copy)]
pub struct Setting {
    pub share: u32,
    pub limit: u32,
    pub offer: Offer,
}

// Fixed memory, and no heap; and a count past the most is kept, since by it a set-up is a bad one (`good_count`).
#[derive(Clone, Copy)]
pub struct SetUp {
    pub settings: [Setting; PORTS],
    // How many of the settings there are.
    pub count: u8,
    pub supply: u32,
}

// A set-up with no port and no supply. What its settings say counts for nothing.
pub const NO_SET_UP: SetUp = SetUp {
    settings: [Setting {
        share: 0,
        limit: 0,
        offer: NO_OFFER,
    }; PORTS],
    count: 0,
    supply: 0,
};

// Whether a port may stand in a set-up.
#[tactic(auto, unfolding(crate::specs::SetUps::good_setting))]
fn good_setting(s: Setting) -> bool
    ensures { result ≡ good_setting s }
{
    let offered = offers::good(s.limit, s.offer);
    (LEAST <= s.share) & (s.share <= s.limit) & (s.limit <= LARGEST_LIMIT) & offered
}

// Whether a set-up is good.
pub fn good(u: SetUp) -> bool
    ensures { result ≡ good_set_up u }
{
    let n = u.count as usize;
    if n < 1 || PORTS < n {
        return false;
    }
    let mut shares: u64 = 0;
    for &s in &u.settings[..n] {
        if !good_setting(s) {
            return false;
        }
        shares += s.share as u64;
    }
    (LEAST <= u.supply) & (u.supply <= LARGEST_SUPPLY) & (shares <= u.supply as u64)
}

// A detached port with its first offer.
fn slot_of(s: Setting) -> Slot
    ensures { result ≡ slot_of s }
{
    Slot {
        port: Port::new(s.offer),
        share: s.share,
        limit: s.limit,
    }
}

// By `map` the kit makes two arrays more, of 5 KB each: a night of nothing but set-ups of one port took half as long again.
fn slots_of(settings: [Setting; PORTS]) -> [Slot; PORTS]
    ensures { result ≡ map slot_of settings }
{
    let mut slots = [slot_of(settings[0]); PORTS];
    for i in 0..PORTS {
        slots[i] = slot_of(settings[i]);
    }
    slots
}

// A rack without ports, which is there before the first set-up.
pub fn no_rack() -> Rack
    ensures { result ≡ no_rack }
{
    let nobody = Slot {
        port: Port::new(NO_OFFER),
        share: 0,
        limit: 0,
    };
    Rack {
        slots: [nobody; PORTS],
        count: 0,
        supply: 0,
    }
}

// The rack of a set-up, every port detached; a bad set-up is refused, and nothing is set up.
#[tactic(auto, unfolding(crate::specs::SetUps::accepted_set_up))]
pub fn set_up(u: SetUp) -> Result<Rack, Refusal>
    ensures { result ≡ accepted_set_up u }
{
    if !good(u) {
        return Err(Refusal::BadSetUp);
    }
    Ok(Rack {
        slots: slots_of(u.settings),
        count: u.count,
        supply: u.supply,
    })
}
