// What a source offers and what may be asked of it: the objects of an offer, a good offer, and
// whether a Request fits. It promises all of it by the paper's sentences, and rests on the message's
// notion of a field of bits.
#![tactic(auto)]

ghost use Rattle.std.specs.Prelude.{◌≡◌};
ghost use Rattle.offers.specs.Objects.{voltage_of, current_of, position_of, is_mismatch, operating_of, maximum_of};
ghost use Rattle.offers.specs.Offers.{has, object_at, good_object, good_from, good_offer};
ghost use Rattle.offers.specs.Requests.{fits, asked, fit_of, is_honoured};

// An offer: its objects, as 32-bit words, and how many of them there are. Fixed memory, and no heap; and a count
// past the seventh is kept, since by it an offer is a bad one (`good_offer`).
#[derive(Clone, Copy)]
pub struct Offer {
    pub objects: [u32; 7],
    pub count: u8,
}

// An offer of nothing.
pub const NO_OFFER: Offer = Offer {
    objects: [0u32; 7],
    count: 0,
};

// What a Request asks: the position in the offer, the voltage field there, the operating current
// field, and the worth of the two.
#[derive(Clone, Copy)]
pub struct Asked {
    pub position: u8,
    pub voltage: u32,
    pub current: u32,
    pub worth: u32,
}

// The voltage field of a fixed supply object, in 50 mV.
pub fn voltage(object: u32) -> u32
    ensures { result ≡ voltage_of object }
{
    object / 1024 % 1024
}

// The current field of a fixed supply object, in 10 mA.
pub fn current(object: u32) -> u32
    ensures { result ≡ current_of object }
{
    object % 1024
}

fn position(request: u32) -> u8
    ensures { result ≡ position_of request }
{
    (request / 268435456 % 16) as u8
}

// Whether a Request sets capability mismatch: the receiver wants more than is offered.
fn is_mismatch(request: u32) -> bool
    ensures { result ≡ is_mismatch request }
{
    request / 67108864 % 2 == 1
}

fn operating(request: u32) -> u32
    ensures { result ≡ operating_of request }
{
    request / 1024 % 1024
}

fn maximum(request: u32) -> u32
    ensures { result ≡ maximum_of request }
{
    request % 1024
}

// Whether an offer has an object at a position, counted from 1.
fn has_object(o: Offer, position: u8) -> bool
    ensures { result ≡ has o position }
{
    (1 <= position) & (position <= o.count)
}

// The object at a position, counted from 1; zero where no object can be.
#[tactic(auto, using(crate::proofs::Laws::before_first, crate::proofs::Laws::past_last, crate::proofs::Laws::at_position), unfolding(crate::specs::Offers::object_at))]
fn object_at(o: Offer, position: u8) -> u32
    ensures { result ≡ object_at o position }
{
    match position {
        1..=7 => o.objects[(position - 1) as usize],
        _ => 0,
    }
}

// Whether an object may stand in an offer of a port with this limit.
#[tactic(auto, unfolding(crate::specs::Offers::good_object))]
fn good_object(limit: u32, x: u32) -> bool
    ensures { result ≡ good_object limit x }
{
    let v = voltage(x);
    let c = current(x);
    let w = v * c;
    (x / 1073741824 % 4 == 0) & (v <= 400) & (c <= 500) & (w <= limit)
}

// Whether these objects are good, each of a higher voltage than the one before it.
#[tactic(auto, using(crate::proofs::Laws::go_on, crate::proofs::Laws::stop, crate::proofs::Laws::all_done))]
fn good_objects(limit: u32, objects: &[u32]) -> bool
    ensures { result ≡ good_from limit 0 objects.now }
{
    let mut before: u32 = 0;
    for &x in objects {
        let v = voltage(x);
        if !(good_object(limit, x) && before < v) {
            return false;
        }
        before = v;
    }
    true
}

// Whether an offer is good for a port with this limit.
#[tactic(auto, unfolding(crate::specs::Offers::good_offer))]
pub fn good(limit: u32, o: Offer) -> bool
    ensures { result ≡ good_offer limit o }
{
    let n = o.count as usize;
    let first = voltage(object_at(o, 1)) == 100;
    (1..=7).contains(&n) && first && good_objects(limit, &o.objects[..n])
}

// Whether a Request of this many objects fits an offer. With capability mismatch set its maximum may
// be over what is offered; what it draws, the operating current, may not.
#[tactic(auto, unfolding(crate::specs::Requests::fits))]
fn fits_offer(count: u8, request: u32, o: Offer) -> bool
    ensures { result ≡ fits count request o }
{
    let p = position(request);
    let there = has_object(o, p);
    let most = current(object_at(o, p));
    let mismatch = is_mismatch(request);
    (count == 1) & there & (operating(request) <= most) & (mismatch | (maximum(request) <= most))
}

// What a Request asks of an offer that it fits.
#[tactic(auto, unfolding(crate::specs::Requests::asked))]
fn asked_of(request: u32, o: Offer) -> Asked
    ensures { result ≡ asked request o }
{
    let p = position(request);
    let v = voltage(object_at(o, p));
    let c = operating(request);
    Asked {
        position: p,
        voltage: v,
        current: c,
        worth: v * c,
    }
}

// What a Request asks, of this many objects and with this first one, where it fits an offer.
#[tactic(auto, unfolding(crate::specs::Requests::fit_of))]
pub fn judge(count: u8, request: u32, o: Offer) -> Option<Asked>
    ensures { result ≡ fit_of count request o }
{
    if fits_offer(count, request, o) {
        Some(asked_of(request, o))
    } else {
        None
    }
}

// Whether an offer still has what was agreed: the same voltage at its position, and at least its
// current.
#[tactic(auto, unfolding(crate::specs::Requests::is_honoured))]
pub fn honoured(a: Asked, o: Offer) -> bool
    ensures { result ≡ is_honoured a o }
{
    let there = has_object(o, a.position);
    let x = object_at(o, a.position);
    there & (voltage(x) == a.voltage) & (a.current <= current(x))
}
