// What is decided is done.
ghost use Rattle.std.specs.Prelude.{◌≡◌};
ghost use Rattle.plan.specs.Plans.{after, judging, base, channel_after, is_heard, power_judging, transmits, resends, performed};

use crate::{Plan, Prior};
use channel::Channel;
use offers::{Asked, Offer};
use outgoing::Packet;
use port::{Actions, Answer, Port};
use power::Power;

// The port that goes on, its channel aside: as it was, cleared, or with its new offer.
fn base(x: Prior, o: Offer, p: Port) -> Port
    ensures { result ≡ base x o p }
{
    match x {
        Prior::Cleared => Port::new(p.newest),
        Prior::Replaced => p.replaced(o),
        _ => p,
    }
}

// Its channel, as the protocol rules leave it.
fn channel_after(x: Prior, c: Channel) -> Channel
    ensures { result ≡ channel_after x c }
{
    match x {
        Prior::Cleared => channel::new(),
        Prior::Ended => c.ended(),
        Prior::Again => c.again(),
        Prior::Heard(id, soft) => c.heard(id, soft),
        Prior::Nothing | Prior::Replaced => c,
    }
}

fn is_heard(x: Prior) -> bool
    ensures { result ≡ is_heard x }
{
    matches!(x, Prior::Heard(_, _))
}

// Its power, with the Request that is judged.
fn power_judging(asks: bool, a: Asked, w: Power) -> Power
    ensures { result ≡ power_judging asks a w }
{
    if asks { w.judges(a) } else { w }
}

// The port before it goes where the rules lead. Its parts are made one by one: a port that is handed from
// call to call is copied at each.
fn ready(x: Prior, asks: bool, a: Asked, o: Offer, p: Port) -> Port
    ensures { result ≡ judging asks a (after x o p) }
{
    let channel = channel_after(x, p.channel);
    let mut q = base(x, o, p);
    let power = power_judging(asks, a, q.power);
    let heard = is_heard(x);
    q.channel = channel;
    q.power = power;
    q.connected = heard | q.connected;
    q
}

fn transmits(m: Packet, a: Answer) -> Answer
    ensures { result ≡ transmits m a }
{
    Answer {
        actions: Actions {
            transmit: m,
            ..a.actions
        },
        ..a
    }
}

// Where the pending message goes out again, it does so here.
fn resends(x: Prior, m: Packet, a: Answer) -> Answer
    ensures { result ≡ resends x m a }
{
    match x {
        Prior::Again => transmits(m, a),
        _ => a,
    }
}

#[tactic(auto, unfolding(crate::specs::Plans::performed))]
pub(crate) fn performed(p: Port, o: Offer, x: Plan) -> Answer
    ensures { result ≡ performed p o x }
{
    let q = ready(x.prior, x.asks, x.asked, o, p);
    let turned = q.turn(p.state, x.crc, x.runs, x.change, x.way, x.asked);
    resends(x.prior, p.channel.pending.packet, turned)
}
