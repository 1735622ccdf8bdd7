// A port laid out anew, number by number, and the same port. A struct that is copied whole is copied with
// the unused bytes between its numbers, one and two at a time: that was a fifth of the loop's instructions.
ghost use Rattle.std.specs.Prelude.{◌≡◌};

use offers::{Asked, Offer};
use port::Port;
use power::Power;

fn offer(o: Offer) -> Offer
    ensures { result ≡ o }
{
    let objects = o.objects;
    Offer {
        objects,
        count: o.count,
    }
}

fn asked(a: Asked) -> Asked
    ensures { result ≡ a }
{
    Asked {
        position: a.position,
        voltage: a.voltage,
        current: a.current,
        worth: a.worth,
    }
}

fn contract(c: Option<Asked>) -> Option<Asked>
    ensures { result ≡ c }
{
    c.map(asked)
}

fn power(w: Power) -> Power
    ensures { result ≡ w }
{
    Power {
        accepted: asked(w.accepted),
        contract: contract(w.contract),
        held: w.held,
    }
}

pub(crate) fn port(p: Port) -> Port
    ensures { result ≡ p }
{
    Port {
        state: p.state,
        channel: p.channel,
        newest: offer(p.newest),
        gone_out: p.gone_out,
        last: offer(p.last),
        power: power(p.power),
        count: p.count,
        connected: p.connected,
    }
}
