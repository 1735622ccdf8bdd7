// Where the rules lead, and what the power rule answers.
ghost use Rattle.std.specs.Prelude.{◌≡◌};
ghost use Rattle.stimuli.specs.Leads.{leads};
ghost use Rattle.hearing.specs.Packets.{on_packet};
ghost use Rattle.port.specs.Memory.{state_of, facts_of};
ghost use Rattle.plan.specs.Plans.{goes, is_judge, still_runs, plan_led, plan_heard, plan_of, answered_by, with_answer};

use crate::{Cue, Met, Plan};
use ground::Refusal;
use port::Port;
use power::Change;
use slot::{Beside, Slot};
use source::{Heard, Stimulus, Timer, Way};

fn goes(m: Met, runs: Option<Timer>, change: Change, asks: bool, way: Way) -> Plan
    ensures { result ≡ goes m runs change asks way }
{
    Plan {
        prior: m.prior,
        crc: m.crc,
        runs,
        change,
        way,
        asks,
        asked: m.asked,
    }
}

fn is_judge(w: Way) -> bool
    ensures { result ≡ is_judge w }
{
    matches!(w, Way::Judge)
}

fn still_runs(expired: bool, t: Option<Timer>) -> Option<Timer>
    ensures { result ≡ still_runs expired t }
{
    if expired { None } else { t }
}

fn led(e: Stimulus, expired: bool, p: Port, m: Met) -> Result<Plan, Refusal>
    ensures { result ≡ plan_led (leads (state_of p) e (facts_of p)) e expired p m }
{
    let way = stimuli::leads(p.state, e, p.facts()).ok_or(Refusal::NotAwaited)?;
    let runs = still_runs(expired, p.runs());
    Ok(goes(m, runs, source::change(p.state, e), false, way))
}

fn heard(h: Heard, p: Port, m: Met) -> Result<Plan, Refusal>
    ensures { result ≡ plan_heard (on_packet (state_of p) h) p m }
{
    let way = hearing::packet_leads(p.state, h).ok_or(Refusal::NotAwaited)?;
    Ok(goes(m, p.runs(), Change::Nothing, is_judge(way), way))
}

#[tactic(auto, unfolding(crate::specs::Plans::plan_of))]
pub(crate) fn decided(p: Port, m: Met) -> Result<Plan, Refusal>
    ensures { result ≡ plan_of p m }
{
    match m.cue {
        Cue::Refused(r) => Err(r),
        Cue::Done => Ok(goes(m, None, Change::Nothing, false, Way::Stay)),
        Cue::Meets(e, expired) => led(e, expired, p, m),
        Cue::Hears(h) => heard(h, p, m),
    }
}

fn answered(x: Plan, yes: bool) -> Plan
    ensures { result ≡ answered_by yes x }
{
    let (change, way) = if yes {
        (Change::Accepted, Way::Accepting)
    } else {
        (Change::Nothing, Way::Refusing)
    };
    Plan {
        change,
        way,
        asks: true,
        ..x
    }
}

// With the power answer, where it is asked for.
#[tactic(auto, unfolding(crate::specs::Plans::with_answer))]
pub(crate) fn settled(t: Slot, x: Plan, beside: Beside) -> Plan
    ensures { result ≡ with_answer t beside.others beside.supply x }
{
    if x.asks {
        answered(x, t.approves(beside, x.asked.worth))
    } else {
        x
    }
}
