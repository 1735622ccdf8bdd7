// The step of a port: the protocol rules, what happens to held power, and where the states lead.
ghost use Rattle.std.specs.Prelude.{◌≡◌};
ghost use Rattle.port.specs.Parts.{power_is};
ghost use Rattle.port.specs.Memory.{cleared, facts_of, running_in, refused_by};
ghost use Rattle.port.specs.Steps.{with_change, answered, turn, happens, ending, acknowledged, failed, resent, by_outcome, nothing_done, replaced};
ghost use Rattle.power.specs.declared.Change.{Change};
ghost use Rattle.power.specs.Power.{changed};

use crate::{Actions, Answer, Entered, NO_ACTIONS, Port};
use channel::Outcome;
use ground::Refusal;
use offers::{Asked, Offer};
use power::{Change, NOTHING_ASKED};
use sending::HeaderBytes;
use source::{Facts, State, Stimulus, Timer, Way};

// The whole answer of a port that was in a state and has gone some way.
fn answered(
    before: State,
    crc: Option<HeaderBytes>,
    runs: Option<Timer>,
    change: Change,
    e: Entered,
) -> Answer
    ensures { result ≡ answered before crc runs change e }
{
    Answer {
        verdict: Ok(()),
        port: e.port,
        actions: Actions {
            good_crc: crc,
            stop: source::stopped(before, e.port.state, runs),
            transmit: e.transmit,
            hard_reset: e.hard_reset,
            supply: e.supply,
            start: e.start,
        },
        held: change,
    }
}

impl Port {
    // A refusal: the very same port, and no action.
    pub fn refused(self, r: Refusal) -> Answer
        ensures { result ≡ refused_by r self }
    {
        Answer {
            verdict: Err(r),
            port: self,
            actions: NO_ACTIONS,
            held: Change::Nothing,
        }
    }

    pub(crate) fn cleared(self) -> Port
        ensures { result ≡ cleared self }
    {
        Port::new(self.newest)
    }

    // With a new offer, which has not gone out.
    pub fn replaced(self, o: Offer) -> Port
        ensures { result ≡ replaced self o }
    {
        Port {
            newest: o,
            gone_out: false,
            ..self
        }
    }

    pub fn facts(self) -> Facts
        ensures { result ≡ facts_of self }
    {
        Facts {
            pending: self.channel.is_pending(),
            connected: self.connected,
            gone_out: self.gone_out,
            fifty: 50 <= self.count,
            standing: self.power.standing(self.last),
        }
    }

    // The timer that runs.
    pub fn runs(self) -> Option<Timer>
        ensures { result ≡ running_in self }
    {
        source::running(self.state, self.channel.is_pending())
    }

    fn with_power(self, c: Change) -> Port
        ensures { result ≡ power_is (changed c self.power) self }
    {
        Port {
            power: self.power.changed(c),
            ..self
        }
    }

    // Given up: contract, held, count and connected cleared.
    fn gives_up(self) -> Port
        ensures { result ≡ with_change Change.GivenUp self }
    {
        Port {
            count: 0,
            connected: false,
            ..self.with_power(Change::GivenUp)
        }
    }

    fn with_change(self, c: Change) -> Port
        ensures { result ≡ with_change c self }
    {
        match c {
            Change::Nothing => self,
            Change::Accepted | Change::InForce => self.with_power(c),
            Change::GivenUp => self.gives_up(),
        }
    }

    // A port that was in a state goes where the rules lead.
    #[tactic(auto, unfolding(crate::specs::Steps::turn))]
    pub fn turn(
        self,
        before: State,
        crc: Option<HeaderBytes>,
        runs: Option<Timer>,
        change: Change,
        way: Way,
        a: Asked,
    ) -> Answer
        ensures { result ≡ turn self before crc runs change way a }
    {
        let e = self.with_change(change).enter(way, a);
        answered(before, crc, runs, change, e)
    }

    // The port meets a stimulus: `after` is the port after the protocol rules, `runs` the timer that
    // still runs.
    #[tactic(auto, unfolding(crate::specs::Steps::happens))]
    pub(crate) fn happens(self, e: Stimulus, after: Port, runs: Option<Timer>) -> Answer
        ensures { result ≡ happens self e after runs }
    {
        match stimuli::leads(self.state, e, self.facts()) {
            None => self.refused(Refusal::NotAwaited),
            Some(way) => {
                let change = source::change(self.state, e);
                after.turn(self.state, None, runs, change, way, NOTHING_ASKED)
            }
        }
    }

    // The pending message is gone, and the counter one on.
    fn ending(self) -> Port
        ensures { result ≡ ending self }
    {
        Port {
            channel: self.channel.ended(),
            ..self
        }
    }

    #[tactic(auto, unfolding(crate::specs::Steps::acknowledged))]
    fn acknowledged(self) -> Answer
        ensures { result ≡ acknowledged self }
    {
        self.happens(Stimulus::Acknowledged, self.ending(), self.runs())
    }

    #[tactic(auto, unfolding(crate::specs::Steps::failed))]
    fn failed(self) -> Answer
        ensures { result ≡ failed self }
    {
        self.happens(Stimulus::Failed, self.ending(), self.runs())
    }

    // The pending message goes out again.
    #[tactic(auto, unfolding(crate::specs::Steps::resent))]
    fn resent(self) -> Answer
        ensures { result ≡ resent self }
    {
        let e = Entered {
            port: Port {
                channel: self.channel.again(),
                ..self
            },
            transmit: self.channel.pending.packet,
            hard_reset: false,
            supply: None,
            start: None,
        };
        answered(self.state, None, None, Change::Nothing, e)
    }

    // What a GoodCRC or the acknowledgement timer comes to; `none` is the answer where nothing is pending.
    #[tactic(auto, unfolding(crate::specs::Steps::by_outcome))]
    pub(crate) fn by_outcome(self, o: Outcome, none: Answer) -> Answer
        ensures { result ≡ by_outcome o none self }
    {
        match o {
            Outcome::NonePending => none,
            Outcome::Acknowledged => self.acknowledged(),
            Outcome::Again => self.resent(),
            Outcome::Failed => self.failed(),
        }
    }

    // Nothing is done, but perhaps a GoodCRC sent.
    #[tactic(auto, unfolding(crate::specs::Steps::nothing_done))]
    pub(crate) fn nothing_done(self, crc: Option<HeaderBytes>) -> Answer
        ensures { result ≡ nothing_done crc self }
    {
        answered(self.state, crc, None, Change::Nothing, self.starts(None))
    }
}
