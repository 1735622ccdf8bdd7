// A rack group: its port groups, and the supply behind them.
ghost use Rattle.std.specs.Prelude.{◌≡◌, ◌+◌, min, length};
ghost use Rattle.night.specs.SetUps.{head_is, is_setting, setting_of, is_port, is_supply, placed, no_set_up, group_in};

use rack::PORTS;
use setup::{NO_SET_UP, SetUp, Setting};

// Whether a field's tag and length stand at a place.
#[tactic(auto, unfolding(crate::specs::Fields::tag_of, crate::specs::SetUps::head_is))]
fn head_is(s: &[u8], at: usize, tag: u8, length: usize) -> bool
    ensures { result ≡ head_is s.now at tag length }
{
    let there = message::byte(crate::from(s, at), 0);
    let long = crate::length(crate::from(s, at));
    (there == tag) & (long == length)
}

// Whether a port group's value is share, limit and offer objects.
#[tactic(auto, unfolding(crate::specs::SetUps::is_setting))]
fn is_setting(v: &[u8]) -> bool
    ensures { result ≡ is_setting v.now }
{
    let n = v.len();
    if n < 17 {
        return false;
    }
    let objects = n - 17;
    let share = head_is(v, 0, 19, 4);
    let limit = head_is(v, 7, 20, 4);
    let offer = head_is(v, 14, 21, objects);
    (objects % 4 == 0) & (share & (limit & offer))
}

// What such a value says.
#[tactic(auto, unfolding(crate::specs::SetUps::setting_of))]
fn setting_of(v: &[u8]) -> Setting
    ensures { result ≡ setting_of v.now }
{
    let offer = crate::offer_in(crate::from(v, 17));
    Setting {
        share: crate::number(v, 3),
        limit: crate::number(v, 10),
        offer,
    }
}

// Whether a port group stands here, whole.
#[tactic(auto, unfolding(crate::specs::Fields::tag_of, crate::specs::SetUps::is_port))]
fn is_port(s: &[u8]) -> bool
    ensures { result ≡ is_port s.now }
{
    let tag = message::byte(s, 0);
    let laid = is_setting(crate::value(s));
    (tag == 17) & laid
}

// Whether the supply stands here, and nothing behind it.
#[tactic(auto, unfolding(crate::specs::SetUps::is_supply))]
fn is_supply(s: &[u8]) -> bool
    ensures { result ≡ is_supply s.now }
{
    let n = s.len();
    let head = head_is(s, 0, 18, 4);
    (n == 7) & head
}

// One more, as far as a count goes.
fn counted(count: u8) -> u8
    ensures { result ≡ min (count + 1) 255 }
{
    count.saturating_add(1)
}

// A set-up with one port more. One past the most is counted, and has no place.
#[tactic(auto, unfolding(crate::specs::SetUps::placed))]
fn placed(u: SetUp, s: Setting) -> SetUp
    ensures { result ≡ placed u s }
{
    let i = u.count as usize;
    let mut more = u;
    more.count = counted(u.count);
    if i < PORTS {
        more.settings[i] = s;
    }
    more
}

// The set-up of a rack group's value.
pub(crate) fn group_in(s: &[u8]) -> Option<SetUp>
    ensures { result ≡ group_in (length s.now) no_set_up s.now }
{
    let mut u = NO_SET_UP;
    let mut at: usize = 0;
    // There are at most as many groups as bytes, which is why it ends.
    for _ in 0..s.len() {
        let f = crate::from(s, at);
        if is_supply(f) {
            return Some(SetUp {
                supply: crate::number(f, 3),
                ..u
            });
        }
        if !is_port(f) {
            return None;
        }
        u = placed(u, setting_of(crate::value(f)));
        at += crate::size(f);
    }
    None
}
