// Writing a message into a lent buffer from a place on, or refusing by the paper's number with no
// byte changed. It promises the result and every byte of the buffer, and rests on the message's bytes.
#![tactic(auto)]

ghost use Rattle.std.specs.Prelude.{◌+◌, ◌-◌, ◌≤◌, ◌≡◌, ◌++◌, length};
ghost use Rattle.ground.specs.Buffers.{over, laid};
ghost use Rattle.message.specs.Bytes.{two_bytes, bytes_of};
ghost use Rattle.writing.specs.Writing.{Wrote, Writable, out_of_range, without_chunk, too_little_room, writing_tried};

use ground::{Refusal, Verdict, refuse};
use message::Fields;

fn out_of_range(f: Fields, n: usize) -> bool
    ensures { result ≡ out_of_range f n }
{
    (31 < f.message_type)
        | (7 < f.message_id)
        | (1 < f.power_role)
        | (1 < f.data_role)
        | (2 < f.revision)
        | (n % 4 != 0)
        | (28 < n)
}

fn without_chunk(f: Fields, objects: &[u8]) -> bool
    ensures { result ≡ without_chunk f objects.now }
{
    f.extended & ((objects.len() == 0) | !message::chunked(objects))
}

fn too_little_room(size: usize, place: usize, n: usize) -> bool
    ensures { result ≡ too_little_room size place n }
{
    size < place || size - place < 2 + 4 * (n / 4)
}

// The tests, in the paper's order.
#[tactic(auto, unfolding(crate::specs::Writing::writing_tried, ground::specs::Refusals::refuse_if))]
fn tried(f: Fields, objects: &[u8], size: usize, place: usize) -> Verdict
    ensures { result ≡ writing_tried f objects.now size place }
{
    let n = objects.len();
    refuse(out_of_range(f, n), Refusal::OutOfRange)?;
    refuse(without_chunk(f, objects), Refusal::NotChunked)?;
    refuse(too_little_room(size, place, n), Refusal::NoRoom)
}

// The header writer: two bytes at the front of a part.
fn put_header(part: &mut [u8], h: u16)
    requires { 2 ≤ length part.old }
    ensures { part.new ≡ over (two_bytes h) part.old }
{
    part[..2].copy_from_slice(&h.to_le_bytes());
}

// The object writer: object bytes at the front of a part.
fn put_objects(part: &mut [u8], objects: &[u8])
    requires { length objects.now ≤ length part.old }
    ensures { part.new ≡ over objects.now part.old }
{
    part[..objects.len()].copy_from_slice(objects);
}

// The message at the front of a part: its header, and its objects behind it.
fn put_message(part: &mut [u8], h: u16, objects: &[u8])
    requires { 2 + length objects.now ≤ length part.old }
    ensures { part.new ≡ over (two_bytes h ++ objects.now) part.old }
{
    put_objects(&mut part[2..], objects);
    put_header(part, h);
}

// The message in a buffer that has room for it, from the place on.
fn put_at(f: Fields, objects: &[u8], buf: &mut [u8], place: usize)
    requires { Writable f objects.now (length buf.old) place }
    ensures { buf.new ≡ laid (bytes_of f objects.now) place buf.old }
{
    let n = (objects.len() / 4) as u8;
    put_message(&mut buf[place..], message::pack(f, n), objects);
}

// Writes a message from the place on, and says how many bytes it has; or refuses and changes no byte.
pub fn write(f: Fields, objects: &[u8], buf: &mut [u8], place: usize) -> Result<usize, Refusal>
    ensures { Wrote f objects.now buf.old place result buf.new }
{
    tried(f, objects, buf.len(), place)?;
    put_at(f, objects, buf, place);
    Ok(2 + objects.len())
}
