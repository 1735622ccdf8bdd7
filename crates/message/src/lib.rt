// A message: its fields, the sixteen bits of its header (000, Table 6.1) and its bytes. It promises
// header and fields both ways, for every header and all fields, and rests on the ground's laws.
#![tactic(auto)]

ghost use Rattle.std.specs.Prelude.{◌≡◌, ◌+◌, ◌*◌, ◌<◌, get_or};
ghost use Rattle.message.specs.Header.{fields_of, objects_of, header_of, bit_of};
ghost use Rattle.message.specs.Bytes.{word_of, is_chunked};

// The type of a GoodCRC (000, Table 6.5).
pub const GOOD_CRC: u8 = 1;

// The fields of a message as reading gives them and writing takes them. How many objects there are
// is told by the object bytes.
#[derive(Clone, Copy)]
pub struct Fields {
    pub extended: bool,
    pub message_id: u8,
    pub power_role: u8,
    pub revision: u8,
    pub data_role: u8,
    pub message_type: u8,
}

// The fields of a header.
pub fn unpack(h: u16) -> Fields
    ensures { result ≡ fields_of h }
{
    Fields {
        extended: h / 32768 % 2 == 1,
        message_id: (h / 512 % 8) as u8,
        power_role: (h / 256 % 2) as u8,
        revision: (h / 64 % 4) as u8,
        data_role: (h / 32 % 2) as u8,
        message_type: (h % 32) as u8,
    }
}

// The number of objects that a header names.
pub fn object_count(h: u16) -> u8
    ensures { result ≡ objects_of h }
{
    (h / 4096 % 8) as u8
}

// A byte as a word.
fn wide(x: u8) -> u16
    ensures { (result ≡ x) × (result < 256) }
{
    x as u16
}

// A bit as a word.
fn bit(set: bool) -> u16
    ensures { (result ≡ bit_of set) × (result < 2) }
{
    if set { 1 } else { 0 }
}

// The header of a message with these fields and this number of objects. Each lies in its own bits;
// what a field has above them is left out (writing refuses such fields before it comes here).
pub fn pack(f: Fields, objects: u8) -> u16
    ensures { result ≡ header_of f objects }
{
    bit(f.extended) * 32768
        + wide(objects) % 8 * 4096
        + wide(f.message_id) % 8 * 512
        + wide(f.power_role) % 2 * 256
        + wide(f.revision) % 4 * 64
        + wide(f.data_role) % 2 * 32
        + wide(f.message_type) % 32
}

// The byte at a place; zero past the end.
pub fn byte(s: &[u8], at: usize) -> u8
    ensures { result ≡ get_or s.now at 0 }
{
    if at < s.len() { s[at] } else { 0 }
}

fn join(low: u8, high: u8) -> u16
    ensures { result ≡ low + high * 256 }
{
    wide(low) + wide(high) * 256
}

// The word of the first two bytes, least first; a byte that is not there counts as zero.
pub fn word(s: &[u8]) -> u16
    ensures { result ≡ word_of s.now }
{
    join(byte(s, 0), byte(s, 1))
}

// Whether the extended header, the low half of the first object, says Chunked.
pub fn chunked(objects: &[u8]) -> bool
    ensures { result ≡ is_chunked objects.now }
{
    word(objects) / 32768 % 2 == 1
}
