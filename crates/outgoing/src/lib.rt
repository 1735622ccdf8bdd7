// A whole message of ours as it goes out, byte by byte, in a place of fixed size that a port can keep. It
// promises every byte, and rests on the headers that we send.
#![tactic(auto)]

ghost use Rattle.std.specs.Prelude.{◌≡◌};
ghost use Rattle.outgoing.specs.Packets.{control_of, data_of};

use sending::{header_bytes, our_fields};

// The objects that a message can have.
pub type Objects = [u32; 7];

// The bytes of a message, and how many there are; none is no message. Fixed memory, and no heap: a port keeps
// one, and is copied with it, which a vector of the library is not.
#[derive(Clone, Copy)]
pub struct Packet {
    pub bytes: [u8; 30],
    pub length: u8,
}

// No message.
pub const NO_PACKET: Packet = Packet {
    bytes: [0u8; 30],
    length: 0,
};

// A control message of ours.
pub fn control(message_type: u8, message_id: u8) -> Packet
    ensures { result ≡ control_of message_type message_id }
{
    let h = header_bytes(our_fields(message_type, message_id), 0);
    let mut bytes = [0u8; 30];
    bytes[..2].copy_from_slice(&h);
    Packet { bytes, length: 2 }
}

// A data message of ours with the first so many of seven objects.
pub fn with_objects(message_type: u8, message_id: u8, objects: Objects, count: u8) -> Packet
    ensures { result ≡ data_of message_type message_id objects count }
{
    let h = header_bytes(our_fields(message_type, message_id), count);
    let mut bytes = [0u8; 30];
    bytes[..2].copy_from_slice(&h);
    // By `chunks_exact_mut` the proof did not close: behind its loop nothing is known of the bytes but their number.
    for (i, object) in objects.iter().enumerate() {
        let at = 2 + 4 * i;
        bytes[at..at + 4].copy_from_slice(&object.to_le_bytes());
    }
    Packet {
        bytes,
        length: 2 + 4 * (count % 8),
    }
}
