// What we send ourselves: the fields and header bytes of our messages, and the GoodCRC for a packet.
// It promises the bytes for all inputs, and rests on the message's header.
#![tactic(auto)]

ghost use Rattle.std.specs.Prelude.{◌≡◌, []};
ghost use Rattle.message.specs.Bytes.{two_bytes, bytes_of};
ghost use Rattle.message.specs.Header.{header_of};
ghost use Rattle.sending.specs.Sending.{our_fields, good_crc_packet, good_crc_revision};

use message::Fields;

// A header as it goes out, least byte first.
pub type HeaderBytes = [u8; 2];

// The fields of a message of ours that is not extended.
pub fn our_fields(message_type: u8, message_id: u8) -> Fields
    ensures { result ≡ our_fields message_type message_id }
{
    Fields {
        extended: false,
        message_id,
        power_role: 1,
        revision: 2,
        data_role: 1,
        message_type,
    }
}

// The two bytes of the header of a message with these fields and this number of objects.
pub fn header_bytes(f: Fields, objects: u8) -> HeaderBytes
    ensures { result ≡ two_bytes (header_of f objects) }
{
    message::pack(f, objects).to_le_bytes()
}

fn good_crc_revision(revision: u8) -> u8
    ensures { result ≡ good_crc_revision revision }
{
    if revision == 1 { 1 } else { 2 }
}

// The bytes of the GoodCRC for a packet with these fields.
pub fn good_crc(f: Fields) -> HeaderBytes
    ensures { result ≡ bytes_of (good_crc_packet f) [] }
{
    let ours = our_fields(message::GOOD_CRC, f.message_id);
    let answer = Fields {
        revision: good_crc_revision(f.revision),
        ..ours
    };
    header_bytes(answer, 0)
}
