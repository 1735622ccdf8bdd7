// What follows the word of a line: numbers and bytes, which spaces part.
ghost use Rattle.std.specs.Prelude.{◌≤◌, length};

use offers::{NO_OFFER, Offer};

// At most 64 bytes. Fixed memory, and no heap.
#[derive(Clone, Copy)]
pub struct Bytes {
    bytes: [u8; 64],
    count: usize,
    ghost kept: { count ≤ 64 },
}

impl Bytes {
    pub fn as_slice(&self) -> &[u8]
        ensures { length result.now ≤ 64 }
    {
        &self.bytes[..self.count]
    }

    // Takes in one more byte, if there is room for it.
    fn push(&mut self, b: u8) -> Option<()> {
        *self.bytes.get_mut(self.count)? = b;
        self.count += 1;
        Some(())
    }
}

// The first word, and what follows the spaces behind it.
pub fn parted(s: &[u8]) -> (&[u8], &[u8]) {
    let end = s.iter().position(|&c| c == b' ').unwrap_or(s.len());
    let (word, rest) = s.split_at(end);
    let next = rest.iter().position(|&c| c != b' ').unwrap_or(rest.len());
    (word, &rest[next..])
}

// A decimal number of at most so many digits.
pub fn number_in(word: &[u8], digits: usize) -> Option<u32> {
    if digits < word.len() || !word.iter().all(|c| c.is_ascii_digit()) {
        return None;
    }
    str::from_utf8(word).ok()?.parse().ok()
}

fn digit_of(c: u8) -> Option<u8> {
    Some(char::from(c).to_digit(16)? as u8)
}

fn byte_in(word: &[u8]) -> Option<u8> {
    let [high, low] = word else {
        return None;
    };
    Some(digit_of(*high)? << 4 | digit_of(*low)?)
}

// The bytes, where there is nothing else.
pub fn bytes_in(s: &[u8]) -> Option<Bytes> {
    let mut bytes = Bytes {
        bytes: [0; 64],
        count: 0,
    };
    for word in s.split(|&c| c == b' ') {
        if !word.is_empty() {
            bytes.push(byte_in(word)?)?;
        }
    }
    Some(bytes)
}

// The offer of the objects, four bytes to each, the least first; of more than seven, their number alone.
pub fn offer_in(s: &[u8]) -> Option<Offer> {
    let bytes = bytes_in(s)?;
    let (objects, []) = bytes.as_slice().as_chunks() else {
        return None;
    };
    let mut offer = Offer {
        count: objects.len() as u8,
        ..NO_OFFER
    };
    for (place, object) in offer.objects.iter_mut().zip(objects) {
        *place = u32::from_le_bytes(*object);
    }
    Some(offer)
}
