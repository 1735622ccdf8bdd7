// A line of input as it comes in, character by character.

// The most characters of a line that can be understood.
const MOST: usize = 240;

#[derive(Clone, Copy)]
pub struct Input {
    // The first characters, and how many there were; all that were too many count as one. Fixed memory, and no heap.
    chars: [u8; MOST],
    length: usize,
}

impl Input {
    pub fn new() -> Input {
        Input {
            chars: [0; MOST],
            length: 0,
        }
    }

    pub fn is_empty(&self) -> bool {
        self.length == 0
    }

    // Takes in one more character.
    pub fn push(&mut self, c: u8) {
        if let Some(place) = self.chars.get_mut(self.length) {
            *place = c;
            self.length += 1;
        } else {
            self.length = MOST + 1;
        }
    }

    // The characters, without the spaces and carriage returns at the end; nothing where they are too many.
    pub fn text(&self) -> Option<&[u8]> {
        let chars = self.chars.get(..self.length)?;
        let last = chars.iter().rposition(|c| !matches!(c, b' ' | b'\r'));
        Some(match last {
            Some(i) => &chars[..=i],
            None => &[],
        })
    }
}
