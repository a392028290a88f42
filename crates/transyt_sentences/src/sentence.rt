//! A sentence, put together piece by piece.

use transyt_num::put_number;
use transyt_syntax::Code;

/// How many bytes a sentence has at most.
const ROOM: usize = 240;

/// A sentence for standard error, without a line end. A rest that doesn't fit is left out.
#[derive(Drop)]
pub struct Sentence {
    bytes: [u8; 240],
    length: usize,
}

impl Sentence {
    /// A sentence of no words.
    pub(crate) fn new() -> Sentence {
        Sentence {
            bytes: [0; ROOM],
            length: 0,
        }
    }

    /// The begin of a sentence on a refusal: its place in the input and its code.
    pub(crate) fn on(kind: &str, number: u32, code: Code) -> Sentence {
        let mut sentence = Sentence::new();
        sentence.say(kind);
        sentence.say_form(" #: code #: ", &[number, code.number()]);
        sentence
    }

    /// Adds a text.
    pub(crate) fn say(&mut self, text: &str) {
        self.say_bytes(text.as_bytes());
    }

    /// Adds bytes.
    pub(crate) fn say_bytes(&mut self, bytes: &[u8]) {
        for byte in bytes {
            self.say_byte(*byte);
        }
    }

    /// Adds a byte.
    fn say_byte(&mut self, byte: u8) {
        if let Some(place) = self.bytes.get_mut(self.length) {
            *place = byte;
            self.length += 1;
        }
    }

    /// Adds a number in decimal digits.
    pub(crate) fn say_number(&mut self, number: u32) {
        let mut digits = [0; 39];
        let length = put_number(u128::from(number), &mut digits);
        self.say_bytes(&digits[..length]);
    }

    /// Adds a text and a number after it.
    pub(crate) fn say_with(&mut self, text: &str, number: u32) {
        self.say(text);
        self.say_number(number);
    }

    /// Adds a text with a number in place of each `#`.
    pub(crate) fn say_form(&mut self, form: &str, numbers: &[u32]) {
        let mut count: usize = 0;
        for byte in form.as_bytes() {
            if *byte != b'#' {
                self.say_byte(*byte);
            } else if let Some(number) = numbers.get(count) {
                self.say_number(*number);
                count = count.saturating_add(1);
            }
        }
    }

    /// The bytes of the sentence.
    pub fn bytes(&self) -> &[u8] {
        match self.bytes.get(..self.length) {
            Some(bytes) => bytes,
            None => b"",
        }
    }
}
