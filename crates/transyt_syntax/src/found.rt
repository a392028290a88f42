//! What was found in a refused line, beside its code.
ghost use Rattle.std.specs.Prelude.{◌≡◌, ◌≤◌, ◌↔◌, IsOk};

/// The front of a word: its first 20 bytes, or all of them where it is shorter.
#[derive(Clone, Copy)]
pub struct WordFront {
    bytes: [u8; 20],
    count: usize,
}

impl WordFront {
    /// The front of this word.
    pub fn of(word: &[u8]) -> WordFront {
        let count = word.len().min(20);
        let mut bytes = [0; 20];
        bytes[..count].copy_from_slice(&word[..count]);
        WordFront { bytes, count }
    }

    /// Its bytes.
    pub fn bytes(&self) -> &[u8] {
        match self.bytes.get(..self.count) {
            Some(bytes) => bytes,
            None => b"",
        }
    }
}

/// The name of a number, and the least and the greatest that it may be.
#[derive(Clone, Copy)]
pub struct NumberRange {
    /// Its name, in the singular.
    pub name: &'static str,
    /// The least number.
    pub least: u32,
    /// The greatest number.
    pub most: u32,
}

impl NumberRange {
    /// The range of a number of this name.
    pub fn new(name: &'static str, least: u32, most: u32) -> NumberRange
        ensures least { result.least ≡ least }
        ensures most { result.most ≡ most }
    {
        NumberRange { name, least, most }
    }

    /// Looks whether a number is in the range; a number that isn't is what was found.
    pub fn check(self, number: u32) -> Result<(), Found>
        ensures { IsOk result ↔ (self.least ≤ number) × (number ≤ self.most) }
    {
        if self.least <= number && number <= self.most {
            return Ok(());
        }
        Err(Found::OutOfRange {
            range: self,
            number,
        })
    }
}

/// What was found in a refused line, beside its code. Nodes and links are named by their card numbers, stages are
/// numbered from 1, and lengths are in steps.
#[derive(Clone, Copy)]
pub enum Found {
    /// Nothing: the code says all.
    Nothing,
    /// A byte that may not stand in a line.
    Byte {
        /// Its place in the line, from 1.
        place: u32,
        /// Its value.
        value: u8,
    },
    /// A word that is no keyword, or no number.
    Word(WordFront),
    /// A wrong count of numbers.
    Count {
        /// The keyword before the numbers.
        keyword: WordFront,
        /// The least numbers and the most that it takes.
        counts: (usize, usize),
        /// How many words stand after it.
        count: usize,
    },
    /// A number that is out of its range.
    OutOfRange {
        /// The range.
        range: NumberRange,
        /// The number.
        number: u32,
    },
    /// No node has this number.
    NoNode(u32),
    /// The node has no stage of this number.
    NoStage {
        /// The node.
        node: u32,
        /// The number.
        stage: u32,
    },
    /// No link has this number.
    NoLink(u32),
    /// The link isn't fed by the other one.
    NotFed {
        /// The link.
        link: u32,
        /// The other one.
        feeder: u32,
    },
    /// The node has fewer than two stages.
    FewStages {
        /// The node.
        node: u32,
    },
    /// The lengths of the node's stages don't sum to the steps of the cycle.
    StageSum {
        /// The node.
        node: u32,
        /// The sum of the lengths.
        sum: u32,
        /// The steps of the cycle.
        step_count: u32,
    },
    /// A stage is shorter than its intergreen and its least green.
    ShortStage {
        /// The node.
        node: u32,
        /// The number of the stage.
        stage: u32,
        /// Its length.
        length: u32,
        /// Its intergreen.
        intergreen: u32,
        /// Its least green.
        least: u32,
    },
    /// A rule of the deck that the card breaks, in words: a text with a `#` for each number.
    Rule {
        /// The text.
        form: &'static str,
        /// Its numbers; those past its last `#` are 0.
        numbers: [u32; 2],
    },
}

impl Found {
    /// A rule of the deck without a number, in words.
    pub fn rule(text: &'static str) -> Found {
        Found::Rule {
            form: text,
            numbers: [0, 0],
        }
    }

    /// What a look found; nothing where all was right.
    pub fn by(looked: Result<(), Found>) -> Found {
        match looked {
            Ok(()) => Found::Nothing,
            Err(found) => found,
        }
    }
}
