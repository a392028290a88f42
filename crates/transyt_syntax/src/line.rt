//! A line as its words, and the codes that they have.
ghost use Rattle.std.specs.Prelude.{◌≡◌, ◌≤◌, List, [], length, true, IfSome, IfOk, IsSome, is_some, unwrap_or};
ghost use Rattle.std.specs.List.{list_all};
ghost use Rattle.std.specs.Option.{option_map};
ghost use Rattle.transyt_io.specs.Lines.{words};
ghost use Rattle.transyt_syntax.specs.Syntax.{is_plain, first_word, further_words, few_numbers, syntax_code, is_count};
ghost use Rattle.transyt_syntax.specs.Syntax.{Entry, entry_of, with_numbers, counts_of, says_of, unless};

use crate::code::Code;
use crate::found::{Found, WordFront};
use crate::numbers::{Further, further_of};
use crate::refusal::Refusal;
use crate::words::{first_of, odd_word};
use transyt_io::is_blank;

/// A line with its keyword and the words after that.
#[derive(Drop)]
pub struct LineWords<'a> {
    /// The whole line.
    pub line: &'a [u8],
    /// Its keyword; empty where the line has no word.
    pub keyword: &'a [u8],
    /// The bytes after the keyword.
    pub rest: &'a [u8],
    /// The words after the keyword.
    pub further: Further,
    ghost first: { keyword.now ≡ first_word (words line.now) },
    ghost after: { words rest.now ≡ further_words (words line.now) },
    ghost count: { further.count ≡ length (further_words (words line.now)) },
    ghost each: { further.are_numbers ≡ true → length further.numbers ≡ further.count },
    ghost are_numbers: { further.are_numbers ≡ is_some (few_numbers (further_words (words line.now))) },
    ghost values: { further.numbers ≡ unwrap_or (few_numbers (further_words (words line.now))) [] },
}

/// Whether a byte may stand in a line: a blank, or a printing ASCII character.
fn is_plain(byte: u8) -> bool
    ensures { result ≡ is_plain byte }
{
    is_blank(byte) || (byte >= 33 && byte <= 126)
}

/// Whether each byte of a line may stand in it.
fn is_plain_line(line: &[u8]) -> bool
    ensures { result ≡ list_all is_plain line.now }
{
    line.iter().all(|b| is_plain(*b))
}

/// The place, from 1, and the value of the first byte that may not stand in a line, if there is one.
fn odd_byte(line: &[u8]) -> Option<(u32, u8)> {
    let mut place: u32 = 0;
    for byte in line {
        place = place.saturating_add(1);
        if !is_plain(*byte) {
            return Some((place, *byte));
        }
    }
    None
}

impl<'a> LineWords<'a> {
    /// The words of a line.
    pub fn of(line: &'a [u8]) -> LineWords<'a>
        ensures { result.line.now ≡ line.now }
    {
        let (keyword, rest) = first_of(line);
        LineWords {
            line,
            keyword,
            rest,
            further: further_of(rest),
        }
    }

    /// The entry and numbers of a line that isn't skipped, or the first of the codes 11, 10, 12 and 13 that holds of it.
    ///
    /// `found` are the least and the most numbers that the keyword takes and what it says with those of the line, none
    /// where the line's first word is no keyword.
    pub fn say<A: Drop>(&self, found: Option<((usize, usize), A)>) -> Result<Option<A>, Refusal>
        requires most { IfSome found (λ f. f.0.1 ≤ 17) }
        ensures says { (table : List (Entry A))
            → found ≡ with_numbers self.now.further.numbers (entry_of table self.now.line.now)
            → result ≡ unless (syntax_code (counts_of table self.now.line.now) self.now.line.now)
            (says_of table self.now.line.now) }
        ensures something { IfOk result IsSome }
        ensures found { IfOk result (λ said. said ≡ option_map (λ f. f.1) found) }
        ensures counted { IfOk result (λ said. IfSome found (λ f.
            (is_count f.0 self.now.further.count ≡ true) × (self.now.further.are_numbers ≡ true))) }
    {
        let counts = match &found {
            Some((counts, _)) => Some(*counts),
            None => None,
        };
        if let Some(code) = self.syntax_code(counts) {
            return Err(self.refusal(code, counts));
        }
        match found {
            Some((_, said)) => Ok(Some(said)),
            None => Err(Refusal::from(Code::OddByte)),
        }
    }

    /// The first of the codes 11, 10, 12 and 13 that holds of the line.
    ///
    /// `counts` are the least and the most numbers that the keyword takes, none where the line's first word is no keyword.
    fn syntax_code(&self, counts: Option<(usize, usize)>) -> Option<Code>
        requires most { IfSome counts (λ c. c.1 ≤ 17) }
        ensures { result ≡ syntax_code counts self.now.line.now }
    {
        if self.line.len() > 4096 {
            return Some(Code::LongLine);
        }
        let Some((least, most)) = counts else {
            return Some(Code::OddByte);
        };
        if !is_plain_line(self.line) {
            return Some(Code::OddByte);
        }
        if self.further.count < least || self.further.count > most {
            return Some(Code::WrongCount);
        }
        if !self.further.are_numbers {
            return Some(Code::NoNumber);
        }
        None
    }

    /// The refusal with one of these codes, which is explained by the words.
    fn refusal(&self, code: Code, counts: Option<(usize, usize)>) -> Refusal
        ensures { result ≡ code }
    {
        let found = match code {
            Code::OddByte => match odd_byte(self.line) {
                Some((place, value)) => Found::Byte { place, value },
                None => Found::Word(WordFront::of(self.keyword)),
            },
            Code::WrongCount => Found::Count {
                keyword: WordFront::of(self.keyword),
                counts: counts.unwrap_or((0, 0)),
                count: self.further.count,
            },
            Code::NoNumber => Found::Word(WordFront::of(odd_word(self.rest))),
            _ => Found::Nothing,
        };
        Refusal::new(code, found)
    }
}
