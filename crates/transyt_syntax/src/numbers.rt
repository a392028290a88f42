//! The numbers of a line.
ghost use Rattle.std.specs.Prelude.{◌≡◌, ◌≤◌, length, drop, is_some, unwrap_or, [], true};
ghost use Rattle.transyt_syntax.specs.Syntax.{at, few_numbers};
ghost use Rattle.transyt_io.specs.Lines.{words};

use crate::words::{read_numbers, word_count};
use std::marker::Model;

/// The numbers after a line's keyword, in their order: a list of at most 17.
#[derive(Drop)]
pub struct Numbers {
    items: [u32; 17],
    first: usize,
    end: usize,
}

impl Model for Numbers {
    ghost use Rattle.std.specs.Prelude.{◌≤◌, ℕ, List, take, drop};

    ghost Value = { List ℕ };

    ghost view = { λ n. drop n.first (take n.end n.items) };

    ghost invariant = { λ n. (n.first ≤ n.end) × (n.end ≤ 17) };
}

impl Numbers {
    /// The numbers as a slice.
    pub fn as_slice(&self) -> &[u32]
        ensures numbers { result.now ≡ self.now }
        ensures most { length result.now ≤ 17 }
    {
        &self.items[self.first..self.end]
    }

    /// Number `place` from 0, and 0 past the last.
    pub fn at(&self, place: usize) -> u32
        ensures { result ≡ at self.now place }
    {
        let numbers = self.as_slice();
        if place < numbers.len() {
            numbers[place]
        } else {
            0
        }
    }

    /// The numbers without the first `count`.
    pub fn after(&self, count: usize) -> Numbers
        ensures { result ≡ drop count self.now }
    {
        let left = self.end - self.first;
        let gone = if count < left { count } else { left };
        Numbers {
            items: self.items,
            first: self.first + gone,
            end: self.end,
        }
    }
}

/// The words after a line's keyword.
#[derive(Drop)]
pub struct Further {
    /// How many they are.
    pub count: usize,
    /// Whether they are at most 17 and all are numbers.
    pub are_numbers: bool,
    /// The numbers that they are; where they aren't, there is none.
    pub numbers: Numbers,
}

/// The words of the bytes after a keyword.
pub(crate) fn further_of(rest: &[u8]) -> Further
    ensures count { result.count ≡ length (words rest.now) }
    ensures numbers { result.are_numbers ≡ is_some (few_numbers (words rest.now)) }
    ensures length { result.are_numbers ≡ true → length result.numbers ≡ result.count }
    ensures values { result.numbers ≡ unwrap_or (few_numbers (words rest.now)) [] }
{
    let count = word_count(rest);
    let mut items = [0; 17];
    let read = if count <= 17 {
        read_numbers(rest, &mut items)
    } else {
        None
    };
    let end = match read {
        Some(end) => end,
        None => 0,
    };
    Further {
        count,
        are_numbers: read.is_some(),
        numbers: Numbers {
            items,
            first: 0,
            end,
        },
    }
}
