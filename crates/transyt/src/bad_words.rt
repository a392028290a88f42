//! Why the program doesn't take words, in a sentence on standard error.

use std::io;
use transyt_num::read_number;

/// The numbers that stand after a word: the word, how many at least and at most, the same in words, and the place of the
/// number of workers among them.
#[derive(Clone, Copy)]
struct Numbers<'a> {
    name: &'a str,
    least: usize,
    most: usize,
    takes: &'static str,
    workers: usize,
}

impl<'a> Numbers<'a> {
    /// The numbers of a word; none where it is no word.
    fn of(name: &'a str) -> Option<Numbers<'a>> {
        let (least, most, takes, workers) = match name {
            "run" => (0, 1, "one number at most", 0),
            "counts" | "equisat" | "audit" | "version" => (0, 0, "no number", 0),
            "make" => (2, 2, "2 numbers", 2),
            "brief" => (2, 3, "2 to 3 numbers", 2),
            "starts" => (3, 4, "3 to 4 numbers", 0),
            "cycles" | "scan" => (4, 4, "4 numbers", 0),
            _ => return None,
        };
        Some(Numbers {
            name,
            least,
            most,
            takes,
            workers,
        })
    }
}

/// The number at a place, or 0.
fn number_at(rest: &[String], place: usize) -> u32 {
    match rest.get(place) {
        Some(word) => read_number(word.as_bytes()).unwrap_or(0),
        None => 0,
    }
}

/// Tells of a number that is out of its range.
fn tell_range<R: Eprint>(rt: &R, name: &str, rest: &[String]) -> io::Result<()> {
    let [first, second, third] = [number_at(rest, 1), number_at(rest, 2), number_at(rest, 3)];
    match name {
        "make" | "brief" => eprintln!(rt; "{name} takes 1 to 200 nodes, and {first} is here"),
        "starts" if second < 1 || second > 1000 => {
            eprintln!(rt; "{name} takes 1 to 1000 starts, and {second} is here")
        }
        "starts" => {
            eprintln!(rt;
                "{name} goes up to start 999, and {second} from start {third} on are here"
            )
        }
        _ if first < 30 => eprintln!(rt; "{name} begins at 30 s, and {first} is here"),
        _ if second > 240 => eprintln!(rt; "{name} ends at 240 s, and {second} is here"),
        _ if second < first => {
            eprintln!(rt; "{name} goes from LOW up to HIGH, and from {first} to {second} is here")
        }
        _ => eprintln!(rt; "{name} goes on by 1 to 210 s, and {third} is here"),
    }
}

/// Tells of the first number that is none, or else out of its range.
fn tell_numbers<R: Eprint>(rt: &R, numbers: Numbers<'_>, rest: &[String]) -> io::Result<()> {
    let name = numbers.name;
    for (place, word) in rest.iter().enumerate() {
        let one_digit = matches!(word.as_bytes(), [b'1'..=b'8']);
        if place == numbers.workers && !one_digit {
            return eprintln!(rt; "{name} takes 1 to 8 workers, and {word} is here");
        }
        if read_number(word.as_bytes()).is_none() {
            return eprintln!(rt; "a number has 1 to 9 decimal digits, and '{word}' is here");
        }
    }
    tell_range(rt, name, rest)
}

/// Tells of a word and the numbers after it, which the program doesn't take.
fn tell_word<R: Eprint>(rt: &R, name: &str, rest: &[String]) -> io::Result<()> {
    let Some(numbers) = Numbers::of(name) else {
        return eprintln!(rt; "'{name}' is no word");
    };
    let count = rest.len();
    if numbers.least <= count && count <= numbers.most {
        return tell_numbers(rt, numbers, rest);
    }
    let are = if count == 1 { "is" } else { "are" };
    eprintln!(rt; "{name} takes {}, and {count} {are} here", numbers.takes)
}

/// Tells standard error why the program doesn't take words, in a sentence. A fault of standard error changes nothing.
pub(crate) fn tell_bad_words<R: Eprint>(rt: &R, words: &[String]) {
    let _ = match words {
        [] => eprintln!(rt; "no word is here"),
        [name, rest @ ..] => tell_word(rt, name.as_str(), rest),
    };
}
