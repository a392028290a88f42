//! A refusal: its code, and what was found.
ghost use Rattle.std.specs.Prelude.{◌≡◌};
ghost use Rattle.transyt_syntax.specs.Codes.{number};

use crate::code::Code;
use crate::found::Found;
use std::marker::Model;

/// A refusal: the code of a line, and what was found in it. A contract sees the code alone.
#[derive(Drop)]
pub struct Refusal {
    code: Code,
    found: Found,
}

impl Model for Refusal {
    ghost use Rattle.transyt_syntax.specs.declared.code.Code.{Code};

    ghost Value = { Code };

    ghost view = { λ refusal. refusal.code };
}

impl Refusal {
    /// A refusal with a code, which is explained by what was found.
    pub fn new(code: Code, found: Found) -> Refusal
        ensures { result ≡ code }
    {
        Refusal { code, found }
    }

    /// Its code.
    pub fn code(&self) -> Code
        ensures { result ≡ self.now }
    {
        self.code
    }

    /// The number of its code, which is printed.
    pub fn number(&self) -> u32
        ensures { result ≡ number self.now }
    {
        self.code.number()
    }

    /// What was found in the line.
    pub fn found(&self) -> Found {
        self.found
    }
}

impl From<Code> for Refusal {
    ghost from_gives = { λ code refusal. refusal ≡ code };

    /// A refusal whose code says all.
    fn from(code: Code) -> Refusal {
        Refusal::new(code, Found::Nothing)
    }
}
