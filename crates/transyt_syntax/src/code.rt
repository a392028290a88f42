//! The codes of refusals, by name.
ghost use Rattle.std.specs.Prelude.{◌≡◌};
ghost use Rattle.transyt_syntax.specs.Codes.{number};

/// Why a card, a command, a row of counts or a line of a certificate is refused. The codes, their numbers and the
/// order in which they are asked for are this project's own.
#[derive(Clone, Copy, PartialEq, Eq)]
pub enum Code {
    /// A byte that is neither printable ASCII nor a blank nor a tab, or a keyword that is none of this part's (10).
    OddByte,
    /// A line of more than 4,096 bytes (11).
    LongLine,
    /// A wrong count of numbers (12).
    WrongCount,
    /// A word after the keyword that is no number (13).
    NoNumber,
    /// A number out of its range (14).
    Range,
    /// A card out of its place (15).
    OutOfPlace,
    /// A number, a stage of a link, a feeder of a link or a rule of a link that is given twice (16).
    Twice,
    /// A node, a link or a stage that is unknown (17).
    Unknown,
    /// The stage lengths of a node don't sum to the number of steps (18).
    StageOrder,
    /// A stage is shorter than its intergreen and its least green (19).
    LeastGreen,
    /// One node, link, stage or feed too many (20).
    TooMany,
    /// The input ended before END (21).
    NoEnd,
    /// A node with fewer than two stages (22).
    FewStages,
    /// The link isn't fed by the other one (23).
    NoFeeder,
    /// No trial is open (24).
    NoTrial,
    /// A trial is open (25).
    OpenTrial,
    /// The deck has no STEPS card (26).
    NoPlan,
    /// A counted flow above 9,999 vehicles per hour (27).
    CountedFlow,
    /// A line that isn't the certificate's (28).
    OtherLine,
    /// A listed move that lowers the index (29).
    LowerIndex,
}

impl Code {
    /// The number that is printed.
    pub fn number(self) -> u32
        ensures { result ≡ number self }
    {
        match self {
            Code::OddByte => 10,
            Code::LongLine => 11,
            Code::WrongCount => 12,
            Code::NoNumber => 13,
            Code::Range => 14,
            Code::OutOfPlace => 15,
            Code::Twice => 16,
            Code::Unknown => 17,
            Code::StageOrder => 18,
            Code::LeastGreen => 19,
            Code::TooMany => 20,
            Code::NoEnd => 21,
            Code::FewStages => 22,
            Code::NoFeeder => 23,
            Code::NoTrial => 24,
            Code::OpenTrial => 25,
            Code::NoPlan => 26,
            Code::CountedFlow => 27,
            Code::OtherLine => 28,
            Code::LowerIndex => 29,
        }
    }
}
