//! Why a line is refused.

ghost use Rattle.std.specs.Prelude.{◌≡◌};
ghost use Rattle.dw_ends.specs.Reasons.{reason_text};

use std::fmt;
use thiserror::Error as ThisError;

/// Why a line of a script or of a listing is refused.
///
/// ```
/// println!(rt; "{}", Reason::BadHex)?; // bad hex
/// ```
#[derive(Clone, Copy, Debug, PartialEq, Eq, ThisError)]
pub enum Reason {
    /// A byte is outside printable ASCII.
    BadByte,
    /// A field is none of the words that may stand there.
    UnknownWord,
    /// A field is no number, or out of its range.
    BadNumber,
    /// A field is no pairs of digits of base 16.
    BadHex,
    /// An expression stands within more than 63 others.
    TooDeep,
    /// A branch leads to itself, or past the end of its expression.
    BadTarget,
    /// A field is missing, or left over.
    WrongFields,
    /// The byte order is chosen after another line.
    OrderNotFirst,
    /// A section has another number of bytes than its line says.
    WrongLength,
    /// A section has a line already.
    Twice,
    /// No unit has the index.
    NoSuchUnit,
    /// No entry of the unit has the index.
    NoSuchEntry,
    /// The tag is one that no entry may have.
    BadTag,
    /// The name is one that no attribute may have.
    BadName,
    /// The id isn't reserved, or has its entry already.
    NotReserved,
    /// A string has a zero byte, which would close it.
    ZeroByte,
    /// The unit has no line program.
    NoLineProgram,
    /// A name has no bytes, which up to version 4 would close its list.
    EmptyName,
    /// No directory of the line program has the index.
    NoSuchDirectory,
    /// The sequence before isn't ended.
    InSequence,
    /// No sequence is begun.
    NotInSequence,
    /// No file of the line program has the index.
    NoSuchFile,
    /// The offset is below the one before it in the sequence.
    AddressBack,
    /// A symbol's number isn't that of the symbols so far.
    BadSymbol,
    /// A live range's end isn't above its begin.
    EmptyRange,
    /// A live range stands behind a line of the listing.
    LiveNotFirst,
}

impl Reason {
    /// The reason as it is printed.
    pub fn text(&self) -> &'static str
        ensures { result.now ≡ reason_text self.now }
    {
        match self {
            Reason::BadByte => "bad byte",
            Reason::UnknownWord => "unknown word",
            Reason::BadNumber => "bad number",
            Reason::BadHex => "bad hex",
            Reason::TooDeep => "too deep",
            Reason::BadTarget => "bad target",
            Reason::WrongFields => "wrong fields",
            Reason::OrderNotFirst => "order not first",
            Reason::WrongLength => "wrong length",
            Reason::Twice => "twice",
            Reason::NoSuchUnit => "no such unit",
            Reason::NoSuchEntry => "no such entry",
            Reason::BadTag => "bad tag",
            Reason::BadName => "bad name",
            Reason::NotReserved => "not reserved",
            Reason::ZeroByte => "zero byte",
            Reason::NoLineProgram => "no line program",
            Reason::EmptyName => "empty name",
            Reason::NoSuchDirectory => "no such directory",
            Reason::InSequence => "in sequence",
            Reason::NotInSequence => "not in sequence",
            Reason::NoSuchFile => "no such file",
            Reason::AddressBack => "address back",
            Reason::BadSymbol => "bad symbol",
            Reason::EmptyRange => "empty range",
            Reason::LiveNotFirst => "live not first",
        }
    }
}

impl fmt::Display for Reason {
    fn fmt<W: fmt::Write>(&self, f: &mut fmt::Formatter<W>) -> fmt::Result {
        f.write_str(self.text())
    }
}
