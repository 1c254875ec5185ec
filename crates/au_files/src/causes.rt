//! Why a file is refused.

ghost use Rattle.std.specs.Prelude.{◌≡◌};
ghost use Rattle.au_files.specs.Au.{cause_number};

/// Why a file is refused: the first of these that holds.
#[derive(Clone, Copy, Debug, PartialEq, Eq)]
pub enum AuError {
    /// It has fewer than 24 bytes, which is no header.
    Short,
    /// It does not begin with `.snd`.
    Magic,
    /// The samples begin within the six words, or behind the file's end.
    Offset,
    /// They are not mu-law of 8 bits, encoding 1.
    Encoding,
    /// They are not 8,000 a second.
    Rate,
    /// They are not of one channel.
    Channels,
}

impl AuError {
    /// The number of the cause, from 1 on.
    pub fn number(self) -> u8
        ensures { result ≡ cause_number self }
    {
        match self {
            AuError::Short => 1,
            AuError::Magic => 2,
            AuError::Offset => 3,
            AuError::Encoding => 4,
            AuError::Rate => 5,
            AuError::Channels => 6,
        }
    }
}
