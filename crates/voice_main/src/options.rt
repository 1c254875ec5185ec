//! The options of a `format`.

ghost use Rattle.std.specs.Prelude.{◌≡◌, ℕ, List, [], Some, None, MatchOption, map, string_bytes};
ghost use Rattle.voice_main.specs.Options.{option_text, option_named, none_given, value_given, with_value, IsPair, Gives, numbers_of};
ghost use Rattle.voice_main.specs.declared.options.FormatNumbers.{FormatNumbers as NumbersValue};
ghost use Rattle.voice_main.specs.Words.{IsFormat};

use crate::numbers::number;

/// The numbers of the shape that a `format` asks for: `grace` is that of ropes that never had an interest, then one for each class.
#[derive(Clone, Copy, Debug, PartialEq, Eq)]
pub struct FormatNumbers {
    pub block: u32,
    pub blocks: u32,
    pub area: u32,
    pub grace: u32,
    pub held: u32,
    pub until: u32,
    pub listed: u32,
    pub lanes: u32,
}

#[derive(Clone, Copy, Debug, PartialEq, Eq)]
pub enum FormatOption {
    Block,
    Blocks,
    Area,
    Grace,
    Held,
    Until,
    Listed,
    Lanes,
}

const ALL: [FormatOption; 8] = [
    FormatOption::Block,
    FormatOption::Blocks,
    FormatOption::Area,
    FormatOption::Grace,
    FormatOption::Held,
    FormatOption::Until,
    FormatOption::Listed,
    FormatOption::Lanes,
];

/// The values of the options that were given so far.
#[derive(Clone, Copy, Debug)]
pub struct Given {
    pub block: Option<u32>,
    pub blocks: Option<u32>,
    pub area: Option<u32>,
    pub grace: Option<u32>,
    pub held: Option<u32>,
    pub until: Option<u32>,
    pub listed: Option<u32>,
    pub lanes: Option<u32>,
}

impl FormatOption {
    fn text(self) -> &'static [u8]
        ensures { result.now ≡ option_text self }
    {
        match self {
            FormatOption::Block => b"--block",
            FormatOption::Blocks => b"--blocks",
            FormatOption::Area => b"--area",
            FormatOption::Grace => b"--grace",
            FormatOption::Held => b"--held",
            FormatOption::Until => b"--until",
            FormatOption::Listed => b"--listed",
            FormatOption::Lanes => b"--lanes",
        }
    }

    // The option of that word.
    fn named(word: &[u8]) -> Option<FormatOption>
        ensures { result ≡ option_named word.now }
    {
        ALL.iter().copied().find(|option| option.text() == word)
    }
}

impl Given {
    fn none() -> Given
        ensures { result ≡ none_given }
    {
        Given {
            block: None,
            blocks: None,
            area: None,
            grace: None,
            held: None,
            until: None,
            listed: None,
            lanes: None,
        }
    }

    fn value(self, option: FormatOption) -> Option<u32>
        ensures { result ≡ value_given option self }
    {
        match option {
            FormatOption::Block => self.block,
            FormatOption::Blocks => self.blocks,
            FormatOption::Area => self.area,
            FormatOption::Grace => self.grace,
            FormatOption::Held => self.held,
            FormatOption::Until => self.until,
            FormatOption::Listed => self.listed,
            FormatOption::Lanes => self.lanes,
        }
    }

    fn with(self, option: FormatOption, n: u32) -> Given
        ensures { result ≡ with_value option n self }
    {
        match option {
            FormatOption::Block => Given {
                block: Some(n),
                ..self
            },
            FormatOption::Blocks => Given {
                blocks: Some(n),
                ..self
            },
            FormatOption::Area => Given {
                area: Some(n),
                ..self
            },
            FormatOption::Grace => Given {
                grace: Some(n),
                ..self
            },
            FormatOption::Held => Given {
                held: Some(n),
                ..self
            },
            FormatOption::Until => Given {
                until: Some(n),
                ..self
            },
            FormatOption::Listed => Given {
                listed: Some(n),
                ..self
            },
            FormatOption::Lanes => Given {
                lanes: Some(n),
                ..self
            },
        }
    }

    // What is given once these two words are read; `None` where they are no pair that may come here.
    fn with_pair(self, word: &[u8], value: &[u8]) -> Option<Given>
        ensures { MatchOption result ((option : FormatOption) (n : ℕ) → IsPair self word.now value.now option n → ⊥) (λ given. (option : FormatOption) × (n : ℕ) × IsPair self word.now value.now option n × (given ≡ with_value option n self)) }
    {
        let option = FormatOption::named(word)?;
        let n = number(value)?;
        if self.value(option).is_some() {
            return None;
        }
        Some(self.with(option, n))
    }

    fn numbers(self) -> FormatNumbers
        ensures { result ≡ numbers_of self }
    {
        let grace = self.grace.unwrap_or(86_400);
        FormatNumbers {
            block: self.block.unwrap_or(4096),
            blocks: self.blocks.unwrap_or(15000),
            area: self.area.unwrap_or(1_048_576),
            grace,
            held: self.held.unwrap_or(grace),
            until: self.until.unwrap_or(grace),
            listed: self.listed.unwrap_or(grace),
            lanes: self.lanes.unwrap_or(8),
        }
    }
}

// What these words give; `None` exactly where they are no pairs of options and values.
fn given_by(words: &[String]) -> Option<Given>
    ensures { MatchOption result ((end : Given) → Gives none_given (map string_bytes words.now) end → ⊥) (λ end. Gives none_given (map string_bytes words.now) end) }
{
    let mut given = Given::none();
    let mut at = 0;
    while at < words.len() {
        if at + 1 == words.len() {
            return None;
        }
        let Some(more) = given.with_pair(words[at].as_bytes(), words[at + 1].as_bytes()) else {
            return None;
        };
        given = more;
        at += 2;
    }
    Some(given)
}

/// The numbers of the shape that the words `format` and its options ask for, each a default where no option gives it, that of a class the common grace; `None` exactly for other words.
pub fn format_numbers(words: &[String]) -> Option<FormatNumbers>
    ensures { MatchOption result ((numbers : NumbersValue) → IsFormat (map string_bytes words.now) numbers → ⊥) (IsFormat (map string_bytes words.now)) }
{
    let [verb, options @ ..] = words else {
        return None;
    };
    if verb.as_bytes() != b"format".as_slice() {
        return None;
    }
    let given = given_by(options)?;
    Some(given.numbers())
}
