//! The verbs.

ghost use Rattle.std.specs.Prelude.{◌≡◌};
ghost use Rattle.std.specs.List.{find};
ghost use Rattle.std.specs.Str.{bytes_eq};
ghost use Rattle.script_lang.specs.Verbs.{verb_text, verb_named, all_verbs, binds, is_built_verb, verbs_of};

/// A verb of the language.
#[derive(Clone, Copy, Debug, PartialEq, Eq)]
pub enum VerbName {
    Record,
    Concat,
    Sub,
    Replace,
    Length,
    Retain,
    Forget,
    Lookup,
    Census,
    Advance,
    Sweep,
    Describe,
    Queue,
    Play,
    Serve,
    Stop,
    Begin,
    Add,
    End,
    Levels,
}

const ALL: [VerbName; 20] = [
    VerbName::Record,
    VerbName::Concat,
    VerbName::Sub,
    VerbName::Replace,
    VerbName::Length,
    VerbName::Retain,
    VerbName::Forget,
    VerbName::Lookup,
    VerbName::Census,
    VerbName::Advance,
    VerbName::Sweep,
    VerbName::Describe,
    VerbName::Queue,
    VerbName::Play,
    VerbName::Serve,
    VerbName::Stop,
    VerbName::Begin,
    VerbName::Add,
    VerbName::End,
    VerbName::Levels,
];

impl VerbName {
    /// Its word.
    pub fn text(self) -> &'static [u8]
        ensures { result.now ≡ verb_text self }
    {
        match self {
            VerbName::Record => b"record",
            VerbName::Concat => b"concat",
            VerbName::Sub => b"sub",
            VerbName::Replace => b"replace",
            VerbName::Length => b"length",
            VerbName::Retain => b"retain",
            VerbName::Forget => b"forget",
            VerbName::Lookup => b"lookup",
            VerbName::Census => b"census",
            VerbName::Advance => b"advance",
            VerbName::Sweep => b"sweep",
            VerbName::Describe => b"describe",
            VerbName::Queue => b"queue",
            VerbName::Play => b"play",
            VerbName::Serve => b"serve",
            VerbName::Stop => b"stop",
            VerbName::Begin => b"begin",
            VerbName::Add => b"add",
            VerbName::End => b"end",
            VerbName::Levels => b"levels",
        }
    }

    /// The verb of that word.
    pub fn named(word: &[u8]) -> Option<VerbName>
        ensures { result ≡ verb_named word.now }
    {
        ALL.iter().copied().find(|v| v.text() == word)
    }

    /// Whether its reply sets a variable.
    pub fn binds(self) -> bool
        ensures { result ≡ binds self }
    {
        matches!(
            self,
            VerbName::Record
                | VerbName::Concat
                | VerbName::Sub
                | VerbName::Replace
                | VerbName::Lookup
                | VerbName::End
        )
    }

    /// Whether the store can do its call yet. The line of a verb that is not built is refused.
    pub fn is_built(self) -> bool
        ensures { result ≡ is_built_verb self }
    {
        matches!(
            self,
            VerbName::Record
                | VerbName::Concat
                | VerbName::Sub
                | VerbName::Replace
                | VerbName::Length
                | VerbName::Describe
                | VerbName::Levels
                | VerbName::Queue
                | VerbName::Play
                | VerbName::Serve
                | VerbName::Stop
                | VerbName::Begin
                | VerbName::Add
                | VerbName::End
                | VerbName::Retain
                | VerbName::Forget
                | VerbName::Lookup
                | VerbName::Census
                | VerbName::Advance
                | VerbName::Sweep
        )
    }
}

/// Which verbs a script may have.
#[derive(Clone, Copy, Debug, PartialEq, Eq)]
pub enum Built {
    /// Those that the store can do now.
    Now,
    /// The whole language.
    All,
}

impl Built {
    /// Whether a script may have the verb.
    #[tactic(auto, unfolding(crate::specs::Verbs::verbs_of))]
    pub fn has(self, verb: VerbName) -> bool
        ensures { result ≡ verbs_of self verb }
    {
        match self {
            Built::Now => verb.is_built(),
            Built::All => true,
        }
    }
}
