//! The lines of a script.

ghost use Rattle.std.specs.Prelude.{◌≡◌, ◌<◌, ◌+◌, ◌*◌, ◌^◌, Some};
ghost use Rattle.script_gen.specs.Draws.{state};
ghost use Rattle.script_gen.specs.Lines.{order_of, line_of, draws_of, after_line, line_text};
ghost use Rattle.script_gen.specs.Scripts.{file_of};

use super::draws::Draws;
use std::fmt;

/// What a line asks for. Ropes are the numbers of variables, below 16.
#[derive(Clone, Copy)]
pub enum Order {
    Record {
        into: u32,
        file: u8,
    },
    Concat {
        into: u32,
        first: u32,
        second: u32,
    },
    Sub {
        into: u32,
        rope: u32,
        start: u32,
        len: u32,
    },
    Replace {
        into: u32,
        rope: u32,
        start: u32,
        len: u32,
        with: u32,
    },
    Length {
        rope: u32,
    },
    Play {
        lane: u32,
        rope: u32,
        start: u32,
        len: u32,
    },
    Retain {
        key: u32,
        rope: u32,
    },
    Forget {
        key: u32,
    },
    Advance {
        moment: u32,
    },
    Sweep,
}

/// A line: its caller, 1 to 4, and what it asks for.
#[derive(Clone, Copy)]
pub struct Line {
    pub caller: u32,
    pub order: Order,
}

impl Line {
    /// Draws line `k` of a script, counted from 0.
    pub fn drawn(draws: &mut Draws, k: u32) -> Line
        requires { k < 2 ^ 16 }
        ensures line { result ≡ line_of k draws.old.state }
        ensures state { draws.new.state ≡ after_line draws.old.state }
    {
        let caller = 1 + draws.draw(4);
        let kind = draws.draw(10);
        let order = draw_order(draws, kind, caller, k);
        Line { caller, order }
    }

    /// The sample file that the line mentions.
    pub fn file(&self) -> Option<u8>
        ensures { result ≡ file_of self.now.order }
    {
        match self.order {
            Order::Record { file, .. } => Some(file),
            _ => None,
        }
    }
}

// Draws what a line of a kind asks for.
fn draw_order(draws: &mut Draws, kind: u32, caller: u32, k: u32) -> Order
    requires kind_in { kind < 10 }
    requires caller_in { 0 < caller }
    requires k_in { k < 2 ^ 16 }
    ensures order { result ≡ order_of kind caller k draws.old.state }
    ensures state { draws.new.state ≡ state draws.old.state (draws_of kind) }
{
    match kind {
        0 => Order::Record {
            into: draws.draw(16),
            file: draws.draw(8) as u8,
        },
        1 => Order::Concat {
            into: draws.draw(16),
            first: draws.draw(16),
            second: draws.draw(16),
        },
        2 => Order::Sub {
            into: draws.draw(16),
            rope: draws.draw(16),
            start: draws.draw(500),
            len: draws.draw(500),
        },
        3 => Order::Replace {
            into: draws.draw(16),
            rope: draws.draw(16),
            start: draws.draw(400),
            len: draws.draw(100),
            with: draws.draw(16),
        },
        4 => Order::Length {
            rope: draws.draw(16),
        },
        5 => Order::Play {
            lane: caller - 1,
            rope: draws.draw(16),
            start: draws.draw(500),
            len: draws.draw(2000),
        },
        6 => Order::Retain {
            key: draws.draw(64),
            rope: draws.draw(16),
        },
        7 => Order::Forget {
            key: draws.draw(64),
        },
        8 => Order::Advance {
            moment: 10 * (k + 1),
        },
        _ => Order::Sweep,
    }
}

impl fmt::Display for Line {
    ghost output = { λ line. Some (line_text line) };

    fn fmt<W: fmt::Write>(&self, f: &mut fmt::Formatter<W>) -> fmt::Result {
        let caller = self.caller;
        match &self.order {
            Order::Record { into, file } => write!(f, "{caller} v{into} = record g{file}"),
            Order::Concat {
                into,
                first,
                second,
            } => write!(f, "{caller} v{into} = concat v{first} v{second}"),
            Order::Sub {
                into,
                rope,
                start,
                len,
            } => write!(f, "{caller} v{into} = sub v{rope} {start} {len}"),
            Order::Replace {
                into,
                rope,
                start,
                len,
                with,
            } => write!(
                f,
                "{caller} v{into} = replace v{rope} {start} {len} v{with}"
            ),
            Order::Length { rope } => write!(f, "{caller} length v{rope}"),
            Order::Play {
                lane,
                rope,
                start,
                len,
            } => write!(f, "{caller} play {lane} v{rope} {start} {len} out"),
            Order::Retain { key, rope } => write!(f, "{caller} retain held k{key} v{rope} -"),
            Order::Forget { key } => write!(f, "{caller} forget held k{key}"),
            Order::Advance { moment } => write!(f, "{caller} advance {moment}"),
            Order::Sweep => write!(f, "{caller} sweep 64"),
        }
    }
}
