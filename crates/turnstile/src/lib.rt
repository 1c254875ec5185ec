//! A turnstile: callers on threads take turns at one value, whose history has one order.
#![tactic(auto)]

mod gate;
mod making;
mod parts;
mod plays;
mod stands;
mod table;
mod turns;
mod view;

pub use parts::{Pass, Turnstile};
pub use plays::{Draw, Knock, Leave, Look, Meet, OneMore, Tell};
pub use stands::Stands;
pub use view::{Old, Stage, Start, TurnRule, View};
