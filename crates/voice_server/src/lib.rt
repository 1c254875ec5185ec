//! A server: callers on threads take turns at one store, whose history has one order.
#![tactic(auto)]

mod born;
mod feeding;
mod hall;
mod server;
mod standing;

pub use born::Born;
pub use feeding::feed_player;
pub use hall::{Hall, Server};
pub use players::{Player, Took};
pub use standing::Standing;
