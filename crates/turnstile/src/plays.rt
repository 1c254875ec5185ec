// The kinds of step, each with what it tells.
use crate::stands::Stands;
use crate::view::View;
use atomic_table::{Join, Play, Split};

/// A pass takes a ticket.
pub struct Draw;

impl<T: Stands> Play<Option<T>, View<T>> for Draw {
    ghost use Rattle.turnstile.specs.Turns.{Drawn};

    ghost then = { λ s m n r. Drawn m n r };
}

/// A pass looks whether it is its turn, and takes the value if so.
pub struct Look;

impl<T: Stands> Play<Option<T>, View<T>> for Look {
    ghost use Rattle.turnstile.specs.Turns.{Looked};

    ghost then = { λ s m n r. Looked T.origin T.history T.stands m n r };
}

/// A pass gives the value back, and tells how many entries its turn made.
pub struct Tell;

impl<T: Stands> Play<Option<T>, View<T>> for Tell {
    ghost use Rattle.turnstile.specs.Turns.{Tells};

    ghost then = { λ s m n r. Tells T.history m r };
}

/// The turn goes to the next ticket.
pub struct Leave;

impl<T: Stands> Play<Option<T>, View<T>> for Leave {
    ghost use Rattle.turnstile.specs.Turns.{Leaves};

    ghost then = { λ s m n r. Leaves m r };
}

/// A pass knocks at a door.
pub struct Knock;

impl<T: Stands> Play<Option<T>, View<T>> for Knock {
    ghost use Rattle.turnstile.specs.Turns.{Stays};

    ghost then = { λ s m n r. Stays m r };
}

/// One pass more, split off pass 1.
pub struct OneMore;

impl<T: Stands> Split<View<T>> for OneMore {
    ghost use Rattle.turnstile.specs.Turns.{one_more, newcomer};

    ghost left = { one_more };

    ghost right = { newcomer };
}

/// A pass that takes in another.
pub struct Meet;

impl<T: Stands> Join<View<T>> for Meet {
    ghost use Rattle.turnstile.specs.Turns.{met, spent_view};

    ghost both = { met };

    ghost spent = { spent_view };
}
