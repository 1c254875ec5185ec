// What the seats at the pool's table know. No value of `View` and of the types in it is made.
ghost use Rattle.std.specs.Prelude.{◌≡◌, IfOk};

use std::alloc::{AllocError, Global};
use std::collections::LinkedList;
use std::marker::Model;

/// A stretch of one frame.
#[derive(Clone, Copy, PartialEq, Eq, Debug)]
pub struct Part {
    pub frame: u32,
    pub from: u32,
    pub len: u32,
}

/// How many lanes a pool has, and how many bytes a frame has.
#[derive(Clone, Copy, PartialEq, Eq, Debug)]
pub struct Sizes {
    pub lanes: u16,
    pub block: u32,
}

/// The parts that a step announces. Contracts see the list.
#[derive(Drop)]
pub struct Parts {
    pub(crate) items: Vec<Part>,
}

impl Model for Parts {
    ghost use Rattle.std.specs.Prelude.{List};
    ghost use Rattle.frame_pool.specs.declared.views.Part.{Part};

    ghost Value = { List Part };

    ghost view = { λ p. p.items.items };
}

impl Parts {
    pub(crate) fn of(alloc: Global, parts: &[Part]) -> Result<Parts, AllocError>
        ensures { IfOk result (λ p. p ≡ parts.now) }
    {
        Ok(Parts {
            items: Vec::from_slice(alloc, parts)?,
        })
    }

    pub(crate) fn as_slice(&self) -> &[Part]
        ensures { result.now ≡ self.now }
    {
        self.items.as_slice()
    }
}

/// What the keeper knows of a lane's parts. `Ended` has the length that was handed out.
pub enum Stage {
    Free,
    Reserved(LinkedList<Part>),
    Handed(LinkedList<Part>),
    Ended(u64),
}

/// What was found as a lease was joined: the lane's stage, the lease's parts, and whether it was hinted.
pub struct Told {
    pub stage: Stage,
    pub parts: LinkedList<Part>,
    pub hinted: bool,
}

/// What the keeper knows of a lane. `told` is of the lease that was joined last.
pub struct LaneState {
    pub stage: Stage,
    pub hint: u64,
    pub mark: bool,
    pub told: Told,
    pub looks: LinkedList<u64>,
}

/// The keeper's view. `latest` is the lane that was reserved last.
pub struct KeeperView {
    pub sizes: Sizes,
    pub latest: u64,
    pub lane_states: LinkedList<LaneState>,
}

/// A lease's view.
pub struct LeaseView {
    pub sizes: Sizes,
    pub lane: u64,
    pub parts: LinkedList<Part>,
    pub live: bool,
    pub hinted: bool,
    pub looks: LinkedList<u64>,
}

pub enum View {
    Keeper(KeeperView),
    Lease(LeaseView),
    Spent,
}
