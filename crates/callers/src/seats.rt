//! Passes lined up for threads, and handed back.

ghost use Rattle.std.specs.Prelude.{◌≡◌, ◌<◌, ◌≤◌, [], ◌∷◌, length, map, All, vec_capacity};
ghost use Rattle.callers.specs.Seats.{pass_of, heard_of, all_done};

use served_files::Heard;
use std::alloc::{AllocFailed, Global};
use turnstile::Pass;
use voice_outside::Disk;
use voice_server::Standing;

/// What running the lines of all callers came to: the passes, what each caller heard, and whether there was memory. `memory` is false exactly where a caller stopped for want of memory, or none began for it; then what was heard is of no use.
pub struct Outcome<D: Disk> {
    pub passes: Vec<Pass<Standing<D>>>,
    pub heard: Vec<Vec<Heard>>,
    pub memory: bool,
}

/// A pass, what its caller heard, and whether all its lines were done. Generic in the pass, so that the check finds it to be `Send`.
pub struct Runner<P> {
    pub(crate) pass: P,
    pub(crate) heard: Vec<Heard>,
    pub(crate) done: bool,
}

fn put_runner<D: Disk>(
    runners: &mut Vec<Runner<Pass<Standing<D>>>>,
    runner: Runner<Pass<Standing<D>>>,
)
    requires { length runners.old.items < vec_capacity runners.old }
    ensures items { runners.new.items ≡ runner ∷ runners.old.items }
    ensures room { vec_capacity runners.old ≤ vec_capacity runners.new }
{
    if let Err(AllocFailed { value }) = runners.insert(0, runner) {
        let Runner {
            pass,
            heard: _heard,
            done: _,
        } = value;
        pass.end();
        unreachable!()
    }
}

fn put_pass<D: Disk>(passes: &mut Vec<Pass<Standing<D>>>, pass: Pass<Standing<D>>)
    requires { length passes.old.items < vec_capacity passes.old }
    ensures items { passes.new.items ≡ pass ∷ passes.old.items }
    ensures room { vec_capacity passes.old ≤ vec_capacity passes.new }
{
    if let Err(AllocFailed { value }) = passes.insert(0, pass) {
        value.end();
        unreachable!()
    }
}

fn put_list(lists: &mut Vec<Vec<Heard>>, list: Vec<Heard>)
    requires { length lists.old.items < vec_capacity lists.old }
    ensures items { lists.new.items ≡ list ∷ lists.old.items }
    ensures room { vec_capacity lists.old ≤ vec_capacity lists.new }
{
    if lists.insert(0, list).is_err() {
        unreachable!()
    }
}

/// The passes, in their order. Nothing was heard yet.
pub(crate) fn line_up<D: Disk>(
    alloc: Global,
    passes: &mut Vec<Pass<Standing<D>>>,
    runners: &mut Vec<Runner<Pass<Standing<D>>>>,
)
    requires none { runners.old.items ≡ [] }
    requires room { length passes.old.items ≤ vec_capacity runners.old }
    ensures all { map pass_of runners.new.items ≡ passes.old.items }
    ensures heard { All (λ r. r.heard.items ≡ []) runners.new.items }
    ensures none { passes.new.items ≡ [] }
    ensures room { vec_capacity passes.old ≤ vec_capacity passes.new }
{
    while let Some(pass) = passes.pop() {
        let runner = Runner {
            pass,
            heard: Vec::new(alloc),
            done: false,
        };
        put_runner(runners, runner);
    }
}

/// Puts the passes back, in their order, and what each caller heard, and says whether all lines were done.
pub(crate) fn hand_back<D: Disk>(
    mut runners: Vec<Runner<Pass<Standing<D>>>>,
    passes: &mut Vec<Pass<Standing<D>>>,
    lists: &mut Vec<Vec<Heard>>,
) -> bool
    requires none { passes.old.items ≡ [] }
    requires room { length runners.items ≤ vec_capacity passes.old }
    requires none_heard { lists.old.items ≡ [] }
    requires room_heard { length runners.items ≤ vec_capacity lists.old }
    ensures all { passes.new.items ≡ map pass_of runners.items }
    ensures heard { lists.new.items ≡ map heard_of runners.items }
    ensures done { result ≡ all_done runners.items }
{
    let mut all = true;
    while let Some(runner) = runners.pop() {
        let Runner { pass, heard, done } = runner;
        all = all & done;
        put_pass(passes, pass);
        put_list(lists, heard);
    }
    runners.destroy_empty();
    all
}
