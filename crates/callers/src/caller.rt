//! All lines of a caller.

ghost use Rattle.std.specs.Prelude.{ℕ, ◌≡◌, [], true, false, length};
ghost use Rattle.script_lang.specs.Verbs.{is_built_verb};
ghost use Rattle.script_lang.specs.Whole.{IsWhole};
ghost use Rattle.turnstile.specs.Passes.{mine};
ghost use Rattle.voice_server.specs.Served.{tapes_of, IsPassOf};
ghost use Rattle.callers.specs.Lines.{Followed, FollowedInto, Stopped};
ghost use Rattle.served_files.specs.Given.{Gave, names_in};
ghost use Rattle.callers.specs.Seats.{IsReadyPass, IsHeardBy};

use crate::lines::run_own_line;
use crate::places::{Places, Visit};
use script_lang::{Env, Script};
use served_files::Heard;
use std::alloc::Global;
use std::sync::Wait;
use turnstile::Pass;
use voice_model::Tapes;
use voice_outside::{Disk, Gate};
use voice_server::{Server, Standing};

/// Runs the lines of the pass's caller in order, each at a place, and keeps what its servings give. False where memory ran out; then the lines before stand, and perhaps the first entries of that line.
pub(crate) fn run_caller<R: Wait, D: Disk, G: Gate>(
    rt: &R,
    alloc: Global,
    server: &Server<D>,
    pass: &mut Pass<Standing<D>>,
    script: &Script,
    tapes: &Tapes,
    heard: &mut Vec<Heard>,
    gate: &G,
    places: &Places,
) -> bool
    requires pass { IsReadyPass server.now pass.old }
    requires none { heard.old.items ≡ [] }
    requires tapes { tapes_of server.now ≡ tapes.now }
    requires lines { IsWhole is_built_verb script.now }
    requires samples { length tapes.now ≡ length script.now.samples }
    ensures pass { IsPassOf server.now pass.new }
    ensures caller { pass.new.caller ≡ pass.old.caller }
    ensures whole { result ≡ true → Followed tapes.now script.now.lines (length script.now.lines) pass.old.caller (mine pass.old) (mine pass.new) }
    ensures gave { result ≡ true → Gave tapes.now script.now.lines pass.old.caller (mine pass.old) (mine pass.new) (names_in heard.new.items) }
    ensures bytes { result ≡ true → IsHeardBy D.told tapes.now server.now script.now.lines pass.old pass.new heard.new.items }
    ensures stopped { result ≡ false → Stopped tapes.now script.now.lines pass.old.caller (mine pass.old) (mine pass.new) }
    ensures so_far { (k : ℕ) × FollowedInto tapes.now script.now.lines k pass.old.caller (mine pass.old) (mine pass.new) }
{
    let mut variables = Env::new(alloc);
    let mut visit = Visit::new(places, pass.caller());
    for line in &script.lines {
        visit.before(rt, line.caller);
        if run_own_line(
            rt,
            alloc,
            server,
            pass,
            tapes,
            line,
            &mut variables,
            heard,
            gate,
        )
        .is_err()
        {
            visit.end();
            return false;
        }
    }
    visit.end();
    true
}
