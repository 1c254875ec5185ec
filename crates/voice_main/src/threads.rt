//! The lines of a script, each caller's on a thread of its own.

ghost use Rattle.std.specs.Prelude.{ℕ, [], ◌≡◌, ◌≤◌, true, length};
ghost use Rattle.script_lang.specs.Verbs.{is_built_verb};
ghost use Rattle.script_lang.specs.Whole.{IsWhole};
ghost use Rattle.voice_store.specs.Shown.{history_of, tapes_in};
ghost use Rattle.voice_store.specs.Facts.{GoesOn};
ghost use Rattle.voice_server.specs.Kept.{IsKept};
ghost use Rattle.served_files.specs.Files.{AreEnough, queues_of};
ghost use Rattle.voice_main.specs.Ran.{Performed, Begun, MadeGiving};

use crate::calling::{Called, closed};
use callers::{Outcome, run_threads};
use script_lang::Script;
use served_files::Heard;
use std::alloc::Global;
use std::sync::Wait;
use std::thread::Threads;
use voice_model::Tapes;
use voice_outside::{Disk, Gate};
use voice_server::Server;
use voice_store::Store;

/// Shares a store among the callers of a script, who run their lines.
pub(crate) fn share<R: Threads + Wait + Sync, D: Disk, G: Gate>(
    rt: &R,
    alloc: Global,
    store: Store<D>,
    script: &Script,
    tapes: &Tapes,
    gate: &G,
) -> Called<D>
    requires kept { IsKept D.told store }
    requires fresh { history_of store ≡ [] }
    requires tapes { tapes_in store ≡ tapes.now }
    requires whole { IsWhole is_built_verb script.now }
    requires there { length tapes.now ≡ length script.now.samples }
    ensures so_far { (k : ℕ) × Performed tapes.now (Begun true tapes.now script.now k result.history.items) (D.told store.origin) (D.told result.disk) result.history.items }
    ensures finished { result.is_finished ≡ true → Performed tapes.now (MadeGiving true tapes.now script.now (D.told store.origin) (D.told result.disk) result.history.items (queues_of result.heard.items)) (D.told store.origin) (D.told result.disk) result.history.items }
    ensures enough { result.is_finished ≡ true → AreEnough result.history.items result.heard.items × (length result.heard.items ≤ 16) }
    ensures goes { GoesOn (D.told store.origin) (D.told result.disk) }
{
    let (server, passes) = match Server::new(alloc, store, script.callers) {
        Ok(made) => made,
        Err((_none, store)) => return closed(store, Vec::new(alloc), false),
    };
    // There may be no list of what callers heard where one stopped: the proof takes this one.
    let _nothing: Vec<Heard> = Vec::new(alloc);
    let Outcome {
        passes,
        heard,
        memory,
    } = run_threads(rt, alloc, &server, passes, script, tapes, gate);
    let store = server.close(passes, Vec::new(alloc));
    closed(store, heard, memory)
}
