//! The lines of a script, run in order.

ghost use Rattle.std.specs.Prelude.{ℕ, List, [], Some, ◌≡◌, ◌++◌, ◌≤◌, ◌⊎◌, IsTrue, IfOk, OnOk, OnErr, All, length, map};
ghost use Rattle.voice_model.specs.declared.calls.Entry.{Entry};
ghost use Rattle.voice_model.specs.Image.{opened_from};
ghost use Rattle.voice_model.specs.State.{State};
ghost use Rattle.voice_model.specs.Step.{after};
ghost use Rattle.voice_model.specs.Follows.{Binding};
ghost use Rattle.serving_laws.specs.Lanes.{FedBy, IsAtRest};
ghost use Rattle.voice_store.specs.Shown.{Keeps, history_of, tapes_in};
ghost use Rattle.voice_store.specs.Facts.{GoesOn};
ghost use Rattle.script_lang.specs.Verbs.{is_built_verb};
ghost use Rattle.script_lang.specs.Grammar.{verb_name, IsBound};
ghost use Rattle.script_lang.specs.Errands.{HasTape, HasFile, HasItsRopes, IsInItsRange, SameValues};
ghost use Rattle.script_lang.specs.Parts.{served};
ghost use Rattle.script_lang.specs.Whole.{IsWhole};
ghost use Rattle.servings.specs.Asked.{asked_entries};
ghost use Rattle.served_files.specs.Lines.{lines_of_caller, entries_of_caller};
ghost use Rattle.served_files.specs.Given.{GivesFiles, GivesTo, FeedsAlone};
ghost use Rattle.served_files.specs.Files.{heard_of};
ghost use Rattle.voice_main.specs.Ordered.{InOrder, BeginsInOrder, LineBegan, unset};
ghost use Rattle.voice_main.specs.Done.{to_serve, CallMade, LaneServed, LaneServedInto, LaneGave, LineDone, LineGave};

use script_lang::{Env, Line, Script, Verb, resolve};
use served_files::{Heard, keep};
use servings::serve_alone;
use std::alloc::Global;
use voice_model::{Reply, Tapes};
use voice_outside::{Disk, Gate};
use voice_store::Store;
use voice_units::{Lane, NoMemory};

// The lane that a verb serves.
fn lane_of(verb: &Verb) -> Option<Lane>
    ensures { result ≡ served verb.now }
{
    match verb {
        Verb::Play(lane, _, _, _) => Some(*lane),
        Verb::Serve(lane) => Some(*lane),
        _ => None,
    }
}

// The lane that a line serves behind the call that it made: none where that call made no job.
fn lane_behind(verb: &Verb, made: &Option<Reply>) -> Option<Lane>
    ensures { result ≡ to_serve (served verb.now) made.now }
{
    match made {
        None => lane_of(verb),
        Some(Reply::Job(_)) => lane_of(verb),
        Some(_) => None,
    }
}

// Makes the call of a line, if it has one, and sets the variable that it binds. After `NoMemory` the call's entry may stand.
fn call_line<D: Disk, G: Gate>(
    alloc: Global,
    store: &mut Store<D>,
    tapes: &Tapes,
    line: &Line,
    variables: &mut Env,
    gate: &G,
) -> Result<Option<Reply>, NoMemory>
    requires tapes { tapes_in store.old ≡ tapes.now }
    requires verb { IsTrue (is_built_verb (verb_name line.now.verb)) }
    requires tape { HasTape (length tapes.now) line.now.verb }
    requires ropes { HasItsRopes line.now.verb }
    requires range { IsInItsRange line.now.verb }
    requires least { 1 ≤ line.now.caller }
    requires most { line.now.caller ≤ 16 }
    ensures stands { (first : State) → Keeps D.told first store.old → Keeps D.told first store.new }
    ensures goes { GoesOn (D.told store.old.disk) (D.told store.new.disk) }
    ensures origin { store.new.origin ≡ store.old.origin }
    ensures tapes_stay { tapes_in store.new ≡ tapes_in store.old }
    ensures ok { (stand : List Binding) → SameValues variables.old stand → IfOk result (λ made. CallMade tapes.now line.now stand variables.new made (history_of store.old) (history_of store.new)) }
    ensures began { (stand : List Binding) → SameValues variables.old stand → OnErr result ((asked_entries (history_of store.new) ≡ asked_entries (history_of store.old)) ⊎ LineBegan tapes.now line.now stand (history_of store.old) (history_of store.new)) }
{
    let Some(call) = resolve(alloc, line, variables, tapes)? else {
        return Ok(None);
    };
    gate.before(line.caller, line.number, 0);
    let reply = store.apply(line.caller, call)?;
    variables.bind(line, &reply)?;
    Ok(Some(reply))
}

// Serves the first job of a lane for the caller of a line, and keeps what was heard of it, if there was one. After `NoMemory` it may be served in part.
fn serve_line<D: Disk, G: Gate>(
    alloc: Global,
    store: &mut Store<D>,
    line: &Line,
    lane: Lane,
    turn: u32,
    heard: &mut Vec<Heard>,
    gate: &G,
) -> Result<(), NoMemory>
    requires least { 1 ≤ line.now.caller }
    requires most { line.now.caller ≤ 16 }
    requires file { (name : List ℕ) × (line.now.file ≡ Some name) }
    ensures stands { (first : State) → Keeps D.told first store.old → Keeps D.told first store.new }
    ensures goes { GoesOn (D.told store.old.disk) (D.told store.new.disk) }
    ensures origin { store.new.origin ≡ store.old.origin }
    ensures tapes_stay { tapes_in store.new ≡ tapes_in store.old }
    ensures ok { OnOk result (LaneServed line.now.caller lane line.now.file (history_of store.old) (history_of store.new) heard.old.items heard.new.items) }
    ensures err { OnErr result (LaneServedInto line.now.caller lane (history_of store.old) (history_of store.new)) }
    ensures bytes { IsTrue (D.told store.old.origin).honest → (first : State) → opened_from (D.told store.old.origin).bytes ≡ Some first → Keeps D.told first store.old → FedBy line.now.caller lane (history_of store.new) → IsAtRest (after first (tapes_in store.old) (history_of store.old)) lane → OnOk result (LaneGave first (tapes_in store.old) line.now.caller lane (history_of store.old) (history_of store.new) heard.old.items heard.new.items) }
{
    let Some(file) = &line.file else {
        unreachable!()
    };
    let mut bytes = Vec::new(alloc);
    let reply = serve_alone(
        store,
        line.caller,
        lane,
        &mut bytes,
        gate,
        line.number,
        turn,
    )?;
    keep(heard, file.name(), bytes, &reply)
}

// Does a line: makes its call, if it has one, and then serves its lane, if it serves one. After `NoMemory` the first of the line's entries may stand.
fn run_line<D: Disk, G: Gate>(
    alloc: Global,
    store: &mut Store<D>,
    tapes: &Tapes,
    line: &Line,
    variables: &mut Env,
    heard: &mut Vec<Heard>,
    gate: &G,
) -> Result<(), NoMemory>
    requires tapes { tapes_in store.old ≡ tapes.now }
    requires verb { IsTrue (is_built_verb (verb_name line.now.verb)) }
    requires tape { HasTape (length tapes.now) line.now.verb }
    requires file { HasFile line.now.verb line.now.file }
    requires bind { IsBound line.now.verb line.now.bind }
    requires ropes { HasItsRopes line.now.verb }
    requires range { IsInItsRange line.now.verb }
    requires least { 1 ≤ line.now.caller }
    requires most { line.now.caller ≤ 16 }
    ensures stands { (first : State) → Keeps D.told first store.old → Keeps D.told first store.new }
    ensures goes { GoesOn (D.told store.old.disk) (D.told store.new.disk) }
    ensures origin { store.new.origin ≡ store.old.origin }
    ensures tapes_stay { tapes_in store.new ≡ tapes_in store.old }
    ensures ok { (stand : List Binding) → SameValues variables.old stand → OnOk result (LineDone tapes.now line.now stand variables.new (history_of store.old) (history_of store.new) heard.old.items heard.new.items) }
    ensures began { (stand : List Binding) → SameValues variables.old stand → OnErr result ((asked_entries (history_of store.new) ≡ asked_entries (history_of store.old)) ⊎ LineBegan tapes.now line.now stand (history_of store.old) (history_of store.new)) }
    ensures grown { OnOk result ((more : List Entry) × (history_of store.new ≡ history_of store.old ++ more)) }
    ensures bytes { IsTrue (D.told store.old.origin).honest → (first : State) → opened_from (D.told store.old.origin).bytes ≡ Some first → Keeps D.told first store.old → ((lane : ℕ) → IsAtRest (after first tapes.now (history_of store.old)) lane) → ((lane : ℕ) → served line.now.verb ≡ Some lane → FedBy line.now.caller lane (history_of store.new)) → OnOk result (LineGave first tapes.now line.now.caller (history_of store.old) (history_of store.new) heard.old.items heard.new.items) }
{
    let made = call_line(alloc, store, tapes, line, variables, gate)?;
    let Some(lane) = lane_behind(&line.verb, &made) else {
        gate.after(line.caller, line.number);
        return Ok(());
    };
    let turn = if made.is_some() { 1 } else { 0 };
    serve_line(alloc, store, line, lane, turn, heard, gate)?;
    gate.after(line.caller, line.number);
    Ok(())
}

// No caller has set a variable.
fn no_variables(alloc: Global, callers: u16) -> Result<Vec<Env>, NoMemory>
    ensures len { IfOk result (λ all. length all.items ≡ callers) }
    ensures unset { IfOk result (λ all. All (λ variables. variables ≡ []) all.items) }
{
    let mut all = Vec::new(alloc);
    for _ in 0..callers {
        all.push(Env::new(alloc))?;
    }
    Ok(all)
}

// No caller heard anything.
fn nothing_heard(alloc: Global, callers: u16) -> Result<Vec<Vec<Heard>>, NoMemory>
    ensures len { IfOk result (λ all. length all.items ≡ callers) }
    ensures none { IfOk result (λ all. All (λ heard. heard.items ≡ []) all.items) }
{
    let mut all = Vec::new(alloc);
    for _ in 0..callers {
        all.push(Vec::new(alloc))?;
    }
    Ok(all)
}

/// Runs the lines in the script's order: each makes its call of the store, and serves its lane, if it serves one. There is a list of what each caller heard. After `NoMemory` the lines before stand, and perhaps the first of the line's own entries.
pub fn run_lines<D: Disk, G: Gate>(
    alloc: Global,
    store: &mut Store<D>,
    tapes: &Tapes,
    script: &Script,
    gate: &G,
) -> Result<Vec<Vec<Heard>>, NoMemory>
    requires tapes { tapes_in store.old ≡ tapes.now }
    requires history { history_of store.old ≡ [] }
    requires lines { IsWhole is_built_verb script.now }
    requires samples { length tapes.now ≡ length script.now.samples }
    ensures stands { (first : State) → Keeps D.told first store.old → Keeps D.told first store.new }
    ensures whole { OnOk result (InOrder tapes.now unset script.now.lines (asked_entries (history_of store.new))) }
    ensures so_far { (k : ℕ) × BeginsInOrder tapes.now script.now.lines k (asked_entries (history_of store.new)) }
    ensures names { IfOk result (λ heard. (caller : ℕ) → 1 ≤ caller → GivesFiles tapes.now [] (lines_of_caller caller script.now.lines) (entries_of_caller caller (asked_entries (history_of store.new))) (map (λ h. h.file) (heard_of heard.items caller))) }
    ensures lists { IfOk result (λ heard. length heard.items ≡ script.now.callers) }
    // On an honest disk that was just opened each caller heard what its servings give, where it alone feeds the lanes that its lines serve.
    ensures bytes { IsTrue (D.told store.old.origin).honest → (first : State) → opened_from (D.told store.old.origin).bytes ≡ Some first → Keeps D.told first store.old → ((lane : ℕ) → IsAtRest first lane) → ((caller : ℕ) → FeedsAlone script.now.lines caller (history_of store.new)) → IfOk result (λ heard. (caller : ℕ) → 1 ≤ caller → GivesTo caller first tapes.now (history_of store.new) (map (λ h. h.bytes.items) (heard_of heard.items caller))) }
    ensures goes { GoesOn (D.told store.old.disk) (D.told store.new.disk) }
    ensures origin { store.new.origin ≡ store.old.origin }
    ensures tapes_stay { tapes_in store.new ≡ tapes_in store.old }
{
    let mut variables = no_variables(alloc, script.callers)?;
    let mut heard = nothing_heard(alloc, script.callers)?;
    for line in &script.lines {
        let caller = line.caller as usize - 1;
        let own = &mut variables[caller];
        let files = &mut heard[caller];
        run_line(alloc, store, tapes, line, own, files, gate)?;
    }
    Ok(heard)
}
