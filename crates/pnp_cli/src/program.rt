ghost use Rattle.std.specs.Prelude.{◌≡◌, ◌⊎◌, ◌<◌, ◌≤◌, ◌^◌, [], ◌∷◌, ◌++◌, Some, None, IfSome, IfOk, IsErrOf, map, length, true};
ghost use Rattle.pnp_io.specs.Outside.{Rose};
ghost use Rattle.pnp_cli.specs.Words.{texts, settings_of};
ghost use Rattle.pnp_cli.specs.Infs.{infs_in, SomeRose};
ghost use Rattle.pnp_cli.specs.Runs.{named, names_of, IsPrintedFor, IsScriptOutput, IsOutput, IsOutputBy, IsRunOutput, machine, status_of, status_by, is_decided, is_whole, Wrote, Known, told_to, WroteFront, WroteOneFront, Answers, Decides, Untouched};
ghost use Rattle.pnp_cli.specs.Contents.{script_status};
ghost use Rattle.pnp_cli.specs.Pieces.{answer_by};
ghost use Rattle.pnp_cli.specs.Turns.{Awaits};
ghost use Rattle.pnp_machine.specs.Managers.{settings};
ghost use Rattle.notify_front.specs.Desks.{IsAtStart, front_of, told_of};
ghost use Rattle.notify_front.specs.Fronts.{opening_front};
ghost use Rattle.pnp_cli.specs.Lawful.{OfOutput, SomeRun, OfRun, EachState, EachStep, ByDiagram, NothingClashes, AllHoldWhole, OperationsBegan, EndsRestore, DependentsGoFirst, ConflictsAreReal, FewJoin, AllStatesTold, NodesAreKeyed, NothingOnItself, MapIsClear, AllStacksFit, NamesAreKnown, NobodyIsForgotten, EachPassed, EachHoldsPart, HeldInsideWindows, HandlesAreKept, FewAreHeld, NamesAreShown, TreeIsWhole, PromisesKept, KeptRunning, EndIsSo, ClientsPromised, OfFrontRun, EachFrontStep, MachineRuns, ClientsWereAsked, ClientsHear, ClientsDecline, NoticesKeepAll, MachineAlone};
ghost use Rattle.pnp_cli.specs.OwnTraces.{ChecksYes};
ghost use Rattle.pnp_cli.specs.Limits.{IsWithin};
ghost use Rattle.driver_rack.specs.Rows.{unnamed};

use crate::check::run_check;
use crate::ending::write_end;
use crate::infs::{InfsError, read_infs};
use crate::made::run_made;
use crate::parts::{Settings, WordsError};
use crate::pieces::run_pieces;
use crate::refusal::answer_refusal;
use crate::status::Status;
use crate::tally::Tally;
use crate::turn::PieceError;
use crate::words::settings;
use device_ids::TextList;
use driver_rack::{Driver, Drivers, Rack};
use inf_reader::Inf;
use notify_front::Front;
use pnp_io::{Files, Sink};
use pnp_machine::Manager;
use std::alloc::Global;

/// Runs the script of a name over a front to which nothing happened, and writes the end of the output. Where the script has a
/// bad line its number is answered.
fn run_whole<R: Drivers, F: Files, K: Sink>(
    alloc: Global,
    front: &mut Front<R>,
    name: &[u8],
    files: &mut F,
    sink: &mut K,
    tally: &mut Tally,
) -> Result<Option<u64>, PieceError>
    requires awaits { Awaits front.old }
    requires events { front.old.manager.events ≡ 0 }
    ensures decided { IfOk result (λ bad. IfSome (F.contents files.old) (λ told. script_status (told name.now) ≡ Some (answer_by bad))) }
    ensures whole { IfOk result (λ bad. IfSome (F.contents files.old) (λ told. Wrote (IsPrintedFor (told_of front.old) (front_of front.old) (told name.now)) (K.taken sink.old) (K.taken sink.new))) }
    ensures too_large { IsErrOf result PieceError.TooLarge → IfSome (F.contents files.old) (λ told. script_status (told name.now) ≡ Some Status.TooLarge) }
    ensures front { IfSome (F.contents files.old) (λ told. WroteFront (IsPrintedFor (told_of front.old) (front_of front.old) (told name.now)) (K.taken sink.old) (K.taken sink.new)) }
    ensures read_fault { IsErrOf result PieceError.ReadFault → Rose (F.faults files.old name.now) (F.faults files.new name.now) }
    ensures write_fault { IsErrOf result PieceError.WriteFault → Rose (K.faults sink.old) (K.faults sink.new) }
{
    let bad = run_pieces(alloc, front, files, name, sink, tally)?;
    write_end(alloc, front, bad, sink)?;
    Ok(bad)
}

/// Runs the script of a name over a front to which nothing happened.
fn run_front<R: Drivers, F: Files, K: Sink>(
    alloc: Global,
    front: &mut Front<R>,
    name: &[u8],
    files: &mut F,
    sink: &mut K,
) -> Status
    requires awaits { Awaits front.old }
    requires events { front.old.manager.events ≡ 0 }
    ensures words { result ≡ Status.BadWords → ⊥ }
    ensures decided { is_decided result ≡ true → IfSome (F.contents files.old) (λ told. script_status (told name.now) ≡ Some result) }
    ensures whole { is_whole result ≡ true → IfSome (F.contents files.old) (λ told. Wrote (IsPrintedFor (told_of front.old) (front_of front.old) (told name.now)) (K.taken sink.old) (K.taken sink.new)) }
    ensures front { IfSome (F.contents files.old) (λ told. WroteFront (IsPrintedFor (told_of front.old) (front_of front.old) (told name.now)) (K.taken sink.old) (K.taken sink.new)) }
    ensures read_fault { result ≡ Status.ReadFault → Rose (F.faults files.old name.now) (F.faults files.new name.now) }
    ensures write_fault { result ≡ Status.WriteFault → Rose (K.faults sink.old) (K.faults sink.new) }
{
    let mut tally = Tally { steps: 0, moved: 0 };
    match run_whole(alloc, front, name, files, sink, &mut tally) {
        Ok(None) => Status::Done,
        Ok(Some(_)) => Status::BadScript,
        Err(PieceError::ReadFault) => Status::ReadFault,
        Err(PieceError::WriteFault) => Status::WriteFault,
        Err(PieceError::TooLarge) => Status::TooLarge,
        Err(PieceError::WantOfMemory) => Status::WantOfMemory,
    }
}

/// Runs the script of a name over a manager to which nothing happened. The front is made here and handed on, since the checker is slow
/// where a function holds one.
fn run_machine<R: Drivers, F: Files, K: Sink>(
    alloc: Global,
    manager: Manager<R>,
    name: &[u8],
    files: &mut F,
    sink: &mut K,
) -> Status
    requires { IsAtStart manager }
    ensures words { result ≡ Status.BadWords → ⊥ }
    ensures decided { is_decided result ≡ true → IfSome (F.contents files.old) (λ told. script_status (told name.now) ≡ Some result) }
    ensures whole { is_whole result ≡ true → IfSome (F.contents files.old) (λ told. Wrote (IsPrintedFor (settings manager) (opening_front manager.state) (told name.now)) (K.taken sink.old) (K.taken sink.new)) }
    ensures front { IfSome (F.contents files.old) (λ told. WroteFront (IsPrintedFor (settings manager) (opening_front manager.state) (told name.now)) (K.taken sink.old) (K.taken sink.new)) }
    ensures read_fault { result ≡ Status.ReadFault → Rose (F.faults files.old name.now) (F.faults files.new name.now) }
    ensures write_fault { result ≡ Status.WriteFault → Rose (K.faults sink.old) (K.faults sink.new) }
{
    let mut front = Front::new(alloc, manager);
    run_front(alloc, &mut front, name, files, sink)
}

/// Runs the script of a name. The manager is made here and handed on, since the checker is slow where a function holds one.
fn run_script<R: Drivers, F: Files, K: Sink>(
    alloc: Global,
    name: &[u8],
    infs: Vec<Inf>,
    budget: u64,
    rack: R,
    files: &mut F,
    sink: &mut K,
) -> Status
    requires infs { length infs.items ≤ 64 }
    requires budget { budget ≤ 1000000 }
    ensures words { result ≡ Status.BadWords → ⊥ }
    ensures decided { is_decided result ≡ true → IfSome (F.contents files.old) (λ told. script_status (told name.now) ≡ Some result) }
    ensures whole { is_whole result ≡ true → IfSome (F.contents files.old) (λ told. Wrote (IsScriptOutput (machine infs.items budget) (R.rows rack) (told name.now)) (K.taken sink.old) (K.taken sink.new)) }
    ensures front { IfSome (F.contents files.old) (λ told. WroteFront (IsScriptOutput (machine infs.items budget) (R.rows rack) (told name.now)) (K.taken sink.old) (K.taken sink.new)) }
    ensures read_fault { result ≡ Status.ReadFault → Rose (F.faults files.old name.now) (F.faults files.new name.now) }
    ensures write_fault { result ≡ Status.WriteFault → Rose (K.faults sink.old) (K.faults sink.new) }
{
    match Manager::new(alloc, infs, rack, budget) {
        Ok(manager) => run_machine(alloc, manager, name, files, sink),
        Err(_) => Status::WantOfMemory,
    }
}

/// Reads and checks the INFs of these names, and then runs the script of a name.
fn run_named<R: Drivers, F: Files, K: Sink>(
    alloc: Global,
    name: &[u8],
    infs: &TextList,
    budget: u64,
    rack: R,
    files: &mut F,
    sink: &mut K,
) -> Status
    requires infs { length infs.now ≤ 64 }
    requires budget { budget ≤ 1000000 }
    ensures words { result ≡ Status.BadWords → ⊥ }
    ensures decided { is_decided result ≡ true → IfSome (F.contents files.old) (λ told. status_by (infs_in told infs.now) (told name.now) ≡ Some result) }
    ensures whole { is_whole result ≡ true → IfSome (F.contents files.old) (λ told. Wrote (IsOutputBy (R.rows rack) budget (infs_in told infs.now) (told name.now)) (K.taken sink.old) (K.taken sink.new)) }
    ensures front { IfSome (F.contents files.old) (λ told. WroteFront (IsOutputBy (R.rows rack) budget (infs_in told infs.now) (told name.now)) (K.taken sink.old) (K.taken sink.new)) }
    ensures read_fault { result ≡ Status.ReadFault → SomeRose (F.faults files.old) (F.faults files.new) (infs.now ++ name.now ∷ []) }
    ensures write_fault { result ≡ Status.WriteFault → Rose (K.faults sink.old) (K.faults sink.new) }
{
    match read_infs(alloc, files, infs) {
        Ok(infs) => run_script(alloc, name, infs, budget, rack, files, sink),
        Err(InfsError::Refused(number, error)) => answer_refusal(alloc, number, error, sink),
        Err(InfsError::TooLarge) => Status::TooLarge,
        Err(InfsError::ReadFault) => Status::ReadFault,
        Err(InfsError::WantOfMemory) => Status::WantOfMemory,
    }
}

/// Runs what settings without a trace to check say: the script that they name, or the one that is generated.
fn run_settings<R: Drivers, F: Files, K: Sink>(
    alloc: Global,
    settings: &Settings,
    rack: R,
    files: &mut F,
    sink: &mut K,
) -> Status
    requires { IsWithin settings.now }
    ensures words { result ≡ Status.BadWords → ⊥ }
    ensures decided { is_decided result ≡ true → IfSome (told_to settings.now.script (F.contents files.old)) (λ told. status_of told settings.now ≡ Some result) }
    ensures whole { is_whole result ≡ true → IfSome (told_to settings.now.script (F.contents files.old)) (λ told. Wrote (IsRunOutput (R.rows rack) told settings.now) (K.taken sink.old) (K.taken sink.new)) }
    ensures front { IfSome (told_to settings.now.script (F.contents files.old)) (λ told. WroteFront (IsRunOutput (R.rows rack) told settings.now) (K.taken sink.old) (K.taken sink.new)) }
    ensures read_fault { result ≡ Status.ReadFault → SomeRose (F.faults files.old) (F.faults files.new) (names_of settings.now.infs settings.now.script) }
    ensures write_fault { result ≡ Status.WriteFault → Rose (K.faults sink.old) (K.faults sink.new) }
{
    let budget = settings.budget;
    match &settings.script {
        Some(name) => run_named(
            alloc,
            name.bytes(),
            &settings.infs,
            budget,
            rack,
            files,
            sink,
        ),
        None => match settings.made {
            Some(n) => run_made(alloc, n, budget, rack, sink),
            None => unreachable!(),
        },
    }
}

/// The same over drivers that become a rack.
fn run_drivers<D: Driver, F: Files, K: Sink>(
    alloc: Global,
    settings: &Settings,
    drivers: Vec<D>,
    files: &mut F,
    sink: &mut K,
) -> Status
    requires within { IsWithin settings.now }
    requires drivers { length drivers.items < 2 ^ 32 }
    requires none { settings.now.check ≡ None }
    ensures words { result ≡ Status.BadWords → ⊥ }
    ensures decided { is_decided result ≡ true → IfSome (told_to settings.now.script (F.contents files.old)) (λ told. Decides (map (λ d. unnamed (D.kind_of d) (D.book d)) drivers.items) told settings.now result) }
    ensures whole { is_whole result ≡ true → IfSome (told_to settings.now.script (F.contents files.old)) (λ told. Wrote (IsOutput (map (λ d. unnamed (D.kind_of d) (D.book d)) drivers.items) told settings.now) (K.taken sink.old) (K.taken sink.new)) }
    ensures front { IfSome (told_to settings.now.script (F.contents files.old)) (λ told. WroteFront (IsOutput (map (λ d. unnamed (D.kind_of d) (D.book d)) drivers.items) told settings.now) (K.taken sink.old) (K.taken sink.new)) }
    ensures read_fault { result ≡ Status.ReadFault → SomeRose (F.faults files.old) (F.faults files.new) (named settings.now) }
    ensures write_fault { result ≡ Status.WriteFault → Rose (K.faults sink.old) (K.faults sink.new) }
{
    match Rack::make(alloc, drivers) {
        Ok(rack) => run_settings(alloc, settings, rack, files, sink),
        Err(_) => Status::WantOfMemory,
    }
}

/// Runs what settings say, or checks their trace.
fn run_accepted<D: Driver, F: Files, K: Sink>(
    alloc: Global,
    settings: &Settings,
    drivers: Vec<D>,
    files: &mut F,
    sink: &mut K,
) -> Status
    requires within { IsWithin settings.now }
    requires drivers { length drivers.items < 2 ^ 32 }
    ensures words { result ≡ Status.BadWords → ⊥ }
    ensures decided { is_decided result ≡ true → IfSome (told_to settings.now.script (F.contents files.old)) (λ told. Decides (map (λ d. unnamed (D.kind_of d) (D.book d)) drivers.items) told settings.now result) }
    ensures whole { is_whole result ≡ true → IfSome (told_to settings.now.script (F.contents files.old)) (λ told. Wrote (IsOutput (map (λ d. unnamed (D.kind_of d) (D.book d)) drivers.items) told settings.now) (K.taken sink.old) (K.taken sink.new)) }
    ensures front { IfSome (told_to settings.now.script (F.contents files.old)) (λ told. WroteFront (IsOutput (map (λ d. unnamed (D.kind_of d) (D.book d)) drivers.items) told settings.now) (K.taken sink.old) (K.taken sink.new)) }
    ensures read_fault { result ≡ Status.ReadFault → SomeRose (F.faults files.old) (F.faults files.new) (named settings.now) }
    ensures write_fault { result ≡ Status.WriteFault → Rose (K.faults sink.old) (K.faults sink.new) }
{
    match &settings.check {
        Some(trace) => run_check(alloc, settings, trace.bytes(), &drivers, files, sink),
        None => run_drivers(alloc, settings, drivers, files, sink),
    }
}

/// The same as `run`, over drivers of one type; the laws are clauses of `run` alone.
fn run_over<D: Driver, F: Files, K: Sink>(
    alloc: Global,
    words: &[String],
    drivers: Vec<D>,
    files: &mut F,
    sink: &mut K,
) -> Status
    requires { length drivers.items < 2 ^ 32 }
    ensures bad_words { result ≡ Status.BadWords → settings_of (texts words.now) ≡ None }
    ensures refused { settings_of (texts words.now) ≡ None → (result ≡ Status.BadWords) ⊎ (result ≡ Status.WantOfMemory) }
    ensures untouched { settings_of (texts words.now) ≡ None → Untouched F.contents F.faults K.taken K.faults files.old files.new sink.old sink.new }
    ensures decided { is_decided result ≡ true → Known (texts words.now) (F.contents files.old) (λ s told. Decides (map (λ d. unnamed (D.kind_of d) (D.book d)) drivers.items) told s result) }
    ensures whole { is_whole result ≡ true → Known (texts words.now) (F.contents files.old) (λ s told. Wrote (IsOutput (map (λ d. unnamed (D.kind_of d) (D.book d)) drivers.items) told s) (K.taken sink.old) (K.taken sink.new)) }
    ensures front { Known (texts words.now) (F.contents files.old) (λ s told. WroteFront (IsOutput (map (λ d. unnamed (D.kind_of d) (D.book d)) drivers.items) told s) (K.taken sink.old) (K.taken sink.new)) }
    ensures read_fault { result ≡ Status.ReadFault → IfSome (settings_of (texts words.now)) (λ s. SomeRose (F.faults files.old) (F.faults files.new) (named s)) }
    ensures write_fault { result ≡ Status.WriteFault → Rose (K.faults sink.old) (K.faults sink.new) }
{
    match settings(alloc, words) {
        Err(WordsError::BadWords) => Status::BadWords,
        Err(WordsError::WantOfMemory) => Status::WantOfMemory,
        Ok(settings) => run_accepted(alloc, &settings, drivers, files, sink),
    }
}

/// Reads the words, then each INF that they name, which is checked before the next one is read, and then the
/// script, runs it over the drivers of a rack, and writes its output and nothing else; where an INF is refused,
/// its number, error and line are the output. With `--gen N` no file is read, and none has to tell its contents: the script and the INF are generated ones, and the
/// summary of the run is all that is written. With `--check TRACE` the INFs, the trace and the script are read, each whole and in
/// this order, nothing is run, and the output is the line `yes` where the trace is a run of the machine for the script over drivers of
/// these kinds, whatever they answer, or else `no line N` with its first line that is not. The condition is that the rack has fewer than 2^32 drivers. Each
/// status comes as its clauses say; after a fault, and after want of memory, what was written is a front of the
/// output. The output tells a run of the front, and of the machine behind it, that keeps the laws of the last clauses. It always
/// returns. Cost: near linear in the bytes read, and that of the steps of front and machine. This project's own.
pub fn run<F: Files, K: Sink>(
    alloc: Global,
    words: &[String],
    rack: Vec<Box<dyn Driver>>,
    files: &mut F,
    sink: &mut K,
) -> Status
    requires { length rack.items < 2 ^ 32 }
    ensures bad_words { result ≡ Status.BadWords → settings_of (texts words.now) ≡ None }
    ensures refused { settings_of (texts words.now) ≡ None → (result ≡ Status.BadWords) ⊎ (result ≡ Status.WantOfMemory) }
    ensures untouched { settings_of (texts words.now) ≡ None → Untouched F.contents F.faults K.taken K.faults files.old files.new sink.old sink.new }
    ensures decided { is_decided result ≡ true → Known (texts words.now) (F.contents files.old) (λ s told. Decides (map (λ b. unnamed (kind_of b) (book b)) rack.items) told s result) }
    ensures whole { is_whole result ≡ true → Known (texts words.now) (F.contents files.old) (λ s told. Wrote (IsOutput (map (λ b. unnamed (kind_of b) (book b)) rack.items) told s) (K.taken sink.old) (K.taken sink.new)) }
    ensures front { Known (texts words.now) (F.contents files.old) (λ s told. WroteOneFront (IsOutput (map (λ b. unnamed (kind_of b) (book b)) rack.items) told s) (K.taken sink.old) (K.taken sink.new)) }
    ensures read_fault { result ≡ Status.ReadFault → IfSome (settings_of (texts words.now)) (λ s. SomeRose (F.faults files.old) (F.faults files.new) (named s)) }
    ensures write_fault { result ≡ Status.WriteFault → Rose (K.faults sink.old) (K.faults sink.new) }
    ensures answered { Known (texts words.now) (F.contents files.old) (λ s told. Answers (Decides (map (λ b. unnamed (kind_of b) (book b)) rack.items) told s) (SomeRose (F.faults files.old) (F.faults files.new) (named s)) (Rose (K.faults sink.old) (K.faults sink.new)) result) }
    ensures tells { OfOutput SomeRun (texts words.now) (F.contents files.old) (map (λ b. unnamed (kind_of b) (book b)) rack.items) }
    ensures follows_diagram { OfOutput (EachStep ByDiagram) (texts words.now) (F.contents files.old) (map (λ b. unnamed (kind_of b) (book b)) rack.items) }
    ensures nothing_clashes { OfOutput (EachState NothingClashes) (texts words.now) (F.contents files.old) (map (λ b. unnamed (kind_of b) (book b)) rack.items) }
    ensures all_hold_whole { OfOutput (EachState AllHoldWhole) (texts words.now) (F.contents files.old) (map (λ b. unnamed (kind_of b) (book b)) rack.items) }
    ensures each_end_restores { OfOutput (EachStep EndsRestore) (texts words.now) (F.contents files.old) (map (λ b. unnamed (kind_of b) (book b)) rack.items) }
    ensures dependents_first { OfOutput (EachStep DependentsGoFirst) (texts words.now) (F.contents files.old) (map (λ b. unnamed (kind_of b) (book b)) rack.items) }
    ensures each_conflict_is_real { OfOutput (EachStep ConflictsAreReal) (texts words.now) (F.contents files.old) (map (λ b. unnamed (kind_of b) (book b)) rack.items) }
    ensures operations_begin { OfOutput (EachStep OperationsBegan) (texts words.now) (F.contents files.old) (map (λ b. unnamed (kind_of b) (book b)) rack.items) }
    ensures joins_are_limited { OfOutput (OfRun FewJoin) (texts words.now) (F.contents files.old) (map (λ b. unnamed (kind_of b) (book b)) rack.items) }
    ensures states_are_told { OfOutput (EachStep AllStatesTold) (texts words.now) (F.contents files.old) (map (λ b. unnamed (kind_of b) (book b)) rack.items) }
    ensures nodes_are_keyed { OfOutput (EachState NodesAreKeyed) (texts words.now) (F.contents files.old) (map (λ b. unnamed (kind_of b) (book b)) rack.items) }
    ensures nothing_depends_on_itself { OfOutput (EachState NothingOnItself) (texts words.now) (F.contents files.old) (map (λ b. unnamed (kind_of b) (book b)) rack.items) }
    ensures nothing_printed_clashes { OfOutput (EachState MapIsClear) (texts words.now) (F.contents files.old) (map (λ b. unnamed (kind_of b) (book b)) rack.items) }
    ensures stacks_fit { OfOutput (EachState AllStacksFit) (texts words.now) (F.contents files.old) (map (λ b. unnamed (kind_of b) (book b)) rack.items) }
    ensures names_are_known { OfOutput (EachStep NamesAreKnown) (texts words.now) (F.contents files.old) (map (λ b. unnamed (kind_of b) (book b)) rack.items) }
    ensures nobody_is_forgotten { OfOutput (EachState NobodyIsForgotten) (texts words.now) (F.contents files.old) (map (λ b. unnamed (kind_of b) (book b)) rack.items) }
    ensures each_holds_a_part { OfOutput (EachState EachHoldsPart) (texts words.now) (F.contents files.old) (map (λ b. unnamed (kind_of b) (book b)) rack.items) }
    ensures held_inside_windows { OfOutput (EachState HeldInsideWindows) (texts words.now) (F.contents files.old) (map (λ b. unnamed (kind_of b) (book b)) rack.items) }
    ensures handles { OfOutput (EachState HandlesAreKept) (texts words.now) (F.contents files.old) (map (λ b. unnamed (kind_of b) (book b)) rack.items) }
    ensures few_held { OfOutput (EachPassed FewAreHeld) (texts words.now) (F.contents files.old) (map (λ b. unnamed (kind_of b) (book b)) rack.items) }
    ensures shown { OfOutput (EachStep NamesAreShown) (texts words.now) (F.contents files.old) (map (λ b. unnamed (kind_of b) (book b)) rack.items) }
    ensures each_node_is_printed_once { OfOutput (EachState TreeIsWhole) (texts words.now) (F.contents files.old) (map (λ b. unnamed (kind_of b) (book b)) rack.items) }
    ensures promises { OfOutput (EachStep PromisesKept) (texts words.now) (F.contents files.old) (map (λ b. unnamed (kind_of b) (book b)) rack.items) }
    ensures keeps { OfOutput (EachStep KeptRunning) (texts words.now) (F.contents files.old) (map (λ b. unnamed (kind_of b) (book b)) rack.items) }
    ensures ending { OfOutput (EachState EndIsSo) (texts words.now) (F.contents files.old) (map (λ b. unnamed (kind_of b) (book b)) rack.items) }
    ensures runs_the_machine { OfOutput (OfFrontRun MachineRuns) (texts words.now) (F.contents files.old) (map (λ b. unnamed (kind_of b) (book b)) rack.items) }
    ensures asks_all_before { OfOutput (EachFrontStep ClientsWereAsked) (texts words.now) (F.contents files.old) (map (λ b. unnamed (kind_of b) (book b)) rack.items) }
    ensures all_hear_the_result { OfOutput (OfFrontRun ClientsHear) (texts words.now) (F.contents files.old) (map (λ b. unnamed (kind_of b) (book b)) rack.items) }
    ensures declined_by_a_client { OfOutput (EachFrontStep ClientsDecline) (texts words.now) (F.contents files.old) (map (λ b. unnamed (kind_of b) (book b)) rack.items) }
    ensures clients { OfOutput (EachFrontStep ClientsPromised) (texts words.now) (F.contents files.old) (map (λ b. unnamed (kind_of b) (book b)) rack.items) }
    ensures notices_keep_the_core { OfOutput (EachFrontStep NoticesKeepAll) (texts words.now) (F.contents files.old) (map (λ b. unnamed (kind_of b) (book b)) rack.items) }
    ensures same_without_clients { OfOutput (OfFrontRun MachineAlone) (texts words.now) (F.contents files.old) (map (λ b. unnamed (kind_of b) (book b)) rack.items) }
    ensures each_output_is_a_trace { OfOutput ChecksYes (texts words.now) (F.contents files.old) (map (λ b. unnamed (kind_of b) (book b)) rack.items) }
{
    run_over(alloc, words, rack, files, sink)
}
