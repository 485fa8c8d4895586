ghost use Rattle.std.specs.Prelude.{◌≡◌, ◌⊎◌, ◌<◌, ◌≤◌, ◌^◌, ◌++◌, ◌∷◌, [], ℕ, List, Some, None, Ok, IfSome, IfOk, IsErrOf, map, length, true};
ghost use Rattle.pnp_io.specs.Outside.{Rose, HoldsMore};
ghost use Rattle.pnp_io.specs.declared.whole.ReadError.TheVariants.{ReadFault, TooLarge};
ghost use Rattle.driver_rack.specs.Rows.{unnamed};
ghost use Rattle.pnp_cli.specs.Words.{texts, settings_of};
ghost use Rattle.pnp_cli.specs.Infs.{infs_in, limit, SomeRose};
ghost use Rattle.pnp_cli.specs.Limits.{IsWithin};
ghost use Rattle.pnp_cli.specs.Runs.{named, status_by, Decides, Wrote, Given, Untouched};
ghost use Rattle.pnp_cli.specs.declared.status.Status.{Status};
ghost use Rattle.view_cli.specs.Answers.{IsView, IsViewBy, IsViewed, IsTooLarge, IsTooLargeFor, WroteOut, WroteSome, asks_to_step, is_step, is_told, opens_with_step, plain_words, script_of, script_named};

use crate::refusal::page_refusal;
use crate::viewed::{Viewed, page_of};
use device_ids::TextList;
use driver_rack::{Driver, Drivers, Rack};
use inf_reader::Inf;
use pnp_cli::{InfsError, LIMIT, Settings, Status, WordsError, read_infs, settings};
use pnp_io::{Files, ReadError, Sink, read_all, write_all};
use std::alloc::Global;

/// The page for the script of this name and these INFs, and the answer.
fn page_script<R: Drivers, F: Files>(
    alloc: Global,
    name: &[u8],
    infs: Vec<Inf>,
    budget: u64,
    steps: bool,
    rack: R,
    files: &mut F,
) -> Result<Viewed, ReadError>
    requires infs { length infs.items ≤ 64 }
    requires budget { budget ≤ 1000000 }
    ensures gives { IfOk result (λ e. IfSome (F.contents files.old) (λ told. IsViewed steps (R.rows rack) budget (Ok infs.items) (told name.now) e.text.items e.status)) }
    ensures told { IfOk result (λ e. is_told e.status ≡ true) }
    ensures too_large { IsErrOf result TooLarge → HoldsMore (F.contents files.old) name.now limit }
    ensures failed { IsErrOf result ReadFault → Rose (F.faults files.old name.now) (F.faults files.new name.now) }
{
    let script = read_all(alloc, files, name, LIMIT)?;
    let viewed = page_of(alloc, name, steps, &script, infs, budget, rack)?;
    Ok(viewed)
}

/// The page for the script and the INFs of these names, and the answer.
fn page_named<R: Drivers, F: Files>(
    alloc: Global,
    name: &[u8],
    infs: &TextList,
    budget: u64,
    steps: bool,
    rack: R,
    files: &mut F,
) -> Result<Viewed, ReadError>
    requires infs { length infs.now ≤ 64 }
    requires budget { budget ≤ 1000000 }
    ensures gives { IfOk result (λ e. IfSome (F.contents files.old) (λ told. IsViewed steps (R.rows rack) budget (infs_in told infs.now) (told name.now) e.text.items e.status)) }
    ensures told { IfOk result (λ e. is_told e.status ≡ true) }
    ensures too_large { IsErrOf result TooLarge → IfSome (F.contents files.old) (λ told. IsTooLarge (infs_in told infs.now) (told name.now)) }
    ensures failed { IsErrOf result ReadFault → SomeRose (F.faults files.old) (F.faults files.new) (infs.now ++ name.now ∷ []) }
{
    match read_infs(alloc, files, infs) {
        Ok(taken) => page_script(alloc, name, taken, budget, steps, rack, files),
        Err(InfsError::Refused(number, error)) => {
            let viewed = page_refusal(alloc, name, number, error, infs)?;
            Ok(viewed)
        }
        Err(InfsError::ReadFault) => Err(ReadError::ReadFault),
        Err(InfsError::TooLarge) => Err(ReadError::TooLarge),
        Err(InfsError::WantOfMemory) => Err(ReadError::WantOfMemory),
    }
}

/// Writes a text and answers, or answers why there is none.
fn write_out<K: Sink>(viewed: Result<Viewed, ReadError>, sink: &mut K) -> Status
    ensures wrote { WroteOut viewed result (K.taken sink.old) (K.taken sink.new) }
    ensures write_fault { IfOk viewed (λ e. is_told e.status ≡ true) → result ≡ Status.WriteFault → Rose (K.faults sink.old) (K.faults sink.new) }
{
    match viewed {
        Ok(viewed) => match write_all(sink, &viewed.text) {
            Ok(()) => viewed.status,
            Err(_) => Status::WriteFault,
        },
        Err(ReadError::ReadFault) => Status::ReadFault,
        Err(ReadError::TooLarge) => Status::TooLarge,
        Err(ReadError::WantOfMemory) => Status::WantOfMemory,
    }
}

/// Shows the script and the INFs of these names.
fn view_named<R: Drivers, F: Files, K: Sink>(
    alloc: Global,
    name: &[u8],
    infs: &TextList,
    budget: u64,
    steps: bool,
    rack: R,
    files: &mut F,
    sink: &mut K,
) -> Status
    requires infs { length infs.now ≤ 64 }
    requires budget { budget ≤ 1000000 }
    ensures words { result ≡ Status.BadWords → ⊥ }
    ensures decided { is_told result ≡ true → IfSome (F.contents files.old) (λ told. status_by (infs_in told infs.now) (told name.now) ≡ Some result) }
    ensures whole { is_told result ≡ true → IfSome (F.contents files.old) (λ told. Wrote ((IsViewBy steps (R.rows rack) budget (infs_in told infs.now) (told name.now))) (K.taken sink.old) (K.taken sink.new)) }
    ensures front { IfSome (F.contents files.old) (λ told. WroteSome ((IsViewBy steps (R.rows rack) budget (infs_in told infs.now) (told name.now))) (K.taken sink.old) (K.taken sink.new)) }
    ensures read_fault { result ≡ Status.ReadFault → SomeRose (F.faults files.old) (F.faults files.new) (infs.now ++ name.now ∷ []) }
    ensures write_fault { result ≡ Status.WriteFault → Rose (K.faults sink.old) (K.faults sink.new) }
    ensures too_large { result ≡ Status.TooLarge → IfSome (F.contents files.old) (λ told. IsTooLarge (infs_in told infs.now) (told name.now)) }
{
    let viewed = page_named(alloc, name, infs, budget, steps, rack, files);
    write_out(viewed, sink)
}

/// Shows what settings with this script name, over drivers that become a rack.
fn view_drivers<D: Driver, F: Files, K: Sink>(
    alloc: Global,
    settings: &Settings,
    name: &[u8],
    steps: bool,
    drivers: Vec<D>,
    files: &mut F,
    sink: &mut K,
) -> Status
    requires within { IsWithin settings.now }
    requires drivers { length drivers.items < 2 ^ 32 }
    requires script { settings.now.script ≡ Some name.now }
    requires check { settings.now.check ≡ None }
    ensures words { result ≡ Status.BadWords → ⊥ }
    ensures decided { is_told result ≡ true → IfSome (F.contents files.old) (λ told. Decides (map (λ d. unnamed (D.kind_of d) (D.book d)) drivers.items) told settings.now result) }
    ensures whole { is_told result ≡ true → IfSome (F.contents files.old) (λ told. Wrote ((IsView steps (map (λ d. unnamed (D.kind_of d) (D.book d)) drivers.items) told settings.now)) (K.taken sink.old) (K.taken sink.new)) }
    ensures front { IfSome (F.contents files.old) (λ told. WroteSome ((IsView steps (map (λ d. unnamed (D.kind_of d) (D.book d)) drivers.items) told settings.now)) (K.taken sink.old) (K.taken sink.new)) }
    ensures read_fault { result ≡ Status.ReadFault → SomeRose (F.faults files.old) (F.faults files.new) (named settings.now) }
    ensures write_fault { result ≡ Status.WriteFault → Rose (K.faults sink.old) (K.faults sink.new) }
    ensures too_large { result ≡ Status.TooLarge → IfSome (F.contents files.old) (λ told. IsTooLargeFor told settings.now) }
{
    match Rack::make(alloc, drivers) {
        Ok(rack) => view_named(
            alloc,
            name,
            &settings.infs,
            settings.budget,
            steps,
            rack,
            files,
            sink,
        ),
        Err(_) => Status::WantOfMemory,
    }
}

/// Shows what settings name; they are refused where they name no script, or a trace to check.
fn view_settings<D: Driver, F: Files, K: Sink>(
    alloc: Global,
    settings: &Settings,
    steps: bool,
    drivers: Vec<D>,
    files: &mut F,
    sink: &mut K,
) -> Status
    requires within { IsWithin settings.now }
    requires drivers { length drivers.items < 2 ^ 32 }
    ensures bad_words { result ≡ Status.BadWords → script_named settings.now ≡ None }
    ensures refused { script_named settings.now ≡ None → result ≡ Status.BadWords }
    ensures untouched { script_named settings.now ≡ None → Untouched F.contents F.faults K.taken K.faults files.old files.new sink.old sink.new }
    ensures decided { is_told result ≡ true → IfSome (F.contents files.old) (λ told. Decides (map (λ d. unnamed (D.kind_of d) (D.book d)) drivers.items) told settings.now result) }
    ensures whole { is_told result ≡ true → IfSome (F.contents files.old) (λ told. Wrote ((IsView steps (map (λ d. unnamed (D.kind_of d) (D.book d)) drivers.items) told settings.now)) (K.taken sink.old) (K.taken sink.new)) }
    ensures front { IfSome (F.contents files.old) (λ told. WroteSome ((IsView steps (map (λ d. unnamed (D.kind_of d) (D.book d)) drivers.items) told settings.now)) (K.taken sink.old) (K.taken sink.new)) }
    ensures read_fault { result ≡ Status.ReadFault → SomeRose (F.faults files.old) (F.faults files.new) (named settings.now) }
    ensures write_fault { result ≡ Status.WriteFault → Rose (K.faults sink.old) (K.faults sink.new) }
    ensures too_large { result ≡ Status.TooLarge → IfSome (F.contents files.old) (λ told. IsTooLargeFor told settings.now) }
{
    match &settings.check {
        Some(_) => Status::BadWords,
        None => match &settings.script {
            Some(name) => view_drivers(alloc, settings, name.bytes(), steps, drivers, files, sink),
            None => Status::BadWords,
        },
    }
}

/// Whether a word is the option for stepping.
fn is_step(word: &str) -> bool
    ensures { result ≡ is_step word.now }
{
    word.as_bytes() == b"--step".as_slice()
}

/// Whether the option for stepping stands first.
fn opens_with_step(words: &[String]) -> bool
    ensures { result ≡ opens_with_step (texts words.now) }
{
    match words {
        [] => false,
        [word, ..] => is_step(word.as_str()),
    }
}

/// Whether the page is to be one that is stepped through: the option stands first behind the program's name.
fn asks_to_step(words: &[String]) -> bool
    ensures { result ≡ asks_to_step (texts words.now) }
{
    match words {
        [] => false,
        [_, behind @ ..] => opens_with_step(behind),
    }
}

/// The words as those of `run`: without the option for stepping, which then takes the place of the program's name.
fn plain_words(words: &[String]) -> &[String]
    ensures { texts result.now ≡ plain_words (texts words.now) }
{
    match words {
        [] => words,
        [_, behind @ ..] => if opens_with_step(behind) {
            behind
        } else {
            words
        },
    }
}

/// The same as `view` of words without the option for stepping.
fn view_words<D: Driver, F: Files, K: Sink>(
    alloc: Global,
    words: &[String],
    steps: bool,
    drivers: Vec<D>,
    files: &mut F,
    sink: &mut K,
) -> Status
    requires { length drivers.items < 2 ^ 32 }
    ensures bad_words { result ≡ Status.BadWords → script_of (settings_of (texts words.now)) ≡ None }
    ensures refused { script_of (settings_of (texts words.now)) ≡ None → (result ≡ Status.BadWords) ⊎ (result ≡ Status.WantOfMemory) }
    ensures untouched { script_of (settings_of (texts words.now)) ≡ None → Untouched F.contents F.faults K.taken K.faults files.old files.new sink.old sink.new }
    ensures decided { is_told result ≡ true → Given (texts words.now) (F.contents files.old) (λ s told. Decides (map (λ d. unnamed (D.kind_of d) (D.book d)) drivers.items) told s result) }
    ensures whole { is_told result ≡ true → Given (texts words.now) (F.contents files.old) (λ s told. Wrote ((IsView steps (map (λ d. unnamed (D.kind_of d) (D.book d)) drivers.items) told s)) (K.taken sink.old) (K.taken sink.new)) }
    ensures front { Given (texts words.now) (F.contents files.old) (λ s told. WroteSome ((IsView steps (map (λ d. unnamed (D.kind_of d) (D.book d)) drivers.items) told s)) (K.taken sink.old) (K.taken sink.new)) }
    ensures read_fault { result ≡ Status.ReadFault → IfSome (settings_of (texts words.now)) (λ s. SomeRose (F.faults files.old) (F.faults files.new) (named s)) }
    ensures write_fault { result ≡ Status.WriteFault → Rose (K.faults sink.old) (K.faults sink.new) }
    ensures too_large { result ≡ Status.TooLarge → Given (texts words.now) (F.contents files.old) (λ s told. IsTooLargeFor told s) }
{
    match settings(alloc, words) {
        Err(WordsError::BadWords) => Status::BadWords,
        Err(WordsError::WantOfMemory) => Status::WantOfMemory,
        Ok(settings) => view_settings(alloc, &settings, steps, drivers, files, sink),
    }
}

/// Reads the words `[--step] [--budget N] SCRIPT [INF ..]`, the INFs and the script that they name, runs it over these drivers, and writes
/// one page: it has the line of each label, in order, with an arrow for each ask, an end for each completion and no other, the bad line, and the end of the output, and
/// with `--step` the states behind its rows; where an INF is refused, the line that tells it. Words that name no script, and those with
/// `--check`, are refused. All is read before anything is written. The condition is that there are fewer than 2^32 drivers. Each status
/// comes as its clauses say. It always returns. Cost: that of `run`, and that of the page. This project's own.
pub fn view<D: Driver, F: Files, K: Sink>(
    alloc: Global,
    words: &[String],
    drivers: Vec<D>,
    files: &mut F,
    sink: &mut K,
) -> Status
    requires { length drivers.items < 2 ^ 32 }
    ensures bad_words { result ≡ Status.BadWords → script_of (settings_of (plain_words (texts words.now))) ≡ None }
    ensures refused { script_of (settings_of (plain_words (texts words.now))) ≡ None → (result ≡ Status.BadWords) ⊎ (result ≡ Status.WantOfMemory) }
    ensures untouched { script_of (settings_of (plain_words (texts words.now))) ≡ None → Untouched F.contents F.faults K.taken K.faults files.old files.new sink.old sink.new }
    ensures decided { is_told result ≡ true → Given (plain_words (texts words.now)) (F.contents files.old) (λ s told. Decides (map (λ d. unnamed (D.kind_of d) (D.book d)) drivers.items) told s result) }
    ensures whole { is_told result ≡ true → Given (plain_words (texts words.now)) (F.contents files.old) (λ s told. Wrote ((IsView (asks_to_step (texts words.now)) (map (λ d. unnamed (D.kind_of d) (D.book d)) drivers.items) told s)) (K.taken sink.old) (K.taken sink.new)) }
    ensures front { Given (plain_words (texts words.now)) (F.contents files.old) (λ s told. WroteSome ((IsView (asks_to_step (texts words.now)) (map (λ d. unnamed (D.kind_of d) (D.book d)) drivers.items) told s)) (K.taken sink.old) (K.taken sink.new)) }
    ensures read_fault { result ≡ Status.ReadFault → IfSome (settings_of (plain_words (texts words.now))) (λ s. SomeRose (F.faults files.old) (F.faults files.new) (named s)) }
    ensures write_fault { result ≡ Status.WriteFault → Rose (K.faults sink.old) (K.faults sink.new) }
    ensures too_large { result ≡ Status.TooLarge → Given (plain_words (texts words.now)) (F.contents files.old) (λ s told. IsTooLargeFor told s) }
{
    let steps = asks_to_step(words);
    view_words(alloc, plain_words(words), steps, drivers, files, sink)
}
