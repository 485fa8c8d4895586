ghost use Rattle.std.specs.Prelude.{◌≡◌, ◌⊎◌, ◌<◌, ◌≤◌, ◌^◌, ◌++◌, ◌∷◌, [], ℕ, List, Some, None, Ok, IfSome, IfOk, IsErrOf, map, length, true};
ghost use Rattle.pnp_io.specs.Outside.{Rose, HoldsMore};
ghost use Rattle.pnp_io.specs.declared.whole.ReadError.TheVariants.{ReadFault, TooLarge};
ghost use Rattle.driver_rack.specs.Rows.{unnamed};
ghost use Rattle.pnp_cli.specs.Words.{texts, settings_of};
ghost use Rattle.pnp_cli.specs.Infs.{infs_in, limit, SomeRose};
ghost use Rattle.pnp_cli.specs.Limits.{IsWithin};
ghost use Rattle.pnp_cli.specs.Runs.{named, status_by, Decides, IsOutput, IsOutputBy, Wrote, Given, Untouched};
ghost use Rattle.pnp_cli.specs.declared.status.Status.{Status};
ghost use Rattle.why_cli.specs.Answers.{Explains, IsWhy, IsTooLarge, IsTooLargeFor, WroteOut, WroteSome, is_lines, opens_with_lines, asks_for_lines, plain_words, script_of, script_named, is_told};

use crate::explained::{Explained, explain};
use crate::refusal::explain_refusal;
use device_ids::{TextList, WantOfMemory};
use driver_rack::{Driver, Drivers, Rack};
use inf_reader::Inf;
use inf_sections::{InfPlaces, places_of};
use pnp_cli::{InfsError, LIMIT, Settings, Status, WordsError, read_infs, settings};
use pnp_io::{Files, ReadError, Sink, read_all, write_all};
use std::alloc::{AllocError, Global};

/// Where the lines of an INF stand, which is read once more; a file that cannot be read twice tells nothing of them.
fn places_in<F: Files>(
    alloc: Global,
    files: &mut F,
    name: &[u8],
) -> Result<InfPlaces, WantOfMemory> {
    match read_all(alloc, files, name, LIMIT) {
        Ok(bytes) => places_of(alloc, &bytes),
        Err(ReadError::WantOfMemory) => Err(AllocError),
        Err(ReadError::ReadFault | ReadError::TooLarge) => Ok(InfPlaces::none(alloc)),
    }
}

/// Where the lines of the INFs of these names stand.
fn all_places<F: Files>(
    alloc: Global,
    files: &mut F,
    names: &TextList,
) -> Result<Vec<InfPlaces>, WantOfMemory> {
    let mut places = Vec::new(alloc);
    for at in 0..names.len() {
        places.push(places_in(alloc, files, names.get(at).bytes())?)?;
    }
    Ok(places)
}

/// The text for the script of this name and these INFs, and the answer.
fn explain_script<R: Drivers, F: Files>(
    alloc: Global,
    name: &[u8],
    infs: Vec<Inf>,
    names: &TextList,
    budget: u64,
    all_lines: bool,
    rack: R,
    files: &mut F,
) -> Result<Explained, ReadError>
    requires infs { length infs.items ≤ 64 }
    requires budget { budget ≤ 1000000 }
    ensures gives { IfOk result (λ e. IfSome (F.contents files.old) (λ told. IsWhy (R.rows rack) budget (Ok infs.items) (told name.now) e.text.items e.status)) }
    ensures told { IfOk result (λ e. is_told e.status ≡ true) }
    ensures too_large { IsErrOf result TooLarge → HoldsMore (F.contents files.old) name.now limit }
    ensures failed { IsErrOf result ReadFault → Rose (F.faults files.old name.now) (F.faults files.new name.now) }
{
    let script = read_all(alloc, files, name, LIMIT)?;
    let places = all_places(alloc, files, names)?;
    let explained = explain(alloc, &script, infs, names, places, budget, all_lines, rack)?;
    Ok(explained)
}

/// The text for the script and the INFs of these names, and the answer.
fn explain_named<R: Drivers, F: Files>(
    alloc: Global,
    name: &[u8],
    infs: &TextList,
    budget: u64,
    all_lines: bool,
    rack: R,
    files: &mut F,
) -> Result<Explained, ReadError>
    requires infs { length infs.now ≤ 64 }
    requires budget { budget ≤ 1000000 }
    ensures gives { IfOk result (λ e. IfSome (F.contents files.old) (λ told. IsWhy (R.rows rack) budget (infs_in told infs.now) (told name.now) e.text.items e.status)) }
    ensures told { IfOk result (λ e. is_told e.status ≡ true) }
    ensures too_large { IsErrOf result TooLarge → IfSome (F.contents files.old) (λ told. IsTooLarge (infs_in told infs.now) (told name.now)) }
    ensures failed { IsErrOf result ReadFault → SomeRose (F.faults files.old) (F.faults files.new) (infs.now ++ name.now ∷ []) }
{
    match read_infs(alloc, files, infs) {
        Ok(taken) => explain_script(alloc, name, taken, infs, budget, all_lines, rack, files),
        Err(InfsError::Refused(number, error)) => {
            let explained = explain_refusal(alloc, number, error, infs)?;
            Ok(explained)
        }
        Err(InfsError::ReadFault) => Err(ReadError::ReadFault),
        Err(InfsError::TooLarge) => Err(ReadError::TooLarge),
        Err(InfsError::WantOfMemory) => Err(ReadError::WantOfMemory),
    }
}

/// Writes a text and answers, or answers why there is none.
fn write_out<K: Sink>(explained: Result<Explained, ReadError>, sink: &mut K) -> Status
    ensures wrote { WroteOut explained result (K.taken sink.old) (K.taken sink.new) }
    ensures write_fault { IfOk explained (λ e. is_told e.status ≡ true) → result ≡ Status.WriteFault → Rose (K.faults sink.old) (K.faults sink.new) }
{
    match explained {
        Ok(explained) => match write_all(sink, &explained.text) {
            Ok(()) => explained.status,
            Err(_) => Status::WriteFault,
        },
        Err(ReadError::ReadFault) => Status::ReadFault,
        Err(ReadError::TooLarge) => Status::TooLarge,
        Err(ReadError::WantOfMemory) => Status::WantOfMemory,
    }
}

/// Explains the script and the INFs of these names.
fn why_named<R: Drivers, F: Files, K: Sink>(
    alloc: Global,
    name: &[u8],
    infs: &TextList,
    budget: u64,
    all_lines: bool,
    rack: R,
    files: &mut F,
    sink: &mut K,
) -> Status
    requires infs { length infs.now ≤ 64 }
    requires budget { budget ≤ 1000000 }
    ensures words { result ≡ Status.BadWords → ⊥ }
    ensures decided { is_told result ≡ true → IfSome (F.contents files.old) (λ told. status_by (infs_in told infs.now) (told name.now) ≡ Some result) }
    ensures whole { is_told result ≡ true → IfSome (F.contents files.old) (λ told. Wrote (Explains (IsOutputBy (R.rows rack) budget (infs_in told infs.now) (told name.now))) (K.taken sink.old) (K.taken sink.new)) }
    ensures front { IfSome (F.contents files.old) (λ told. WroteSome (Explains (IsOutputBy (R.rows rack) budget (infs_in told infs.now) (told name.now))) (K.taken sink.old) (K.taken sink.new)) }
    ensures read_fault { result ≡ Status.ReadFault → SomeRose (F.faults files.old) (F.faults files.new) (infs.now ++ name.now ∷ []) }
    ensures write_fault { result ≡ Status.WriteFault → Rose (K.faults sink.old) (K.faults sink.new) }
    ensures too_large { result ≡ Status.TooLarge → IfSome (F.contents files.old) (λ told. IsTooLarge (infs_in told infs.now) (told name.now)) }
{
    let explained = explain_named(alloc, name, infs, budget, all_lines, rack, files);
    write_out(explained, sink)
}

/// Explains what settings with this script name, over drivers that become a rack.
fn why_drivers<D: Driver, F: Files, K: Sink>(
    alloc: Global,
    settings: &Settings,
    name: &[u8],
    all_lines: bool,
    drivers: Vec<D>,
    files: &mut F,
    sink: &mut K,
) -> Status
    requires within { IsWithin settings.now }
    requires drivers { length drivers.items < 2 ^ 32 }
    requires script { settings.now.script ≡ Some name.now }
    requires check { settings.now.check ≡ None }
    ensures words { result ≡ Status.BadWords → ⊥ }
    ensures decided { is_told result ≡ true → IfSome (F.contents files.old) (λ told. Decides (map (λ d. unnamed (D.kind_of d) (D.book d)) drivers.items) told settings.now result) }
    ensures whole { is_told result ≡ true → IfSome (F.contents files.old) (λ told. Wrote (Explains (IsOutput (map (λ d. unnamed (D.kind_of d) (D.book d)) drivers.items) told settings.now)) (K.taken sink.old) (K.taken sink.new)) }
    ensures front { IfSome (F.contents files.old) (λ told. WroteSome (Explains (IsOutput (map (λ d. unnamed (D.kind_of d) (D.book d)) drivers.items) told settings.now)) (K.taken sink.old) (K.taken sink.new)) }
    ensures read_fault { result ≡ Status.ReadFault → SomeRose (F.faults files.old) (F.faults files.new) (named settings.now) }
    ensures write_fault { result ≡ Status.WriteFault → Rose (K.faults sink.old) (K.faults sink.new) }
    ensures too_large { result ≡ Status.TooLarge → IfSome (F.contents files.old) (λ told. IsTooLargeFor told settings.now) }
{
    match Rack::make(alloc, drivers) {
        Ok(rack) => why_named(
            alloc,
            name,
            &settings.infs,
            settings.budget,
            all_lines,
            rack,
            files,
            sink,
        ),
        Err(_) => Status::WantOfMemory,
    }
}

/// Explains what settings name; they are refused where they name no script, or a trace to check.
fn why_settings<D: Driver, F: Files, K: Sink>(
    alloc: Global,
    settings: &Settings,
    all_lines: bool,
    drivers: Vec<D>,
    files: &mut F,
    sink: &mut K,
) -> Status
    requires within { IsWithin settings.now }
    requires drivers { length drivers.items < 2 ^ 32 }
    ensures bad_words { result ≡ Status.BadWords → script_named settings.now ≡ None }
    ensures refused { script_named settings.now ≡ None → result ≡ Status.BadWords }
    ensures untouched { script_named settings.now ≡ None → Untouched F.contents F.faults K.taken K.faults files.old files.new sink.old sink.new }
    ensures decided { is_told result ≡ true → IfSome (F.contents files.old) (λ told. Decides (map (λ d. unnamed (D.kind_of d) (D.book d)) drivers.items) told settings.now result) }
    ensures whole { is_told result ≡ true → IfSome (F.contents files.old) (λ told. Wrote (Explains (IsOutput (map (λ d. unnamed (D.kind_of d) (D.book d)) drivers.items) told settings.now)) (K.taken sink.old) (K.taken sink.new)) }
    ensures front { IfSome (F.contents files.old) (λ told. WroteSome (Explains (IsOutput (map (λ d. unnamed (D.kind_of d) (D.book d)) drivers.items) told settings.now)) (K.taken sink.old) (K.taken sink.new)) }
    ensures read_fault { result ≡ Status.ReadFault → SomeRose (F.faults files.old) (F.faults files.new) (named settings.now) }
    ensures write_fault { result ≡ Status.WriteFault → Rose (K.faults sink.old) (K.faults sink.new) }
    ensures too_large { result ≡ Status.TooLarge → IfSome (F.contents files.old) (λ told. IsTooLargeFor told settings.now) }
{
    match &settings.check {
        Some(_) => Status::BadWords,
        None => match &settings.script {
            Some(name) => why_drivers(
                alloc,
                settings,
                name.bytes(),
                all_lines,
                drivers,
                files,
                sink,
            ),
            None => Status::BadWords,
        },
    }
}

/// Whether a word is the option for the lines of the script.
fn is_lines(word: &str) -> bool
    ensures { result ≡ is_lines word.now }
{
    word.as_bytes() == b"--lines".as_slice()
}

/// Whether the option for lines stands first.
fn opens_with_lines(words: &[String]) -> bool
    ensures { result ≡ opens_with_lines (texts words.now) }
{
    match words {
        [] => false,
        [word, ..] => is_lines(word.as_str()),
    }
}

/// Whether the line of the script is to be told at each event: the option stands first behind the program's name.
fn asks_for_lines(words: &[String]) -> bool
    ensures { result ≡ asks_for_lines (texts words.now) }
{
    match words {
        [] => false,
        [_, behind @ ..] => opens_with_lines(behind),
    }
}

/// The words as those of `run`: without the option for lines, which then takes the place of the program's name.
fn plain_words(words: &[String]) -> &[String]
    ensures { texts result.now ≡ plain_words (texts words.now) }
{
    match words {
        [] => words,
        [_, behind @ ..] => if opens_with_lines(behind) {
            behind
        } else {
            words
        },
    }
}

/// The same as `why` of words without the option for lines.
fn why_words<D: Driver, F: Files, K: Sink>(
    alloc: Global,
    words: &[String],
    all_lines: bool,
    drivers: Vec<D>,
    files: &mut F,
    sink: &mut K,
) -> Status
    requires { length drivers.items < 2 ^ 32 }
    ensures bad_words { result ≡ Status.BadWords → script_of (settings_of (texts words.now)) ≡ None }
    ensures refused { script_of (settings_of (texts words.now)) ≡ None → (result ≡ Status.BadWords) ⊎ (result ≡ Status.WantOfMemory) }
    ensures untouched { script_of (settings_of (texts words.now)) ≡ None → Untouched F.contents F.faults K.taken K.faults files.old files.new sink.old sink.new }
    ensures decided { is_told result ≡ true → Given (texts words.now) (F.contents files.old) (λ s told. Decides (map (λ d. unnamed (D.kind_of d) (D.book d)) drivers.items) told s result) }
    ensures whole { is_told result ≡ true → Given (texts words.now) (F.contents files.old) (λ s told. Wrote (Explains (IsOutput (map (λ d. unnamed (D.kind_of d) (D.book d)) drivers.items) told s)) (K.taken sink.old) (K.taken sink.new)) }
    ensures front { Given (texts words.now) (F.contents files.old) (λ s told. WroteSome (Explains (IsOutput (map (λ d. unnamed (D.kind_of d) (D.book d)) drivers.items) told s)) (K.taken sink.old) (K.taken sink.new)) }
    ensures read_fault { result ≡ Status.ReadFault → IfSome (settings_of (texts words.now)) (λ s. SomeRose (F.faults files.old) (F.faults files.new) (named s)) }
    ensures write_fault { result ≡ Status.WriteFault → Rose (K.faults sink.old) (K.faults sink.new) }
    ensures too_large { result ≡ Status.TooLarge → Given (texts words.now) (F.contents files.old) (λ s told. IsTooLargeFor told s) }
{
    match settings(alloc, words) {
        Err(WordsError::BadWords) => Status::BadWords,
        Err(WordsError::WantOfMemory) => Status::WantOfMemory,
        Ok(settings) => why_settings(alloc, &settings, all_lines, drivers, files, sink),
    }
}

/// Reads the words `[--lines] [--budget N] SCRIPT [INF ..]`, the INFs and the script that they name, runs it over these drivers, and writes
/// the output of `run` with notes between its lines, each of which is a whole line that begins with `# `; where an INF is refused, the
/// line that tells it, and a note. Words that name no script, and those with `--check`, are refused. All is read before anything is
/// written. The condition is that there are fewer than 2^32 drivers. Each status comes as its clauses say. It always returns. Cost: that
/// of `run`, and that of the notes. This project's own.
pub fn why<D: Driver, F: Files, K: Sink>(
    alloc: Global,
    words: &[String],
    drivers: Vec<D>,
    files: &mut F,
    sink: &mut K,
) -> Status
    requires { length drivers.items < 2 ^ 32 }
    ensures bad_words { result ≡ Status.BadWords → script_of (settings_of (plain_words (texts words.now))) ≡ None }
    ensures refused { script_of (settings_of (plain_words (texts words.now))) ≡ None → (result ≡ Status.BadWords) ⊎ (result ≡ Status.WantOfMemory) }
    ensures untouched { script_of (settings_of (plain_words (texts words.now))) ≡ None → Untouched F.contents F.faults K.taken K.faults files.old files.new sink.old sink.new }
    ensures decided { is_told result ≡ true → Given (plain_words (texts words.now)) (F.contents files.old) (λ s told. Decides (map (λ d. unnamed (D.kind_of d) (D.book d)) drivers.items) told s result) }
    ensures whole { is_told result ≡ true → Given (plain_words (texts words.now)) (F.contents files.old) (λ s told. Wrote (Explains (IsOutput (map (λ d. unnamed (D.kind_of d) (D.book d)) drivers.items) told s)) (K.taken sink.old) (K.taken sink.new)) }
    ensures front { Given (plain_words (texts words.now)) (F.contents files.old) (λ s told. WroteSome (Explains (IsOutput (map (λ d. unnamed (D.kind_of d) (D.book d)) drivers.items) told s)) (K.taken sink.old) (K.taken sink.new)) }
    ensures read_fault { result ≡ Status.ReadFault → IfSome (settings_of (plain_words (texts words.now))) (λ s. SomeRose (F.faults files.old) (F.faults files.new) (named s)) }
    ensures write_fault { result ≡ Status.WriteFault → Rose (K.faults sink.old) (K.faults sink.new) }
    ensures too_large { result ≡ Status.TooLarge → Given (plain_words (texts words.now)) (F.contents files.old) (λ s told. IsTooLargeFor told s) }
{
    let plain = plain_words(words);
    let all_lines = asks_for_lines(words);
    why_words(alloc, plain, all_lines, drivers, files, sink)
}
