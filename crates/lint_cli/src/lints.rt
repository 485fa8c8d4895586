//! The lint of the files that the words name.
ghost use Rattle.std.specs.Prelude.{◌≡◌, ◌≤◌, ◌⊎◌, ◌||◌, ◌↔◌, ◌∷◌, [], ℕ, List, IfOk, IfSome, OnOk, IsErrOf, true, false};
ghost use Rattle.pnp_io.specs.Outside.{Rose, Appends};
ghost use Rattle.pnp_io.specs.declared.whole.ReadError.TheVariants.{ReadFault, TooLarge};
ghost use Rattle.lint_cli.specs.Words.{texts, are_words, options_of, named};
ghost use Rattle.lint_cli.specs.Reports.{script_text};
ghost use Rattle.lint_cli.specs.Warnings.{told, nothing_known, ids_known, known_of};
ghost use Rattle.lint_cli.specs.Lints.{is_bad_script, is_bad_inf, is_bad_file, is_large, some_large, bad_infs, is_bad_set, is_bad_by, is_decided, is_reported, is_unwritten, answer_by, Answers, AddsFile, AddsInfs, IsText, IsTextBy, WroteBy, Sizes, SomeRose};

use crate::drivers::{driver_names, script_ids};
use crate::infs::report_inf;
use crate::names::Names;
use crate::report::report_script;
use crate::status::Status;
use crate::warnings::Known;
use crate::words::{Options, are_words, asked_by};
use pnp_io::{Files, ReadError, Sink, read_all, write_all};
use std::alloc::{AllocError, Global};

/// The most bytes that a file may have: this project's own.
const LIMIT: u64 = 16_777_216;

/// Reads the INF of a name, and appends its faults or its warnings, by what the script tells; whether it is refused.
#[tactic(auto, using(crate::proofs::Steps::told_bad, crate::proofs::Steps::told_file, crate::proofs::Steps::fits, crate::proofs::Steps::exceeds))]
fn lint_inf<F: Files>(
    alloc: Global,
    files: &mut F,
    name: &[u8],
    known: &Known,
    out: &mut Vec<u8>,
) -> Result<bool, ReadError>
    ensures bad { IfOk result (λ bad. IfSome (F.contents files.old) (λ told. bad ≡ is_bad_file is_bad_inf (told name.now))) }
    ensures fits { IfOk result (λ _. IfSome (F.contents files.old) (λ told. is_large (told name.now) ≡ false)) }
    ensures text { OnOk result (IfSome (F.contents files.old) (λ contents. AddsFile name.now (told known.now) (contents name.now) out.old.items out.new.items)) }
    ensures too_large { IsErrOf result TooLarge → IfSome (F.contents files.old) (λ told. is_large (told name.now) ≡ true) }
    ensures failed { IsErrOf result ReadFault → Rose (F.faults files.old name.now) (F.faults files.new name.now) }
    ensures counts { (other : List ℕ) → F.faults files.old other ≤ F.faults files.new other }
    ensures same { F.contents files.new ≡ F.contents files.old }
{
    let bytes = read_all(alloc, files, name, LIMIT)?;
    Ok(report_inf(alloc, name, &bytes, known, out)?)
}

/// Whether one of both is so.
fn either(first: bool, second: bool) -> bool
    ensures { result ≡ (first || second) }
{
    first || second
}

/// Reads the INFs of the names, and appends their faults and warnings; whether one is refused.
fn lint_infs<F: Files>(
    alloc: Global,
    files: &mut F,
    names: &[String],
    known: &Known,
    out: &mut Vec<u8>,
) -> Result<bool, ReadError>
    ensures bad { IfOk result (λ bad. IfSome (F.contents files.old) (λ told. bad ≡ bad_infs told (texts names.now))) }
    ensures fits { IfOk result (λ _. IfSome (F.contents files.old) (λ told. some_large told (texts names.now) ≡ false)) }
    ensures text { OnOk result (IfSome (F.contents files.old) (λ contents. AddsInfs contents (told known.now) (texts names.now) out.old.items out.new.items)) }
    ensures too_large { IsErrOf result TooLarge → IfSome (F.contents files.old) (λ told. some_large told (texts names.now) ≡ true) }
    ensures failed { IsErrOf result ReadFault → SomeRose (F.faults files.old) (F.faults files.new) (texts names.now) }
    ensures counts { (other : List ℕ) → F.faults files.old other ≤ F.faults files.new other }
    ensures same { F.contents files.new ≡ F.contents files.old }
{
    let mut found = false;
    for name in names {
        let bad = lint_inf(alloc, files, name.as_bytes(), known, out)?;
        found = either(found, bad);
    }
    Ok(found)
}

/// What was found: whether something is bad, and what is to be written of it.
#[derive(Drop)]
struct Found {
    bad: bool,
    text: Vec<u8>,
}

/// The identifiers of a script's devices, unless all lines count.
fn ids_known(alloc: Global, all: bool, script: &[u8]) -> Result<Option<Names<'_>>, AllocError>
    ensures { IfOk result (λ ids. ids ≡ ids_known all script.now) }
{
    if all {
        return Ok(None);
    }
    Ok(Some(script_ids(alloc, script)?))
}

/// What a script tells.
fn known_of(alloc: Global, all: bool, script: &[u8]) -> Result<Known<'_>, AllocError>
    ensures { IfOk result (λ known. told known ≡ known_of all script.now) }
{
    let drivers = Some(driver_names(alloc, script)?);
    let ids = ids_known(alloc, all, script)?;
    Ok(Known { drivers, ids })
}

/// Lints a script of this name, and the INFs of the names.
fn lint_script<F: Files>(
    alloc: Global,
    all: bool,
    name: &[u8],
    script: &[u8],
    infs: &[String],
    files: &mut F,
) -> Result<Found, ReadError>
    ensures bad { IfOk result (λ found. IfSome (F.contents files.old) (λ told. found.bad ≡ (is_bad_script script.now || bad_infs told (texts infs.now)))) }
    ensures fits { IfOk result (λ _. IfSome (F.contents files.old) (λ told. some_large told (texts infs.now) ≡ false)) }
    ensures text { IfOk result (λ found. IfSome (F.contents files.old) (λ told. AddsInfs told (known_of all script.now) (texts infs.now) (script_text name.now script.now) found.text.items)) }
    ensures too_large { IsErrOf result TooLarge → IfSome (F.contents files.old) (λ told. some_large told (texts infs.now) ≡ true) }
    ensures failed { IsErrOf result ReadFault → SomeRose (F.faults files.old) (F.faults files.new) (texts infs.now) }
{
    let mut text = Vec::new(alloc);
    let bad_script = report_script(alloc, name, script, &mut text)?;
    let known = known_of(alloc, all, script)?;
    let bad_infs = lint_infs(alloc, files, infs, &known, &mut text)?;
    let bad = either(bad_script, bad_infs);
    Ok(Found { bad, text })
}

/// Lints the script and the INFs of the names.
#[tactic(auto, using(crate::proofs::Steps::told_set_bad, crate::proofs::Steps::told_text, crate::proofs::Steps::set_fits, crate::proofs::Steps::script_exceeds, crate::proofs::Steps::inf_large, crate::proofs::Steps::rose_first, crate::proofs::Steps::rose_behind))]
fn lint_files<F: Files>(
    alloc: Global,
    all: bool,
    script: &[u8],
    infs: &[String],
    files: &mut F,
) -> Result<Found, ReadError>
    ensures bad { IfOk result (λ found. IfSome (F.contents files.old) (λ told. found.bad ≡ is_bad_set told script.now (texts infs.now))) }
    ensures fits { IfOk result (λ _. IfSome (F.contents files.old) (λ told. some_large told (script.now ∷ texts infs.now) ≡ false)) }
    ensures text { IfOk result (λ found. IfSome (F.contents files.old) (λ told. IsText told all script.now (told script.now) (texts infs.now) found.text.items)) }
    ensures too_large { IsErrOf result TooLarge → IfSome (F.contents files.old) (λ told. some_large told (script.now ∷ texts infs.now) ≡ true) }
    ensures failed { IsErrOf result ReadFault → SomeRose (F.faults files.old) (F.faults files.new) (script.now ∷ texts infs.now) }
{
    let bytes = read_all(alloc, files, script, LIMIT)?;
    lint_script(alloc, all, script, &bytes, infs, files)
}

/// Lints INFs without a script.
fn lint_bare<F: Files>(alloc: Global, infs: &[String], files: &mut F) -> Result<Found, ReadError>
    ensures bad { IfOk result (λ found. IfSome (F.contents files.old) (λ told. found.bad ≡ bad_infs told (texts infs.now))) }
    ensures fits { IfOk result (λ _. IfSome (F.contents files.old) (λ told. some_large told (texts infs.now) ≡ false)) }
    ensures text { IfOk result (λ found. IfSome (F.contents files.old) (λ told. AddsInfs told nothing_known (texts infs.now) [] found.text.items)) }
    ensures too_large { IsErrOf result TooLarge → IfSome (F.contents files.old) (λ told. some_large told (texts infs.now) ≡ true) }
    ensures failed { IsErrOf result ReadFault → SomeRose (F.faults files.old) (F.faults files.new) (texts infs.now) }
{
    let mut text = Vec::new(alloc);
    let known = Known {
        drivers: None,
        ids: None,
    };
    let bad = lint_infs(alloc, files, infs, &known, &mut text)?;
    Ok(Found { bad, text })
}

/// Lints the files of these names.
fn lint_names<F: Files>(
    alloc: Global,
    options: Options,
    names: &[String],
    files: &mut F,
) -> Result<Found, ReadError>
    ensures bad { IfOk result (λ found. IfSome (F.contents files.old) (λ told. found.bad ≡ is_bad_by options.bare told (texts names.now))) }
    ensures fits { IfOk result (λ _. IfSome (F.contents files.old) (λ told. some_large told (texts names.now) ≡ false)) }
    ensures text { IfOk result (λ found. IfSome (F.contents files.old) (λ told. IsTextBy options.bare options.all told (texts names.now) found.text.items)) }
    ensures too_large { IsErrOf result TooLarge → IfSome (F.contents files.old) (λ told. some_large told (texts names.now) ≡ true) }
    ensures failed { IsErrOf result ReadFault → SomeRose (F.faults files.old) (F.faults files.new) (texts names.now) }
{
    if options.bare {
        return lint_bare(alloc, names, files);
    }
    match names {
        [] => Ok(Found {
            bad: false,
            text: Vec::new(alloc),
        }),
        [script, infs @ ..] => lint_files(alloc, options.all, script.as_bytes(), infs, files),
    }
}

/// The answer for what was found.
fn answer(strict: bool, found: &Found) -> Status
    ensures { result ≡ answer_by strict found.now.bad found.now.text.items }
{
    if found.bad || (strict && !found.text.is_empty()) {
        Status::Found
    } else {
        Status::Clean
    }
}

/// Writes what was found.
fn write_found<K: Sink>(sink: &mut K, strict: bool, found: &Found) -> Status
    ensures only { (result ≡ Status.WriteFault) ⊎ (result ≡ answer_by strict found.now.bad found.now.text.items) }
    ensures wrote { is_reported result ≡ true → Appends (K.taken sink.old) (K.taken sink.new) found.now.text.items }
    ensures write_fault { result ≡ Status.WriteFault → Rose (K.faults sink.old) (K.faults sink.new) }
{
    if write_all(sink, &found.text).is_err() {
        return Status::WriteFault;
    }
    answer(strict, found)
}

/// Lints the files of these names, and writes what was found.
#[tactic(auto, using(crate::proofs::Steps::sizes_fit, crate::proofs::Steps::sizes_exceed, crate::proofs::Steps::wrote_by))]
fn lint_named<F: Files, K: Sink>(
    alloc: Global,
    options: Options,
    names: &[String],
    files: &mut F,
    sink: &mut K,
) -> Status
    ensures words { result ≡ Status.BadWords → ⊥ }
    ensures sizes { is_decided result ≡ true → IfSome (F.contents files.old) (λ told. Sizes told (texts names.now) result) }
    ensures text { is_reported result ≡ true → IfSome (F.contents files.old) (λ told. WroteBy options told (texts names.now) result (K.taken sink.old) (K.taken sink.new)) }
    ensures read_fault { result ≡ Status.ReadFault → SomeRose (F.faults files.old) (F.faults files.new) (texts names.now) }
    ensures write_fault { result ≡ Status.WriteFault → Rose (K.faults sink.old) (K.faults sink.new) }
    ensures unwritten { is_unwritten result ≡ true → K.taken sink.new ≡ K.taken sink.old }
{
    match lint_names(alloc, options, names, files) {
        Ok(found) => write_found(sink, options.strict, &found),
        Err(ReadError::ReadFault) => Status::ReadFault,
        Err(ReadError::TooLarge) => Status::TooLarge,
        Err(ReadError::WantOfMemory) => Status::WantOfMemory,
    }
}

/// Lints what the words name: the program's name, options, a script, and up to 64 INFs; or behind the option `--inf` 1 to 64 INFs. Each bad
/// line of the script is written with its number, its word and its cause, and behind them of each INF that is refused its faults, and of
/// each other one its warnings; those of models lines only where a line matches an ID of a device of the script, or with `--all`. As far as files
/// tell what they hold, `TooLarge` comes only where one of them has more than 16,777,216 bytes; else `Found` only where a run of the
/// script would end at a bad line or one of the INFs is refused, or with `--strict` where something is written, and `Clean` only where not.
/// Where no count of faults rose, one of these three is the answer, or memory was refused. `BadWords` comes exactly where the words are
/// refused, and then nothing is read or written. Nothing is written unless all was read. Cost: the bytes of the files, and of an INF for each
/// of its faults; for the warnings its IDs for each of a logarithm of those of the script, and up to 1,024 install sections times the sections.
#[tactic(auto, using(crate::proofs::Steps::answers))]
pub fn lint<F: Files, K: Sink>(
    alloc: Global,
    words: &[String],
    files: &mut F,
    sink: &mut K,
) -> Status
    ensures words { (result ≡ Status.BadWords) ↔ (are_words (texts words.now) ≡ false) }
    ensures unread { result ≡ Status.BadWords → F.faults files.new ≡ F.faults files.old }
    ensures sizes { is_decided result ≡ true → IfSome (F.contents files.old) (λ told. Sizes told (named (texts words.now)) result) }
    ensures text { is_reported result ≡ true → IfSome (F.contents files.old) (λ told. WroteBy (options_of (texts words.now)) told (named (texts words.now)) result (K.taken sink.old) (K.taken sink.new)) }
    ensures read_fault { result ≡ Status.ReadFault → SomeRose (F.faults files.old) (F.faults files.new) (named (texts words.now)) }
    ensures write_fault { result ≡ Status.WriteFault → Rose (K.faults sink.old) (K.faults sink.new) }
    ensures unwritten { is_unwritten result ≡ true → K.taken sink.new ≡ K.taken sink.old }
    ensures answered { are_words (texts words.now) ≡ true → Answers (SomeRose (F.faults files.old) (F.faults files.new) (named (texts words.now))) (Rose (K.faults sink.old) (K.faults sink.new)) result }
{
    if !are_words(words) {
        return Status::BadWords;
    }
    let asked = asked_by(words);
    lint_named(alloc, asked.options, asked.names, files, sink)
}
