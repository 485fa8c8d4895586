//! What is written of the bad lines of a script.
ghost use Rattle.std.specs.Prelude.{◌≡◌, ◌++◌, IfOk, OnOk};
ghost use Rattle.script_reader.specs.Faults.{seen};
ghost use Rattle.script_lint.specs.Script.{told};
ghost use Rattle.lint_cli.specs.Reports.{fault_words, fault_text, bad_text, bad_texts, is_space, opens_inf, is_marked, is_inf, misplaced_text, script_text};
ghost use Rattle.lint_cli.specs.Lints.{is_bad_script};

use crate::causes::cause_text;
use crate::shown::{push_error_head, push_quoted};
use script_lint::{BadLine, LineFault, faults_of};
use std::alloc::{AllocError, Global};

/// Appends the word and the cause.
fn push_fault(alloc: Global, out: &mut Vec<u8>, fault: &LineFault) -> Result<(), AllocError>
    ensures { OnOk result (out.new.items ≡ out.old.items ++ fault_text (seen fault.now)) }
{
    push_quoted(alloc, out, fault.word)?;
    out.extend_from_slice(cause_text(fault.cause))?;
    out.push(b'\n')?;
    Ok(())
}

/// What is told of a fault: the word it is true of between quotes, and the cause. Cost: the length, of at most 80 bytes of the word.
pub fn fault_words(alloc: Global, fault: &LineFault) -> Result<Vec<u8>, AllocError>
    ensures { IfOk result (λ text. text.items ≡ fault_words (seen fault.now)) }
{
    let mut text = Vec::new(alloc);
    push_quoted(alloc, &mut text, fault.word)?;
    text.extend_from_slice(cause_text(fault.cause))?;
    Ok(text)
}

/// Appends the line of a bad line.
fn push_bad(alloc: Global, out: &mut Vec<u8>, file: &[u8], bad: &BadLine) -> Result<(), AllocError>
    ensures { OnOk result (out.new.items ≡ out.old.items ++ bad_text file.now (told bad.now)) }
{
    push_error_head(alloc, out, file, bad.line)?;
    push_fault(alloc, out, &bad.fault)
}

/// Appends a line for each bad line of a script; whether there is one.
fn push_all_bad(
    alloc: Global,
    file: &[u8],
    script: &[u8],
    out: &mut Vec<u8>,
) -> Result<bool, AllocError>
    ensures text { OnOk result (out.new.items ≡ out.old.items ++ bad_texts file.now script.now) }
    ensures bad { IfOk result (λ bad. bad ≡ is_bad_script script.now) }
{
    let bad = faults_of(alloc, script)?;
    for line in &bad {
        push_bad(alloc, out, file, line)?;
    }
    Ok(!bad.is_empty())
}

/// Whether a byte stands between words or lines.
fn is_space(byte: u8) -> bool
    ensures { result ≡ is_space byte }
{
    byte == b' ' || byte == b'\t' || byte == b'\r' || byte == b'\n'
}

/// Whether a script begins as a section or a comment of an INF does.
fn opens_inf(script: &[u8]) -> bool
    ensures { result ≡ opens_inf script.now }
{
    for byte in script {
        if !is_space(*byte) {
            return *byte == b'[' || *byte == b';';
        }
    }
    false
}

/// Whether a script begins with a mark of UTF-16.
fn is_marked(script: &[u8]) -> bool
    ensures { result ≡ is_marked script.now }
{
    match script {
        [0xFF, 0xFE, ..] | [0xFE, 0xFF, ..] => true,
        _ => false,
    }
}

/// Whether a script begins as an INF does.
fn is_inf(script: &[u8]) -> bool
    ensures { result ≡ is_inf script.now }
{
    is_marked(script) || opens_inf(script)
}

/// Appends what is told of an INF that is given as the script.
fn push_misplaced(alloc: Global, file: &[u8], out: &mut Vec<u8>) -> Result<(), AllocError>
    ensures { OnOk result (out.new.items ≡ out.old.items ++ misplaced_text file.now) }
{
    push_error_head(alloc, out, file, 1)?;
    out.extend_from_slice(
        b"this begins as an INF does: the script comes first, its comments begin with #, and behind --inf there is none\n",
    )?;
    Ok(())
}

/// Whether a line of a script is bad.
fn has_bad_line(alloc: Global, script: &[u8]) -> Result<bool, AllocError>
    ensures { IfOk result (λ bad. bad ≡ is_bad_script script.now) }
{
    let bad = faults_of(alloc, script)?;
    Ok(!bad.is_empty())
}

/// Appends what is written of a script: a line for each bad line, or that it is an INF; whether there is a bad line.
pub fn report_script(
    alloc: Global,
    file: &[u8],
    script: &[u8],
    out: &mut Vec<u8>,
) -> Result<bool, AllocError>
    ensures text { OnOk result (out.new.items ≡ out.old.items ++ script_text file.now script.now) }
    ensures bad { IfOk result (λ bad. bad ≡ is_bad_script script.now) }
{
    if is_inf(script) {
        push_misplaced(alloc, file, out)?;
        return has_bad_line(alloc, script);
    }
    push_all_bad(alloc, file, script, out)
}
