//! Lines that nobody can take for those on runs: a file's name or a line of a text may begin as one of those does.

ghost use Rattle.std.specs.Prelude.{◌≡◌, ◌++◌, OnOk};
ghost use Rattle.flt_explain_runs.specs.Quiet as spec;

use std::alloc::AllocError;

/// Whether a line begins as one on a finding's outcome in runs.
fn begins_note(line: &[u8]) -> bool
    ensures { result ≡ spec.begins_note line.now }
{
    line.starts_with(b"   = journal: ") || line.starts_with(b"   = with a callback")
}

/// Whether lines are whole, and none of them begins like that.
fn is_quiet(lines: &[u8]) -> bool
    ensures { result ≡ spec.is_quiet lines.now }
{
    let mut begins = true;
    for at in 0..lines.len() {
        if begins && begins_note(&lines[at..]) {
            return false;
        }
        begins = lines[at] == b'\n';
    }
    begins
}

/// Writes lines, with one more blank before each that begins like that, and with an end of the last one.
fn put_quieted(out: &mut Vec<u8>, lines: &[u8]) -> Result<(), AllocError>
    ensures { OnOk result (out.new.items ≡ out.old.items ++ spec.quieted lines.now) }
{
    let mut begins = true;
    for at in 0..lines.len() {
        if begins && begins_note(&lines[at..]) {
            out.push(b' ')?;
        }
        out.push(lines[at])?;
        begins = lines[at] == b'\n';
    }
    if !begins {
        out.push(b'\n')?;
    }
    Ok(())
}

/// Writes lines as they are, if none of them begins as one on a finding's outcome in runs; those that do get one more blank before them.
#[tactic(auto, using(crate::proofs::QuietLines::quieted_same))]
pub(crate) fn put_quiet(out: &mut Vec<u8>, lines: &[u8]) -> Result<(), AllocError>
    ensures { OnOk result (out.new.items ≡ out.old.items ++ spec.quieted lines.now) }
{
    if is_quiet(lines) {
        out.extend_from_slice(lines)
    } else {
        put_quieted(out, lines)
    }
}
