//! The server of an editor, over a stream of any kind that is read and one that is written.

ghost use Rattle.std.specs.Prelude.{◌≡◌, ◌≢◌, None, IfErr, IfOk, true};
ghost use Rattle.flt_joined.specs.Made.{IsOwn};
ghost use Rattle.flt_joined.specs.Texts.{given_of};
ghost use Rattle.flt_commands_explain.specs.Served as spec;
ghost use Rattle.flt_explain_runs.specs.Whole.{look_for};

use crate::annotated::annotated;
use crate::drifts::{drifted_files, tell_drifts};
use crate::remarks::lines_on_file;
use flt_c::is_c_file;
use flt_explain_outcomes::RunSearch;
use flt_explain_runs::{Asking, UnwatchedSearch, explain};
use flt_explain_texts::Source;
use flt_explain_warning_details::WarningOptions;
use flt_explain_warnings::AllowedKinds;
use flt_files::InputFault;
use flt_joined::{GivenFile, source_file};
use flt_model::{Sink, WriteFault};
use flt_places::Files;
use flt_server::Server;
use flt_server_frames::{Incoming, ServeFault, serve};
use flt_server_session::{KeptText, Reporter};
use flt_words::{DEFAULT_STATES, Form, visible};
use json::{Value, to_vec};
use std::alloc::{AllocError, Global};
use std::slice::from_ref;

/// Takes no bytes: a report that is held back isn't put out.
#[derive(Drop)]
struct Nowhere {
    failures: u64,
}

impl Sink for Nowhere {
    ghost taken = { λ s. None };

    ghost failures = { λ s. s.failures };

    fn put(&mut self, _bytes: &[u8]) -> Result<usize, WriteFault> {
        self.failures = self.failures.wrapping_add(1);
        Err(WriteFault)
    }
}

/// The settings of `explain` without options, with the report held back.
fn asking() -> Asking
    ensures look { look_for result ≡ spec.look }
    ensures held { result.is_held ≡ true }
{
    Asking {
        coloured: false,
        search: RunSearch {
            states: DEFAULT_STATES,
            is_stack: false,
        },
        is_held: true,
        options: WarningOptions {
            allowed: AllowedKinds::none(),
            is_strict: false,
        },
    }
}

/// The output of `explain` for the text of a file.
fn printed(alloc: Global, file: &GivenFile<'_>) -> Result<Vec<u8>, AllocError>
    requires { IsOwn file.now }
    ensures { IfOk result (λ out. spec.IsExplained (given_of file.now) out.items) }
{
    let files = [source_file(alloc, file, file.name)?];
    let sources = [Source {
        text: file.text.as_slice(),
        files: Files {
            all: &files,
            stands: file.stands.as_slice(),
        },
    }];
    let mut out = Nowhere { failures: 0 };
    let mut watch = UnwatchedSearch;
    match explain(alloc, asking(), &sources, &mut out, &mut watch) {
        Ok(told) => Ok(told.explained.output),
        Err(_) => Err(AllocError),
    }
}

/// The output of `explain` for a C file: its drifts, and then that for its annotations.
fn printed_with_drifts(alloc: Global, file: &GivenFile<'_>) -> Result<Vec<u8>, AllocError>
    requires { IsOwn file.now }
    ensures { IfOk result (λ out. spec.IsExplainedWithDrifts (given_of file.now) out.items) }
{
    let drifted = drifted_files(alloc, &[], from_ref(file))?;
    let mut out = tell_drifts(alloc, Form::Human, drifted.as_slice())?;
    let own = printed(alloc, file)?;
    out.extend_from_slice(own.as_slice())?;
    Ok(out)
}

/// The lines of `explain` on a C file that isn't read.
fn printed_of_unread(alloc: Global, name: &str, why: InputFault) -> Result<Vec<u8>, AllocError>
    ensures { IfOk result (λ out. spec.IsUnread name.now out.items) }
{
    let file = why.file(alloc, name)?;
    let lines = lines_on_file(alloc, &file)?;
    Ok(lines.into_bytes())
}

/// The output of `explain` for a C file under a name.
#[tactic(auto, using(crate::proofs::ServedFile::in_c, crate::proofs::ServedFile::unread_in_c))]
fn printed_in_c(alloc: Global, name: &str, file: Vec<u8>) -> Result<Vec<u8>, AllocError>
    ensures { IfOk result (λ out. spec.IsSaidInC name.now file.items out.items) }
{
    match annotated(alloc, name, file)? {
        Ok(file) => printed_with_drifts(alloc, &file),
        Err(why) => printed_of_unread(alloc, name, why),
    }
}

/// The output of `explain` for a file under a name, which says whether it is C.
#[tactic(auto, using(crate::proofs::ServedFile::in_no_c))]
fn printed_for(alloc: Global, name: &str, file: &[u8]) -> Result<Vec<u8>, AllocError>
    ensures { IfOk result (λ out. spec.IsSaid name.now file.now out.items) }
{
    let own = Vec::from_slice(alloc, file)?;
    if is_c_file(name) {
        return printed_in_c(alloc, name, own);
    }
    let file = GivenFile::plain(alloc, name, own);
    printed(alloc, &file)
}

/// The line on a document of `length` bytes that is too long to be kept.
fn printed_of_too_long(alloc: Global, name: &str, length: usize) -> Result<Vec<u8>, AllocError>
    ensures { IfOk result (λ out. out.items ≡ spec.too_long_line name.now length) }
{
    let name = visible(alloc, name)?;
    let line = format!(in alloc;
        "error: `{name}` isn't read: it has {length} bytes, too many for a report while it is open: run `fltstack explain` on the file\n"
    )?;
    Ok(line.into_bytes())
}

/// The output of `explain` for a document of which this is kept.
fn printed_of_kept(alloc: Global, name: &str, text: &KeptText) -> Result<Vec<u8>, AllocError>
    ensures { IfOk result (λ out. spec.IsSaidOf name.now text.now out.items) }
{
    match text {
        KeptText::Whole(bytes) => printed_for(alloc, name, bytes.as_slice()),
        KeptText::TooLong(length) => printed_of_too_long(alloc, name, *length),
    }
}

/// Bytes as a JSON string; bytes that aren't UTF-8 become U+FFFD.
fn as_string(alloc: Global, bytes: &[u8]) -> Result<Vec<u8>, AllocError>
    ensures { IfOk result (λ out. out.items ≡ spec.as_string bytes.now) }
{
    let text = String::from_utf8_lossy(alloc, bytes)?;
    let value: Value<'_> = Value::String(text.as_str());
    to_vec(alloc, &value)
}

/// Reports on a text as `explain` does, with runs, and on a C file by its annotations. Of a document that is too long to be kept it says no
/// more than that.
#[derive(Clone, Copy)]
pub struct Explaining;

impl Reporter for Explaining {
    ghost reports = { spec.IsReport };

    fn report(&self, alloc: Global, uri: &str, text: &KeptText) -> Result<Vec<u8>, AllocError> {
        let printed = printed_of_kept(alloc, uri, text)?;
        as_string(alloc, printed.as_slice())
    }
}

/// Serves a client that has sent nothing yet, and returns the exit status: 0 after the client's `shutdown` and `exit`,
/// 1 after `exit` alone, at the end of `input`, in a frame that this end cuts short, and at bytes that aren't a frame's header.
/// Nothing is read after the frame of `exit`, and the messages of an answer go out before the next frame is read. A body of more than
/// 16,777,216 bytes is read past and answered by an error and a message to the user. Of a text of more than 65,536 bytes and of a C file of
/// more than 1,048,576 nothing is kept but the number of its bytes.
///
/// # Errors
///
/// `OutOfMemory` if memory is refused, `Read` if a read fails: the whole answers to some first frames were sent then, and nothing else.
/// `Write` if a write fails: how much of an answer was sent then isn't known.
pub fn serve_client<R: Incoming, O: Sink>(
    alloc: Global,
    input: &mut R,
    out: &mut O,
) -> Result<u8, ServeFault>
    ensures served { IfOk result (spec.Serves (R.left input.old) (R.left input.new) (O.taken out.old) (O.taken out.new)) }
    ensures so_far { IfErr result (λ e. e ≢ ServeFault.Write →
        spec.ServesSoFar (R.left input.old) (O.taken out.old) (O.taken out.new)) }
    ensures write { IfErr result (λ e. e ≡ ServeFault.Write → O.failures out.new ≢ O.failures out.old) }
    ensures read { IfErr result (λ e. e ≡ ServeFault.Read → R.failures input.new ≢ R.failures input.old) }
    ensures fine { IfOk result (λ _. O.failures out.new ≡ O.failures out.old) }
    ensures readable { IfOk result (λ _. R.failures input.new ≡ R.failures input.old) }
{
    let mut server = Server::new(alloc, Explaining);
    serve(alloc, input, out, &mut server)
}
