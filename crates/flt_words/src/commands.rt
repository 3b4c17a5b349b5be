//! The request of each command, by the values of its arguments.

ghost use Rattle.std.specs.Prelude.{◌≡◌, false, true, Some, IfOk, map, option_and_then, option_map};
ghost use Rattle.std.specs.List.{list_all, list_any};
ghost use Rattle.clap.specs.Matches.{found_of};
ghost use Rattle.clap.specs.Simple.{subcommand_rows_of};
ghost use Rattle.clap.specs.Walk.{rows_of};
ghost use Rattle.flt_explain_pages.specs.Pages.{has_page};
ghost use Rattle.flt_words.specs.Commands as spec;
ghost use Rattle.flt_words.specs.Request.{asked_of, choice_of};

use crate::request::{Colour, Form, FormatMode, Part, Request, SearchChoice, WarningChoice};
use crate::values::{
    allowed_of, colour_of, files_of, form_of, has_definitions, has_names, is_set, part_of,
    search_of, text_of, texts_of, workers_of, written_of,
};
use crate::workers::Workers;
use clap::ArgMatches;
use flt_explain_pages::page;
use std::alloc::{AllocError, Global};

/// The error if the number of workers isn't 1 to 16.
const FEW_WORKERS: &str =
    "error: `--workers` takes 1 to 16\n\nUsage: fltstack run [--workers <N>] [--quiet] <SCRIPT> <FILE>...\n\nFor more information, try '--help'.\n";

/// The error if no form has the given name.
const NO_FORM: &str =
    "error: `--form` takes `human`, `html`, `short`, `lines` or `sarif`\n\nUsage: fltstack explain [--form <FORM>] [--color <WHEN>] [--states <N>] [--stack] [--journal <JOURNAL>] [--runs] [--strict] [--allow <KIND>]... [--c] <FILE>...\n\nFor more information, try '--help'.\n";

/// The error if no time of colours has the given name.
const NO_COLOUR: &str =
    "error: `--color` takes `auto`, `always` or `never`\n\nUsage: fltstack explain [--form <FORM>] [--color <WHEN>] [--states <N>] [--stack] [--journal <JOURNAL>] [--runs] [--strict] [--allow <KIND>]... [--c] <FILE>...\n\nFor more information, try '--help'.\n";

/// The error if no kind of warning has the given name.
const NO_KIND: &str =
    "error: `--allow` takes `W00` to `W07`, and `C00` to `C05`\n\nUsage: fltstack explain [--form <FORM>] [--color <WHEN>] [--states <N>] [--stack] [--journal <JOURNAL>] [--runs] [--strict] [--allow <KIND>]... [--c] <FILE>...\n\nFor more information, try '--help'.\n";

/// The error if a journal would be written to the standard input.
const NO_JOURNAL: &str =
    "error: `--journal` takes the name of a file\n\nUsage: fltstack explain [--form <FORM>] [--color <WHEN>] [--states <N>] [--stack] [--journal <JOURNAL>] [--runs] [--strict] [--allow <KIND>]... [--c] <FILE>...\n\nFor more information, try '--help'.\n";

/// The error if a picture would be written to the standard input.
const NO_PICTURE: &str =
    "error: `--svg` takes the name of a file\n\nUsage: fltstack replay [--timeline] [--svg <PICTURE>] <JOURNAL> <FILE>...\n\nFor more information, try '--help'.\n";

/// The error if files would be both checked and written.
const BOTH_MODES: &str =
    "error: `format` takes `--check` or `--write`, not both\n\nUsage: fltstack format <FILE>\n       fltstack format --check <FILE>...\n       fltstack format --write <FILE>...\n\nFor more information, try '--help'.\n";

/// The error if layouts of several files would be printed.
const FEW_LAYOUTS: &str =
    "error: `format` prints the layout of one FILE; several take `--check` or `--write`\n\nUsage: fltstack format <FILE>\n       fltstack format --check <FILE>...\n       fltstack format --write <FILE>...\n\nFor more information, try '--help'.\n";

/// The error if a layout would be written to the standard input.
const NO_INPUT: &str =
    "error: `--write` takes the names of files\n\nUsage: fltstack format <FILE>\n       fltstack format --check <FILE>...\n       fltstack format --write <FILE>...\n\nFor more information, try '--help'.\n";

/// The error for an unknown part of a driver.
const NO_PART: &str =
    "error: `--part` takes `source`, `user` or `inf`\n\nUsage: fltstack emit [--part <PART>] <FILE> [CERT]\n       fltstack emit --into <FOLDER> [--force] <FILE> [CERT]\n\nFor more information, try '--help'.\n";

/// The error for a part that is both printed and written.
const BOTH_OUTPUTS: &str =
    "error: `emit` takes `--part` or `--into`, not both\n\nUsage: fltstack emit [--part <PART>] <FILE> [CERT]\n       fltstack emit --into <FOLDER> [--force] <FILE> [CERT]\n\nFor more information, try '--help'.\n";

/// The error for a source that would be replaced where none is written.
const NO_FORCE: &str =
    "error: `--force` takes `--into`\n\nUsage: fltstack emit [--part <PART>] <FILE> [CERT]\n       fltstack emit --into <FOLDER> [--force] <FILE> [CERT]\n\nFor more information, try '--help'.\n";

/// The error for a folder without a name.
const NO_FOLDER: &str =
    "error: `--into` takes the name of a folder\n\nUsage: fltstack emit [--part <PART>] <FILE> [CERT]\n       fltstack emit --into <FOLDER> [--force] <FILE> [CERT]\n\nFor more information, try '--help'.\n";

/// The error if `draft` has no option that names its output.
const NO_DRAFT: &str =
    "error: `draft` takes `--functions`\n\nUsage: fltstack draft --functions [--define <NAME[=VALUE]>]... [--undef <NAME>]... [--include <DIR>]... <FILE>...\n\nFor more information, try '--help'.\n";

/// The error if a macro is defined by another word than a name, or by several lines.
const NO_DEFINITION: &str =
    "error: `--define` takes NAME or NAME=VALUE in one line\n\nUsage: fltstack draft --functions [--define <NAME[=VALUE]>]... [--undef <NAME>]... [--include <DIR>]... <FILE>...\n\nFor more information, try '--help'.\n";

/// The error if `--undef` has another word than a name.
const NO_NAME: &str =
    "error: `--undef` takes NAME\n\nUsage: fltstack draft --functions [--define <NAME[=VALUE]>]... [--undef <NAME>]... [--include <DIR>]... <FILE>...\n\nFor more information, try '--help'.\n";

/// The request of the matches of `check`.
fn asked_check<'a>(check: &ArgMatches<'a>) -> Request<'a>
    ensures { asked_of result ≡ Some (spec.check_of (rows_of (found_of check.now))) }
{
    Request::Check {
        file: text_of(check, "FILE"),
        cert: check.get_str("CERT"),
    }
}

/// The request of the matches of `analyse`.
fn asked_analyse<'a>(analyse: &ArgMatches<'a>) -> Request<'a>
    ensures { asked_of result ≡ Some (spec.analyse_of (rows_of (found_of analyse.now))) }
{
    Request::Analyse {
        file: text_of(analyse, "FILE"),
    }
}

/// The request of the matches of `thin`.
fn asked_thin<'a>(thin: &ArgMatches<'a>) -> Request<'a>
    ensures { asked_of result ≡ Some (spec.thin_of (rows_of (found_of thin.now))) }
{
    Request::Thin {
        file: text_of(thin, "FILE"),
        cert: thin.get_str("CERT"),
    }
}

/// Whether each of some names has a page.
fn all_have_pages(names: &[&str]) -> bool
    ensures { result ≡ list_all (λ name. has_page name.now) names.now }
{
    names.iter().all(|name| page(name).is_some())
}

/// Whether there are names, and each has a page.
fn have_pages(names: &[&str]) -> bool
    ensures { result ≡ spec.have_pages (map (λ name. name.now) names.now) }
{
    match names {
        [] => false,
        [_, ..] => all_have_pages(names),
    }
}

/// The request of `explain` with some names.
fn explain_of<'a>(
    form: Form,
    colour: Colour,
    search: SearchChoice,
    journal: Option<&'a str>,
    warnings: WarningChoice<'a>,
    is_c: bool,
    files: Vec<&'a str>,
) -> Request<'a>
    ensures { asked_of result ≡ Some (spec.explain_of form colour search (option_map (λ name. name.now) journal.entry)
        (choice_of warnings.entry) is_c (map (λ name. name.now) files.entry.items)) }
{
    match form {
        Form::Human if have_pages(files.as_slice()) => Request::Pages { names: files },
        _ => Request::Explain {
            form,
            colour,
            search,
            journal,
            warnings,
            is_c,
            files,
        },
    }
}

/// The request of the matches of `explain`, given the form, the time of colours, and the file into which a journal is written.
#[tactic(auto, unfolding(crate::specs::Commands::explain_with))]
fn explain_with<'a>(
    alloc: Global,
    explain: &ArgMatches<'a>,
    form: Form,
    colour: Colour,
    journal: Option<&'a str>,
) -> Result<Request<'a>, AllocError>
    ensures { IfOk result (λ r. asked_of r ≡
        spec.explain_with (rows_of (found_of explain.now)) form colour (option_map (λ name. name.now) journal.entry)) }
{
    let Some(allowed) = allowed_of(alloc, explain)? else {
        return Ok(Request::Usage(String::from_str(alloc, NO_KIND)?));
    };
    let warnings = WarningChoice {
        is_strict: is_set(explain, "strict"),
        allowed,
    };
    let is_c = is_set(explain, "c");
    let files = files_of(alloc, explain)?;
    Ok(explain_of(
        form,
        colour,
        search_of(explain),
        journal,
        warnings,
        is_c,
        files,
    ))
}

/// The request of the matches of `explain`, given the form and the time of colours.
#[tactic(auto, unfolding(crate::specs::Commands::explain_in))]
fn explain_in<'a>(
    alloc: Global,
    explain: &ArgMatches<'a>,
    form: Form,
    colour: Colour,
) -> Result<Request<'a>, AllocError>
    ensures { IfOk result (λ r. asked_of r ≡ spec.explain_in (rows_of (found_of explain.now)) form colour) }
{
    let Some(journal) = written_of(explain, "journal") else {
        return Ok(Request::Usage(String::from_str(alloc, NO_JOURNAL)?));
    };
    explain_with(alloc, explain, form, colour, journal)
}

/// The request of the matches of `explain`, given the form.
#[tactic(auto, unfolding(crate::specs::Commands::explain_as))]
fn explain_as<'a>(
    alloc: Global,
    explain: &ArgMatches<'a>,
    form: Form,
) -> Result<Request<'a>, AllocError>
    ensures { IfOk result (λ r. asked_of r ≡ spec.explain_as (rows_of (found_of explain.now)) form) }
{
    let Some(colour) = colour_of(explain) else {
        return Ok(Request::Usage(String::from_str(alloc, NO_COLOUR)?));
    };
    explain_in(alloc, explain, form, colour)
}

/// The request of the matches of `explain`.
fn asked_explain<'a>(alloc: Global, explain: &ArgMatches<'a>) -> Result<Request<'a>, AllocError>
    ensures { IfOk result (λ r. asked_of r ≡ spec.explain_by (rows_of (found_of explain.now))) }
{
    let Some(form) = form_of(explain) else {
        return Ok(Request::Usage(String::from_str(alloc, NO_FORM)?));
    };
    explain_as(alloc, explain, form)
}

/// The request of the matches of `run`.
fn asked_run<'a>(alloc: Global, run: &ArgMatches<'a>) -> Result<Request<'a>, AllocError>
    ensures { IfOk result (λ r. asked_of r ≡ spec.run_of (rows_of (found_of run.now))) }
{
    let Some(workers) = Workers::new(workers_of(run)) else {
        return Ok(Request::Usage(String::from_str(alloc, FEW_WORKERS)?));
    };
    Ok(Request::Run {
        workers,
        quiet: is_set(run, "quiet"),
        script: text_of(run, "SCRIPT"),
        files: files_of(alloc, run)?,
    })
}

/// The request of `replay` with a journal and some files.
fn replay_by<'a>(
    timeline: bool,
    picture: Option<&'a str>,
    journal: &'a str,
    files: Vec<&'a str>,
) -> Request<'a>
    ensures { asked_of result ≡ Some (spec.replay_by timeline (option_map (λ name. name.now) picture.entry) journal.entry.now
        (map (λ name. name.now) files.entry.items)) }
{
    match (timeline, picture) {
        (false, None) => Request::Replay { journal, files },
        _ => Request::Show {
            timeline,
            picture,
            journal,
            files,
        },
    }
}

/// The request of the matches of `replay`.
fn asked_replay<'a>(alloc: Global, replay: &ArgMatches<'a>) -> Result<Request<'a>, AllocError>
    ensures { IfOk result (λ r. asked_of r ≡ spec.replay_of (rows_of (found_of replay.now))) }
{
    let Some(picture) = written_of(replay, "svg") else {
        return Ok(Request::Usage(String::from_str(alloc, NO_PICTURE)?));
    };
    let files = files_of(alloc, replay)?;
    Ok(replay_by(
        is_set(replay, "timeline"),
        picture,
        text_of(replay, "JOURNAL"),
        files,
    ))
}

/// The request of the matches of `extract`.
fn asked_extract<'a>(alloc: Global, extract: &ArgMatches<'a>) -> Result<Request<'a>, AllocError>
    ensures { IfOk result (λ r. asked_of r ≡ Some (spec.extract_of (rows_of (found_of extract.now)))) }
{
    Ok(Request::Extract {
        map: is_set(extract, "map"),
        files: files_of(alloc, extract)?,
    })
}

/// Whether a name is that of the standard input.
fn is_input(name: &str) -> bool
    ensures { result ≡ spec.is_input name.now }
{
    name == "-"
}

/// Whether the standard input is among some names.
fn names_input(names: &[&str]) -> bool
    ensures { result ≡ list_any (λ name. spec.is_input name.now) names.now }
{
    names.iter().any(|name| is_input(name))
}

/// The request of `format` with `--write` and some files.
fn written_format<'a>(alloc: Global, files: Vec<&'a str>) -> Result<Request<'a>, AllocError>
    ensures { IfOk result (λ r. asked_of r ≡ spec.format_by false true (map (λ name. name.now) files.entry.items)) }
{
    if names_input(files.as_slice()) {
        return Ok(Request::Usage(String::from_str(alloc, NO_INPUT)?));
    }
    let mode = FormatMode::Write;
    Ok(Request::Format { mode, files })
}

/// The request of `format` with some files and no option.
fn printed_format<'a>(alloc: Global, files: Vec<&'a str>) -> Result<Request<'a>, AllocError>
    ensures { IfOk result (λ r. asked_of r ≡ spec.format_by false false (map (λ name. name.now) files.entry.items)) }
{
    if files.len() != 1 {
        return Ok(Request::Usage(String::from_str(alloc, FEW_LAYOUTS)?));
    }
    let mode = FormatMode::Print;
    Ok(Request::Format { mode, files })
}

/// The request of `format` with some files, by its options.
fn format_by<'a>(
    alloc: Global,
    is_check: bool,
    is_write: bool,
    files: Vec<&'a str>,
) -> Result<Request<'a>, AllocError>
    ensures { IfOk result (λ r. asked_of r ≡ spec.format_by is_check is_write (map (λ name. name.now) files.entry.items)) }
{
    let mode = FormatMode::Check;
    match (is_check, is_write) {
        (true, true) => Ok(Request::Usage(String::from_str(alloc, BOTH_MODES)?)),
        (true, false) => Ok(Request::Format { mode, files }),
        (false, true) => written_format(alloc, files),
        (false, false) => printed_format(alloc, files),
    }
}

/// The request of the matches of `format`.
fn asked_format<'a>(alloc: Global, format: &ArgMatches<'a>) -> Result<Request<'a>, AllocError>
    ensures { IfOk result (λ r. asked_of r ≡ spec.format_of (rows_of (found_of format.now))) }
{
    let files = files_of(alloc, format)?;
    format_by(
        alloc,
        is_set(format, "check"),
        is_set(format, "write"),
        files,
    )
}

/// The request of the matches of `emit`, of a part.
fn emit_with<'a>(emit: &ArgMatches<'a>, part: Part) -> Request<'a>
    ensures { asked_of result ≡ Some (spec.emit_with (rows_of (found_of emit.now)) part) }
{
    Request::Emit {
        part,
        file: text_of(emit, "FILE"),
        cert: emit.get_str("CERT"),
    }
}

/// The request of the matches of `emit`, of a part or of one that there isn't.
fn emit_part<'a>(alloc: Global, emit: &ArgMatches<'a>) -> Result<Request<'a>, AllocError>
    ensures { IfOk result (λ r. asked_of r ≡ spec.emit_part (rows_of (found_of emit.now))) }
{
    if is_set(emit, "force") {
        return Ok(Request::Usage(String::from_str(alloc, NO_FORCE)?));
    }
    let Some(part) = part_of(emit) else {
        return Ok(Request::Usage(String::from_str(alloc, NO_PART)?));
    };
    Ok(emit_with(emit, part))
}

/// The request of the matches of `emit`, of a folder.
fn emit_into<'a>(emit: &ArgMatches<'a>, folder: &'a str) -> Request<'a>
    ensures { asked_of result ≡ Some (spec.emit_into (rows_of (found_of emit.now)) folder.entry.now) }
{
    let is_forced = is_set(emit, "force");
    let file = text_of(emit, "FILE");
    let cert = emit.get_str("CERT");
    Request::EmitInto {
        folder,
        is_forced,
        file,
        cert,
    }
}

/// The same, if the folder has a name.
fn emit_in<'a>(
    alloc: Global,
    emit: &ArgMatches<'a>,
    folder: &'a str,
) -> Result<Request<'a>, AllocError>
    ensures { IfOk result (λ r. asked_of r ≡ spec.emit_in (rows_of (found_of emit.now)) folder.entry.now) }
{
    if folder == "" {
        return Ok(Request::Usage(String::from_str(alloc, NO_FOLDER)?));
    }
    Ok(emit_into(emit, folder))
}

/// The request of the matches of `emit`, of these options.
#[tactic(auto, unfolding(crate::specs::Commands::emit_by))]
fn emit_by<'a>(
    alloc: Global,
    emit: &ArgMatches<'a>,
    part: Option<&'a str>,
    folder: Option<&'a str>,
) -> Result<Request<'a>, AllocError>
    ensures { IfOk result (λ r. asked_of r ≡ spec.emit_by (rows_of (found_of emit.now))
        (option_map (λ name. name.now) part.entry) (option_map (λ name. name.now) folder.entry)) }
{
    match (part, folder) {
        (_, None) => emit_part(alloc, emit),
        (None, Some(folder)) => emit_in(alloc, emit, folder),
        (Some(_), Some(_)) => Ok(Request::Usage(String::from_str(alloc, BOTH_OUTPUTS)?)),
    }
}

/// The request of the matches of `emit`.
fn asked_emit<'a>(alloc: Global, emit: &ArgMatches<'a>) -> Result<Request<'a>, AllocError>
    ensures { IfOk result (λ r. asked_of r ≡ spec.emit_of (rows_of (found_of emit.now))) }
{
    emit_by(alloc, emit, emit.get_str("part"), emit.get_str("into"))
}

/// The request of the matches of `compare`.
fn asked_compare<'a>(alloc: Global, compare: &ArgMatches<'a>) -> Result<Request<'a>, AllocError>
    ensures { IfOk result (λ r. asked_of r ≡ Some (spec.compare_of (rows_of (found_of compare.now)))) }
{
    Ok(Request::Compare {
        files: files_of(alloc, compare)?,
    })
}

/// The request of `draft --functions`.
fn listed_functions<'a>(alloc: Global, draft: &ArgMatches<'a>) -> Result<Request<'a>, AllocError>
    ensures { IfOk result (λ r. asked_of r ≡ Some (spec.functions_of (rows_of (found_of draft.now)))) }
{
    Ok(Request::Functions {
        defined: texts_of(alloc, draft, "define")?,
        undefined: texts_of(alloc, draft, "undef")?,
        folders: texts_of(alloc, draft, "include")?,
        files: files_of(alloc, draft)?,
    })
}

/// The request of the matches of `draft`.
fn asked_draft<'a>(alloc: Global, draft: &ArgMatches<'a>) -> Result<Request<'a>, AllocError>
    ensures { IfOk result (λ r. asked_of r ≡ spec.draft_of (rows_of (found_of draft.now))) }
{
    if !is_set(draft, "functions") {
        return Ok(Request::Usage(String::from_str(alloc, NO_DRAFT)?));
    }
    if !has_definitions(draft) {
        return Ok(Request::Usage(String::from_str(alloc, NO_DEFINITION)?));
    }
    if !has_names(draft) {
        return Ok(Request::Usage(String::from_str(alloc, NO_NAME)?));
    }
    listed_functions(alloc, draft)
}

/// The request of the matches of a command line.
pub(crate) fn matched<'a>(
    alloc: Global,
    matches: &ArgMatches<'a>,
) -> Result<Request<'a>, AllocError>
    ensures { IfOk result (λ r. asked_of r ≡ option_and_then spec.asked_by (subcommand_rows_of matches.now)) }
{
    if let Some(check) = matches.subcommand_matches("check") {
        return Ok(asked_check(check));
    }
    if let Some(analyse) = matches.subcommand_matches("analyse") {
        return Ok(asked_analyse(analyse));
    }
    if let Some(thin) = matches.subcommand_matches("thin") {
        return Ok(asked_thin(thin));
    }
    if let Some(explain) = matches.subcommand_matches("explain") {
        return asked_explain(alloc, explain);
    }
    if let Some(run) = matches.subcommand_matches("run") {
        return asked_run(alloc, run);
    }
    if let Some(replay) = matches.subcommand_matches("replay") {
        return asked_replay(alloc, replay);
    }
    if let Some(extract) = matches.subcommand_matches("extract") {
        return asked_extract(alloc, extract);
    }
    if let Some(format) = matches.subcommand_matches("format") {
        return asked_format(alloc, format);
    }
    if let Some(emit) = matches.subcommand_matches("emit") {
        return asked_emit(alloc, emit);
    }
    if let Some(compare) = matches.subcommand_matches("compare") {
        return asked_compare(alloc, compare);
    }
    if let Some(draft) = matches.subcommand_matches("draft") {
        return asked_draft(alloc, draft);
    }
    match matches.subcommand_matches("serve") {
        Some(_) => Ok(Request::Serve),
        None => Ok(Request::Usage(String::new(alloc))),
    }
}
