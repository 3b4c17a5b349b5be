//! The program's commands with their arguments, as `clap` takes them.

ghost use Rattle.std.specs.Prelude.{◌≡◌, false, IfOk};
ghost use Rattle.clap.specs.Simple.{App, with_rule, with_subcommand};
ghost use Rattle.clap.specs.Walk.{Rule, rule_of};
ghost use Rattle.flt_words.specs.Program as spec;

use clap::{Arg, ArgAction, Command, value_parser};
use std::alloc::{AllocError, Global};

/// The version that `--version` prints after the program's name.
const VERSION: &str = "0.1.0";

/// The help of FILE.. in a command whose texts are those of one stack.
const STACK: &str = "The filters' texts, up to 16";

// ---- arguments

/// The argument FILE of a command on one text. It goes down to no subcommand.
fn text_argument<'a>(alloc: Global) -> Arg<'a>
    ensures rule { rule_of result ≡ spec.text_rule }
    ensures own { result.global ≡ false }
{
    Arg::new(alloc, "FILE")
        .required(true)
        .help("The filter's text; `-` is the standard input")
}

/// The argument CERT.
fn cert_argument<'a>(alloc: Global) -> Arg<'a>
    ensures rule { rule_of result ≡ spec.cert_rule }
    ensures own { result.global ≡ false }
{
    Arg::new(alloc, "CERT").help(
        "Its certificate; without it, FILE's first line `fltcert 1` or `fltcert 2` begins it",
    )
}

/// The argument CERT of a command that analyses a text where none is given.
fn certificate_argument<'a>(alloc: Global) -> Arg<'a>
    ensures rule { rule_of result ≡ spec.cert_rule }
    ensures own { result.global ≡ false }
{
    Arg::new(alloc, "CERT").help("Its certificate; without it, the text is analysed")
}

/// The argument FILE.. of a command on several texts, with what its help says.
fn texts_argument<'a>(alloc: Global, help: &'a str) -> Arg<'a>
    ensures rule { rule_of result ≡ spec.texts_rule }
    ensures own { result.global ≡ false }
{
    Arg::new(alloc, "FILE")
        .required(true)
        .num_args(1..)
        .help(help)
}

/// The argument JOURNAL.
fn journal_argument<'a>(alloc: Global) -> Arg<'a>
    ensures rule { rule_of result ≡ spec.journal_rule }
    ensures own { result.global ≡ false }
{
    Arg::new(alloc, "JOURNAL")
        .required(true)
        .help("The journal; `-` is the standard input")
}

/// The argument SCRIPT.
fn script_argument<'a>(alloc: Global) -> Arg<'a>
    ensures rule { rule_of result ≡ spec.script_rule }
    ensures own { result.global ≡ false }
{
    Arg::new(alloc, "SCRIPT").required(true).help(
        "The requests to the filters, line by line; `-` is the standard input",
    )
}

/// The option `--workers`.
fn workers_argument<'a>(alloc: Global) -> Arg<'a>
    ensures rule { rule_of result ≡ spec.workers_rule }
    ensures own { result.global ≡ false }
{
    Arg::new(alloc, "workers")
        .long("workers")
        .value_name("N")
        .value_parser(value_parser!(u8).range(1..=16))
        .help("How many workers drive them, each in a thread of its own; 1 by default")
}

/// The flag `--quiet`.
fn quiet_argument<'a>(alloc: Global) -> Arg<'a>
    ensures rule { rule_of result ≡ spec.quiet_rule }
    ensures own { result.global ≡ false }
{
    Arg::new(alloc, "quiet")
        .long("quiet")
        .action(ArgAction::SetTrue)
        .help("Don't report the run's progress on a terminal")
}

/// The option `--form`.
fn form_argument<'a>(alloc: Global) -> Arg<'a>
    ensures rule { rule_of result ≡ spec.form_rule }
    ensures own { result.global ≡ false }
{
    Arg::new(alloc, "form").long("form").value_name("FORM").help(
        "How it is reported: `human`, `html` (a page), `short` (a line a finding), or `lines` (JSON) or `sarif` for other programs",
    )
}

/// The option `--color`.
fn colour_argument<'a>(alloc: Global) -> Arg<'a>
    ensures rule { rule_of result ≡ spec.colour_rule }
    ensures own { result.global ≡ false }
{
    Arg::new(alloc, "color")
        .long("color")
        .value_name("WHEN")
        .help(
            "When reports have colours: `auto` (on a terminal, without `NO_COLOR`), `always` or `never`",
        )
}

/// The option `--states`.
fn states_argument<'a>(alloc: Global) -> Arg<'a>
    ensures rule { rule_of result ≡ spec.states_rule }
    ensures own { result.global ≡ false }
{
    Arg::new(alloc, "states")
        .long("states")
        .value_name("N")
        .value_parser(value_parser!(u32).range(1..=100_000_000))
        .help(
            "How many states the search for runs of a FILE continues from at most; 40000 by default",
        )
}

/// The flag `--stack`.
fn stack_argument<'a>(alloc: Global) -> Arg<'a>
    ensures rule { rule_of result ≡ spec.stack_rule }
    ensures own { result.global ≡ false }
{
    Arg::new(alloc, "stack")
        .long("stack")
        .action(ArgAction::SetTrue)
        .help("Take the FILEs for the filters of one stack: look for runs of all of them first")
}

/// The option `--journal`.
fn written_argument<'a>(alloc: Global) -> Arg<'a>
    ensures rule { rule_of result ≡ spec.written_rule }
    ensures own { result.global ≡ false }
{
    Arg::new(alloc, "journal")
        .long("journal")
        .value_name("JOURNAL")
        .help("Write the journal of the first finding that has one into this file")
}

/// The flag `--runs`.
fn runs_argument<'a>(alloc: Global) -> Arg<'a>
    ensures rule { rule_of result ≡ spec.runs_rule }
    ensures own { result.global ≡ false }
{
    Arg::new(alloc, "runs")
        .long("runs")
        .action(ArgAction::SetTrue)
        .help(
            "Add to the forms `lines` and `sarif` a run that breaks something because of each finding, where one is found",
        )
}

/// The flag `--strict`.
fn strict_argument<'a>(alloc: Global) -> Arg<'a>
    ensures rule { rule_of result ≡ spec.strict_rule }
    ensures own { result.global ≡ false }
{
    Arg::new(alloc, "strict")
        .long("strict")
        .action(ArgAction::SetTrue)
        .help("Exit with 1 where warnings are shown, as where something is found")
}

/// The option `--allow`.
fn allow_argument<'a>(alloc: Global) -> Arg<'a>
    ensures rule { rule_of result ≡ spec.allow_rule }
    ensures own { result.global ≡ false }
{
    Arg::new(alloc, "allow")
        .long("allow")
        .value_name("KIND")
        .action(ArgAction::Append)
        .help("Leave a kind of warning out, as `W03` or `C02`; it may be given several times")
}

/// The flag `--c`.
fn c_argument<'a>(alloc: Global) -> Arg<'a>
    ensures rule { rule_of result ≡ spec.c_rule }
    ensures own { result.global ≡ false }
{
    Arg::new(alloc, "c")
        .long("c")
        .action(ArgAction::SetTrue)
        .help("Take each FILE for C, whatever its name ends with")
}

/// The flag `--timeline`.
fn timeline_argument<'a>(alloc: Global) -> Arg<'a>
    ensures rule { rule_of result ≡ spec.timeline_rule }
    ensures own { result.global ≡ false }
{
    Arg::new(alloc, "timeline")
        .long("timeline")
        .action(ArgAction::SetTrue)
        .help("Show the journal as rows, one for each stretch in which one activation is on")
}

/// The option `--svg`.
fn picture_argument<'a>(alloc: Global) -> Arg<'a>
    ensures rule { rule_of result ≡ spec.picture_rule }
    ensures own { result.global ≡ false }
{
    Arg::new(alloc, "svg")
        .long("svg")
        .value_name("PICTURE")
        .help("Draw the journal into this file")
}

/// The flag `--map`.
fn map_argument<'a>(alloc: Global) -> Arg<'a>
    ensures rule { rule_of result ≡ spec.map_rule }
    ensures own { result.global ≡ false }
{
    Arg::new(alloc, "map")
        .long("map")
        .action(ArgAction::SetTrue)
        .help("Print where each line of the text begins in its file, as `driver.c:12:8: line 3`")
}

/// The flag `--check`.
fn check_argument<'a>(alloc: Global) -> Arg<'a>
    ensures rule { rule_of result ≡ spec.check_rule }
    ensures own { result.global ≡ false }
{
    Arg::new(alloc, "check")
        .long("check")
        .action(ArgAction::SetTrue)
        .help("Say which files differ from their layout, and change none")
}

/// The flag `--write`.
fn write_argument<'a>(alloc: Global) -> Arg<'a>
    ensures rule { rule_of result ≡ spec.write_rule }
    ensures own { result.global ≡ false }
{
    Arg::new(alloc, "write")
        .long("write")
        .action(ArgAction::SetTrue)
        .help("Write the layouts into the files that differ from them")
}

/// The option `--part`.
fn part_argument<'a>(alloc: Global) -> Arg<'a>
    ensures rule { rule_of result ≡ spec.part_rule }
    ensures own { result.global ≡ false }
{
    Arg::new(alloc, "part").long("part").value_name("PART").help(
        "The part that is printed: `source`, `user` (the user's header) or `inf`; `source` if none is named",
    )
}

/// The option `--into`.
fn into_argument<'a>(alloc: Global) -> Arg<'a>
    ensures rule { rule_of result ≡ spec.into_rule }
    ensures own { result.global ≡ false }
{
    Arg::new(alloc, "into")
        .long("into")
        .value_name("FOLDER")
        .help(
            "Write all three parts into this folder; a header or an INF file that is there stays as it is",
        )
}

/// The flag `--force`.
fn force_argument<'a>(alloc: Global) -> Arg<'a>
    ensures rule { rule_of result ≡ spec.force_rule }
    ensures own { result.global ≡ false }
{
    Arg::new(alloc, "force")
        .long("force")
        .action(ArgAction::SetTrue)
        .help("Replace a source that is there, whoever wrote it")
}

/// The flag `--functions`.
fn functions_argument<'a>(alloc: Global) -> Arg<'a>
    ensures rule { rule_of result ≡ spec.functions_rule }
    ensures own { result.global ≡ false }
{
    Arg::new(alloc, "functions")
        .long("functions")
        .action(ArgAction::SetTrue)
        .help("Say of each function whether it can be read; `draft` does nothing else yet")
}

/// The option `--define`.
fn define_argument<'a>(alloc: Global) -> Arg<'a>
    ensures rule { rule_of result ≡ spec.define_rule }
    ensures own { result.global ≡ false }
{
    Arg::new(alloc, "define")
        .long("define")
        .value_name("NAME[=VALUE]")
        .action(ArgAction::Append)
        .help("Define a macro before each FILE, as 1 without VALUE; it may be given several times")
}

/// The option `--undef`.
fn undef_argument<'a>(alloc: Global) -> Arg<'a>
    ensures rule { rule_of result ≡ spec.undef_rule }
    ensures own { result.global ≡ false }
{
    Arg::new(alloc, "undef")
        .long("undef")
        .value_name("NAME")
        .action(ArgAction::Append)
        .help("Take a name for no macro at the beginning of each FILE, whatever `--define` says")
}

/// The option `--include`.
fn include_argument<'a>(alloc: Global) -> Arg<'a>
    ensures rule { rule_of result ≡ spec.include_rule }
    ensures own { result.global ≡ false }
{
    Arg::new(alloc, "include")
        .long("include")
        .value_name("DIR")
        .action(ArgAction::Append)
        .help("Look for headers in this folder; it may be given several times")
}

// ---- commands

/// A command with one more argument, if memory sufficed for both.
#[inline(always)]
#[tactic(auto, using(crate::proofs::BuiltCommands::with_last_argument))]
fn with_argument<'a>(
    command: Result<Command<'a>, AllocError>,
    arg: Arg<'a>,
) -> Result<Command<'a>, AllocError>
    ensures { (a : App) (r : Rule) → IfOk command.entry (λ c. spec.IsCommand c a) → rule_of arg.entry ≡ r → arg.entry.global ≡ false
        → IfOk result (λ c. spec.IsCommand c (with_rule a r)) }
{
    command?.arg(arg)
}

/// The command `check` without its arguments.
fn bare_check<'a>(alloc: Global) -> Command<'a>
    ensures { spec.IsCommand result spec.bare_check_app }
{
    Command::new(alloc, "check")
        .about("Says whether a certificate covers a filter's text")
        .override_usage("fltstack check <FILE> [CERT]")
        .after_help(
            "Prints `accepted` (exit 0), or the first point and rule that refuse it (exit 1).\nErrors go to the standard error with exit 2.\n\n`fltstack analyse <FILE>` makes a certificate, and `fltstack explain <FILE>` says why there is none.\n\nExample: fltstack check examples/pass_through.flt examples/pass_through.cert",
        )
}

fn check_command<'a>(alloc: Global) -> Result<Command<'a>, AllocError>
    ensures { IfOk result (λ c. spec.IsCommand c spec.check_app) }
{
    let command = with_argument(Ok(bare_check(alloc)), text_argument(alloc));
    with_argument(command, cert_argument(alloc))
}

fn analyse_command<'a>(alloc: Global) -> Result<Command<'a>, AllocError>
    ensures { IfOk result (λ c. spec.IsCommand c spec.analyse_app) }
{
    Command::new(alloc, "analyse")
        .about("Finds the least certificate that covers a filter's text")
        .override_usage("fltstack analyse <FILE>")
        .after_help(
            "Prints the certificate, thinned (exit 0), or the point and rule for which there is none (exit 1).\nErrors go to the standard error with exit 2.\n\n`fltstack explain <FILE>` says where that comes from, how to get there and how to fix it.\n\nExample: fltstack analyse examples/pending_reads.flt",
        )
        .arg(text_argument(alloc))
}

/// The command `thin` without its arguments.
fn bare_thin<'a>(alloc: Global) -> Command<'a>
    ensures { spec.IsCommand result spec.bare_thin_app }
{
    Command::new(alloc, "thin")
        .about(
            "Leaves of a certificate that covers a filter's text only the states that don't follow from others",
        )
        .override_usage("fltstack thin <FILE> [CERT]")
        .after_help(
            "Prints the certificate in format 2 (exit 0), or the first point and rule that refuse it (exit 1).\nErrors go to the standard error with exit 2.\n\nExample: fltstack thin examples/pending_reads.flt examples/pending_reads_full.cert",
        )
}

fn thin_command<'a>(alloc: Global) -> Result<Command<'a>, AllocError>
    ensures { IfOk result (λ c. spec.IsCommand c spec.thin_app) }
{
    let command = with_argument(Ok(bare_thin(alloc)), text_argument(alloc));
    with_argument(command, cert_argument(alloc))
}

/// The command `run` without its arguments.
fn bare_run<'a>(alloc: Global) -> Command<'a>
    ensures { spec.IsCommand result spec.bare_run_app }
{
    Command::new(alloc, "run")
        .about("Drives filters by a script and prints the journal of what happened")
        .override_usage("fltstack run [--workers <N>] [--quiet] <SCRIPT> <FILE>...")
        .after_help(
            "Prints the journal (exit 0), or the file, the point and the rule for which it has no certificate (exit 1).\nErrors go to the standard error with exit 2. Where the journal is full, it is printed up to there, with exit 2.\n\n`fltstack explain <FILE>...` says why a filter has no certificate, or a line of a script is malformed.\n\nExample: fltstack run examples/pending_reads.script examples/pending_reads.flt",
        )
}

fn run_command<'a>(alloc: Global) -> Result<Command<'a>, AllocError>
    ensures { IfOk result (λ c. spec.IsCommand c spec.run_app) }
{
    let command = with_argument(Ok(bare_run(alloc)), workers_argument(alloc));
    let command = with_argument(command, quiet_argument(alloc));
    let command = with_argument(command, script_argument(alloc));
    with_argument(command, texts_argument(alloc, STACK))
}

/// The command `replay` without its arguments.
fn bare_replay<'a>(alloc: Global) -> Command<'a>
    ensures { spec.IsCommand result spec.bare_replay_app }
{
    Command::new(alloc, "replay")
        .about("Says whether a journal is a run of the machine on some filters that breaks nothing")
        .override_usage("fltstack replay [--timeline] [--svg <PICTURE>] <JOURNAL> <FILE>...")
        .after_help(
            "Prints `legal` (exit 0), or `not a run at N` or `breaks Vk at N` for the first such entry (exit 1),\nafter the rows if they are requested. Errors go to the standard error with exit 2.\n\n`--timeline` says why an entry isn't enabled, and `fltstack explain <JOURNAL>` why a line is malformed.\n\nExample: fltstack replay examples/pending_reads.journal examples/pending_reads.flt",
        )
}

fn replay_command<'a>(alloc: Global) -> Result<Command<'a>, AllocError>
    ensures { IfOk result (λ c. spec.IsCommand c spec.replay_app) }
{
    let command = with_argument(Ok(bare_replay(alloc)), timeline_argument(alloc));
    let command = with_argument(command, picture_argument(alloc));
    let command = with_argument(command, journal_argument(alloc));
    with_argument(command, texts_argument(alloc, STACK))
}

/// The command `explain` without its arguments.
fn bare_explain<'a>(alloc: Global) -> Command<'a>
    ensures { spec.IsCommand result spec.bare_explain_app }
{
    Command::new(alloc, "explain")
        .about(
            "Says all that is wrong with filters' texts, where it comes from, how to get there and how to fix it",
        )
        .override_usage(
            "fltstack explain [--form <FORM>] [--color <WHEN>] [--states <N>] [--stack] [--journal <JOURNAL>] [--runs] [--strict] [--allow <KIND>]... [--c] <FILE>...\n       fltstack explain <R01 to R15, W00 to W07, V1 to V8, E01 to E08, a call or a status>...",
        )
        .after_help(
            "Prints a report for each finding, with a run that breaks something because of it, and last what `analyse`\nsays (exit 1), or a report for each warning and `nothing found` (exit 0; with `--strict` warnings make it 1).\nWhere a text doesn't parse, it says where and why (exit 2). `--form short` prints a line for each of them,\n`--form lines` a JSON object, `--form sarif` a SARIF document. `--form html` is a page with the texts, the reports and\npictures. A comment `# allow W03: why`, alone on the line before a statement, leaves a warning out there. Of rules,\nwarnings, violations, faults of a text, calls or statuses it prints the pages (exit 0); `./R02` is a file of that name.\nOf a C file (`.c`, `.h`, `.cc`, `.cpp`; with `--c` any) it reads the annotations, and its places are those of the C\nfile; first it warns where C and annotations differ, as `compare` does.\nErrors go to the standard error with exit 2.\n\nExample: fltstack explain examples/leaked_context.flt",
        )
}

fn explain_command<'a>(alloc: Global) -> Result<Command<'a>, AllocError>
    ensures { IfOk result (λ c. spec.IsCommand c spec.explain_app) }
{
    let command = with_argument(Ok(bare_explain(alloc)), form_argument(alloc));
    let command = with_argument(command, colour_argument(alloc));
    let command = with_argument(command, states_argument(alloc));
    let command = with_argument(command, stack_argument(alloc));
    let command = with_argument(command, written_argument(alloc));
    let command = with_argument(command, runs_argument(alloc));
    let command = with_argument(command, strict_argument(alloc));
    let command = with_argument(command, allow_argument(alloc));
    let command = with_argument(command, c_argument(alloc));
    with_argument(
        command,
        texts_argument(
            alloc,
            "The filters' texts; or, without a file among them, the names of pages, as `R02`",
        ),
    )
}

/// The command `extract` without its arguments.
fn bare_extract<'a>(alloc: Global) -> Command<'a>
    ensures { spec.IsCommand result spec.bare_extract_app }
{
    Command::new(alloc, "extract")
        .about("Prints the text that the annotations of C files make")
        .override_usage("fltstack extract [--map] <FILE>...")
        .after_help(
            "An annotation is the text after `//@flt` in its line, or after `/*@flt` up to `*/`. Prints all of them, in\nthe order of the files (exit 0). Errors go to the standard error with exit 2.\n\nExample: fltstack extract examples/c/counts_opens.c",
        )
}

fn extract_command<'a>(alloc: Global) -> Result<Command<'a>, AllocError>
    ensures { IfOk result (λ c. spec.IsCommand c spec.extract_app) }
{
    let command = with_argument(Ok(bare_extract(alloc)), map_argument(alloc));
    with_argument(
        command,
        texts_argument(alloc, "The C files; `-` is the standard input"),
    )
}

/// The command `format` without its arguments.
fn bare_format<'a>(alloc: Global) -> Command<'a>
    ensures { spec.IsCommand result spec.bare_format_app }
{
    Command::new(alloc, "format")
        .about("Lays out filters' texts, with their comments and blank lines")
        .override_usage(
            "fltstack format <FILE>\n       fltstack format --check <FILE>...\n       fltstack format --write <FILE>...",
        )
        .after_help(
            "Prints the layout of one FILE, with the certificate after its text (exit 0). `--check` prints `not formatted`\nand the name of each file that differs from its layout (exit 1 if there is one). `--write` changes these files,\nand leaves a symbolic link as it is. Errors go to the standard error with exit 2; `--check` and `--write` continue\nwith the other files.\n\nExample: fltstack format examples/pending_reads.flt",
        )
}

fn format_command<'a>(alloc: Global) -> Result<Command<'a>, AllocError>
    ensures { IfOk result (λ c. spec.IsCommand c spec.format_app) }
{
    let command = with_argument(Ok(bare_format(alloc)), check_argument(alloc));
    let command = with_argument(command, write_argument(alloc));
    with_argument(
        command,
        texts_argument(alloc, "The filters' texts; `-` is the standard input"),
    )
}

/// The command `emit` without its arguments.
fn bare_emit<'a>(alloc: Global) -> Command<'a>
    ensures { spec.IsCommand result spec.bare_emit_app }
{
    Command::new(alloc, "emit")
        .about(
            "Prints the C source of the driver that a filter's text is, its user's header or its INF file",
        )
        .override_usage(
            "fltstack emit [--part <PART>] <FILE> [CERT]\n       fltstack emit --into <FOLDER> [--force] <FILE> [CERT]",
        )
        .after_help(
            "Analyses the text, or checks CERT. Prints the part, or writes NAME.c, NAME_user.h and NAME.inf (exit 0); or the\npoint and rule for which there is no certificate, or `not emitted`, the line and why (exit 1). Errors go to the\nstandard error with exit 2.\n\n`docs/EMIT.md` has the form of each line, and says which parts you must fill in.\n\nExample: fltstack emit examples/pending_reads.flt",
        )
}

fn emit_command<'a>(alloc: Global) -> Result<Command<'a>, AllocError>
    ensures { IfOk result (λ c. spec.IsCommand c spec.emit_app) }
{
    let command = with_argument(Ok(bare_emit(alloc)), part_argument(alloc));
    let command = with_argument(command, into_argument(alloc));
    let command = with_argument(command, force_argument(alloc));
    let command = with_argument(command, text_argument(alloc));
    with_argument(command, certificate_argument(alloc))
}

/// The command `compare` without its arguments.
fn bare_compare<'a>(alloc: Global) -> Command<'a>
    ensures { spec.IsCommand result spec.bare_compare_app }
{
    Command::new(alloc, "compare")
        .about("Reports where the code of C files and their annotations differ")
        .override_usage("fltstack compare <FILE>...")
        .after_help(
            "Prints a report for each annotated call that the code beside it doesn't make, each call that isn't annotated,\neach other status and each callback that only the code or only the annotations have (exit 1), or that nothing\ndiffers (exit 0). It compares words, and doesn't read the C. Errors go to the standard error with exit 2.\n\nExample: fltstack compare examples/c/ctx.c",
        )
}

fn compare_command<'a>(alloc: Global) -> Result<Command<'a>, AllocError>
    ensures { IfOk result (λ c. spec.IsCommand c spec.compare_app) }
{
    with_argument(
        Ok(bare_compare(alloc)),
        texts_argument(alloc, "The C files; `-` is the standard input"),
    )
}

/// The command `draft` without its arguments.
fn bare_draft<'a>(alloc: Global) -> Command<'a>
    ensures { spec.IsCommand result spec.bare_draft_app }
{
    Command::new(alloc, "draft")
        .about("Lists the functions and the tables of registrations that it can read in plain C")
        .override_usage(
            "fltstack draft --functions [--define <NAME[=VALUE]>]... [--undef <NAME>]... [--include <DIR>]... <FILE>...",
        )
        .after_help(
            "Prints a line for each function of the C files: `read`, or where and why reading stops; for each table of\nregistrations its rows; and for each place that is not read, why (exit 0 if all is read, else 1). If\nnothing decides the condition of an `#if`, all its branches are read. `#include \"NAME\"` is looked for beside the\nfile that includes it, then in each DIR in order; `#include <NAME>` in the DIRs alone. A header that isn't found\nchanges nothing. Errors go to the standard error with exit 2.\n\nExample: fltstack draft --functions examples/c/ctx.c",
        )
}

fn draft_command<'a>(alloc: Global) -> Result<Command<'a>, AllocError>
    ensures { IfOk result (λ c. spec.IsCommand c spec.draft_app) }
{
    let command = with_argument(Ok(bare_draft(alloc)), functions_argument(alloc));
    let command = with_argument(command, define_argument(alloc));
    let command = with_argument(command, undef_argument(alloc));
    let command = with_argument(command, include_argument(alloc));
    with_argument(
        command,
        texts_argument(alloc, "The C files; `-` is the standard input"),
    )
}

/// The command `serve`, which takes no arguments.
fn bare_serve<'a>(alloc: Global) -> Command<'a>
    ensures { spec.IsCommand result spec.serve_app }
{
    Command::new(alloc, "serve")
        .about("Serves an editor: reports on its texts while they are changed")
        .override_usage("fltstack serve")
        .after_help(
            "Speaks the Language Server Protocol over the standard input and the standard output. Ends after the\nnotification `exit` (exit 0 after `shutdown`, else 1), at the end of its input, and at a malformed header (exit 1).\nErrors go to the standard error with exit 2.\n\nExample: fltstack serve",
        )
}

fn serve_command<'a>(alloc: Global) -> Result<Command<'a>, AllocError>
    ensures { IfOk result (λ c. spec.IsCommand c spec.serve_app) }
{
    Ok(bare_serve(alloc))
}

// ---- the program

/// The program without its commands.
fn bare_program<'a>(alloc: Global) -> Command<'a>
    ensures { spec.IsCommand result spec.bare_app }
{
    Command::new(alloc, "fltstack")
        .version(VERSION)
        .about(
            "A static verifier for Windows file-system minifilters, and the stack that runs what it accepts",
        )
        .after_help(
            "With no words it acts as `check -`. `fltstack <COMMAND> --help` says more of a command.\n\nExit status: 0 for `accepted`, a certificate, a journal, a text, a source, `legal` or nothing found; 1 for any other answer;\n2 if there is none, and the standard error says why.\n\nExample: fltstack analyse examples/pending_reads.flt",
        )
        .subcommand_required(true)
        .no_binary_name(true)
}

/// A program with one more command, if memory sufficed for both.
#[inline(always)]
fn with_command<'a>(
    program: Result<Command<'a>, AllocError>,
    command: Result<Command<'a>, AllocError>,
) -> Result<Command<'a>, AllocError>
    ensures { (a s : App) → IfOk program.entry (λ c. spec.IsCommand c a) → IfOk command.entry (λ c. spec.IsCommand c s)
        → IfOk result (λ c. spec.IsCommand c (with_subcommand a s.top)) }
{
    program?.subcommand(command?)
}

/// The program with its commands.
pub(crate) fn program<'a>(alloc: Global) -> Result<Command<'a>, AllocError>
    ensures { IfOk result (λ c. spec.IsCommand c spec.program_app) }
{
    let program = with_command(Ok(bare_program(alloc)), check_command(alloc));
    let program = with_command(program, analyse_command(alloc));
    let program = with_command(program, thin_command(alloc));
    let program = with_command(program, explain_command(alloc));
    let program = with_command(program, run_command(alloc));
    let program = with_command(program, replay_command(alloc));
    let program = with_command(program, extract_command(alloc));
    let program = with_command(program, format_command(alloc));
    let program = with_command(program, emit_command(alloc));
    let program = with_command(program, compare_command(alloc));
    let program = with_command(program, draft_command(alloc));
    with_command(program, serve_command(alloc))
}

/// The program with one of its commands alone.
#[inline(always)]
fn program_with<'a>(
    alloc: Global,
    command: Result<Command<'a>, AllocError>,
) -> Result<Command<'a>, AllocError>
    ensures { (c : App) → IfOk command.entry (λ command. spec.IsCommand command c) →
        IfOk result (λ p. spec.IsCommand p (spec.program_with c)) }
{
    with_command(Ok(bare_program(alloc)), command)
}

/// The program for words whose first is this one. It has only the command that the word names, since each command that is built takes some
/// 10,000 instructions, or all commands if the word names none.
#[inline(always)]
pub(crate) fn program_for<'a>(alloc: Global, word: &str) -> Result<Command<'a>, AllocError>
    ensures { IfOk result (λ c. spec.IsCommand c (spec.app_for word.now)) }
{
    match word {
        "check" => program_with(alloc, check_command(alloc)),
        "analyse" => program_with(alloc, analyse_command(alloc)),
        "thin" => program_with(alloc, thin_command(alloc)),
        "explain" => program_with(alloc, explain_command(alloc)),
        "run" => program_with(alloc, run_command(alloc)),
        "replay" => program_with(alloc, replay_command(alloc)),
        "extract" => program_with(alloc, extract_command(alloc)),
        "format" => program_with(alloc, format_command(alloc)),
        "emit" => program_with(alloc, emit_command(alloc)),
        "compare" => program_with(alloc, compare_command(alloc)),
        "draft" => program_with(alloc, draft_command(alloc)),
        "serve" => program_with(alloc, serve_command(alloc)),
        _ => program(alloc),
    }
}
