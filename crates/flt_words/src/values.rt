//! The values of a command's arguments.

ghost use Rattle.std.specs.Prelude.{◌≡◌, IfOk, map, option_map};
ghost use Rattle.std.specs.List.{list_all};
ghost use Rattle.clap.specs.Matches.{found_of};
ghost use Rattle.clap.specs.Walk.{rows_of};
ghost use Rattle.flt_words.specs.Values as spec;

use crate::request::{Colour, Form, Part, SearchChoice};
use clap::ArgMatches;
use std::alloc::{AllocError, Global};

/// The number of states that the search for runs of a text expands at most, unless the words give another.
pub const DEFAULT_STATES: u32 = 40_000;

/// The value of an argument that is always there.
pub(crate) fn text_of<'a>(matches: &ArgMatches<'a>, id: &str) -> &'a str
    ensures { result.now ≡ spec.text_of id.now (rows_of (found_of matches.now)) }
{
    matches.get_str(id).unwrap_or("-")
}

/// All values of an argument.
pub(crate) fn texts_of<'a>(
    alloc: Global,
    matches: &ArgMatches<'a>,
    id: &str,
) -> Result<Vec<&'a str>, AllocError>
    ensures { IfOk result (λ texts. map (λ text. text.now) texts.items ≡ spec.texts_of id.now (rows_of (found_of matches.now))) }
{
    match matches.get_strs(id) {
        Some(texts) => Vec::from_slice(alloc, texts),
        None => Ok(Vec::new(alloc)),
    }
}

/// The values of FILE.
pub(crate) fn files_of<'a>(
    alloc: Global,
    matches: &ArgMatches<'a>,
) -> Result<Vec<&'a str>, AllocError>
    ensures { IfOk result (λ files. map (λ name. name.now) files.items ≡ spec.files_of (rows_of (found_of matches.now))) }
{
    texts_of(alloc, matches, "FILE")
}

/// The number after `--workers`: 1 without the option, 0 if it is no number.
pub(crate) fn workers_of(matches: &ArgMatches) -> u8
    ensures { result ≡ spec.workers_of (rows_of (found_of matches.now)) }
{
    match matches.get_str("workers") {
        Some(text) => text.parse::<u8>().unwrap_or(0),
        None => 1,
    }
}

/// The number of states that a search expands at most: 0 if `--states` is no number.
fn states_of(matches: &ArgMatches) -> u32
    ensures { result ≡ spec.states_of (rows_of (found_of matches.now)) }
{
    match matches.get_str("states") {
        Some(text) => text.parse::<u32>().unwrap_or(0),
        None => DEFAULT_STATES,
    }
}

/// Whether a flag is there.
pub(crate) fn is_set(matches: &ArgMatches, id: &str) -> bool
    ensures { result ≡ spec.is_set id.now (rows_of (found_of matches.now)) }
{
    match matches.get_str(id) {
        Some(text) => text == "true",
        None => false,
    }
}

/// How runs are looked for, as `--states` and `--stack` say.
pub(crate) fn search_of(matches: &ArgMatches) -> SearchChoice
    ensures { result ≡ spec.search_of (rows_of (found_of matches.now)) }
{
    SearchChoice {
        states: states_of(matches),
        is_stack: is_set(matches, "stack"),
    }
}

/// The form of a name.
fn form_named(name: &str) -> Option<Form>
    ensures { result ≡ spec.form_named name.now }
{
    match name {
        "html" => Some(Form::Html),
        "human" => Some(Form::Human),
        "lines" => Some(Form::Lines),
        "sarif" => Some(Form::Sarif),
        "short" => Some(Form::Short),
        _ => None,
    }
}

/// The form that `--form` names, if there is such a form. Without the option it is the form for people.
fn named_form(matches: &ArgMatches) -> Option<Form>
    ensures { result ≡ spec.named_form (rows_of (found_of matches.now)) }
{
    match matches.get_str("form") {
        Some(name) => form_named(name),
        None => Some(Form::Human),
    }
}

/// A form with runs. Those for people have them always, and the short one never.
fn form_with_runs(form: Form) -> Form
    ensures { result ≡ spec.form_with_runs form }
{
    match form {
        Form::Html => Form::Html,
        Form::Human => Form::Human,
        Form::Short => Form::Short,
        Form::Lines | Form::LinesWithRuns => Form::LinesWithRuns,
        Form::Sarif | Form::SarifWithRuns => Form::SarifWithRuns,
    }
}

/// A form, with runs if they are requested.
fn with_runs(is_asked: bool, form: Form) -> Form
    ensures { result ≡ spec.with_runs is_asked form }
{
    if is_asked { form_with_runs(form) } else { form }
}

/// The form that `--form` and `--runs` name, if there is such a form.
pub(crate) fn form_of(matches: &ArgMatches) -> Option<Form>
    ensures { result ≡ spec.form_of (rows_of (found_of matches.now)) }
{
    match named_form(matches) {
        Some(form) => Some(with_runs(is_set(matches, "runs"), form)),
        None => None,
    }
}

/// When there are colours, by its name.
fn colour_named(name: &str) -> Option<Colour>
    ensures { result ≡ spec.colour_named name.now }
{
    match name {
        "auto" => Some(Colour::Auto),
        "always" => Some(Colour::Always),
        "never" => Some(Colour::Never),
        _ => None,
    }
}

/// When there are colours, if `--color` names such a time. Without the option there are colours on a terminal.
pub(crate) fn colour_of(matches: &ArgMatches) -> Option<Colour>
    ensures { result ≡ spec.colour_of (rows_of (found_of matches.now)) }
{
    match matches.get_str("color") {
        Some(name) => colour_named(name),
        None => Some(Colour::Auto),
    }
}

/// The part of a driver of a name.
fn part_named(name: &str) -> Option<Part>
    ensures { result ≡ spec.part_named name.now }
{
    match name {
        "source" => Some(Part::Source),
        "user" => Some(Part::User),
        "inf" => Some(Part::Inf),
        _ => None,
    }
}

/// The part of a driver that the words name, if there is such a part; the source if they name none.
pub(crate) fn part_of(matches: &ArgMatches) -> Option<Part>
    ensures { result ≡ spec.part_of (rows_of (found_of matches.now)) }
{
    match matches.get_str("part") {
        Some(name) => part_named(name),
        None => Some(Part::Source),
    }
}

fn is_kind(name: &str) -> bool
    ensures { result ≡ spec.is_kind name.now }
{
    matches!(
        name,
        "W00"
            | "W01"
            | "W02"
            | "W03"
            | "W04"
            | "W05"
            | "W06"
            | "W07"
            | "C00"
            | "C01"
            | "C02"
            | "C03"
            | "C04"
            | "C05"
    )
}

/// Whether each of some names is the name of a kind of warning.
fn are_kinds(names: &[&str]) -> bool
    ensures { result ≡ list_all (λ name. spec.is_kind name.now) names.now }
{
    names.iter().all(|name| is_kind(name))
}

/// The names, if each is that of a kind of warning.
fn kinds_in<'a>(names: Vec<&'a str>) -> Option<Vec<&'a str>>
    ensures { option_map (λ kinds. map (λ name. name.now) kinds.items) result ≡ spec.kinds_in (map (λ name. name.now) names.entry.items) }
{
    if are_kinds(names.as_slice()) {
        Some(names)
    } else {
        None
    }
}

/// The kinds of warnings that `--allow` leaves out, by name, if each is such a kind.
pub(crate) fn allowed_of<'a>(
    alloc: Global,
    matches: &ArgMatches<'a>,
) -> Result<Option<Vec<&'a str>>, AllocError>
    ensures { IfOk result
        (λ o. option_map (λ kinds. map (λ name. name.now) kinds.items) o ≡ spec.allowed_of (rows_of (found_of matches.now))) }
{
    Ok(kinds_in(texts_of(alloc, matches, "allow")?))
}

/// The file to write, if one is named. `None` if the name is `-`.
fn written_by<'a>(name: Option<&'a str>) -> Option<Option<&'a str>>
    ensures { option_map (λ file. option_map (λ name. name.now) file) result ≡ spec.written_by (option_map (λ name. name.now) name.entry) }
{
    match name {
        Some("-") => None,
        _ => Some(name),
    }
}

/// The same for the file that an option names.
pub(crate) fn written_of<'a>(matches: &ArgMatches<'a>, id: &str) -> Option<Option<&'a str>>
    ensures { option_map (λ file. option_map (λ name. name.now) file) result ≡ spec.written_of id.now (rows_of (found_of matches.now)) }
{
    written_by(matches.get_str(id))
}

fn begins_name(byte: u8) -> bool
    ensures { result ≡ spec.begins_name byte }
{
    byte.is_ascii_alphabetic() || byte == b'_'
}

fn is_name_byte(byte: u8) -> bool
    ensures { result ≡ spec.is_name_byte byte }
{
    byte.is_ascii_alphanumeric() || byte == b'_'
}

fn are_name_bytes(bytes: &[u8]) -> bool
    ensures { result ≡ list_all spec.is_name_byte bytes.now }
{
    bytes.iter().all(|byte| is_name_byte(*byte))
}

/// Whether a text is a name of C.
fn is_name(text: &[u8]) -> bool
    ensures { result ≡ spec.is_name text.now }
{
    match text {
        [first, rest @ ..] => begins_name(*first) && are_name_bytes(rest),
        [] => false,
    }
}

fn is_line(bytes: &[u8]) -> bool
    ensures { result ≡ list_all spec.is_line_byte bytes.now }
{
    bytes.iter().all(|byte| *byte != b'\n')
}

/// Whether bytes are the rest of a name, and perhaps `=` and a value in one line.
fn is_rest(bytes: &[u8]) -> bool
    ensures { result ≡ spec.is_rest bytes.now }
{
    let mut rest = bytes;
    while let [byte, after @ ..] = rest {
        if *byte == b'=' {
            return is_line(after);
        }
        if !is_name_byte(*byte) {
            return false;
        }
        rest = after;
    }
    true
}

/// Whether a text is NAME, or NAME=VALUE in one line.
fn is_definition(text: &[u8]) -> bool
    ensures { result ≡ spec.is_definition text.now }
{
    match text {
        [first, rest @ ..] => begins_name(*first) && is_rest(rest),
        [] => false,
    }
}

/// Whether each of some texts defines a macro.
fn are_definitions(texts: &[&str]) -> bool
    ensures { result ≡ list_all (λ text. spec.is_definition text.now) texts.now }
{
    texts.iter().all(|text| is_definition(text.as_bytes()))
}

/// Whether each `--define` defines a macro.
pub(crate) fn has_definitions(matches: &ArgMatches) -> bool
    ensures { result ≡ spec.has_definitions (rows_of (found_of matches.now)) }
{
    match matches.get_strs("define") {
        Some(texts) => are_definitions(texts),
        None => true,
    }
}

/// Whether each of some texts is a name of C.
fn are_names(texts: &[&str]) -> bool
    ensures { result ≡ list_all (λ text. spec.is_name text.now) texts.now }
{
    texts.iter().all(|text| is_name(text.as_bytes()))
}

/// Whether each `--undef` has a name.
pub(crate) fn has_names(matches: &ArgMatches) -> bool
    ensures { result ≡ spec.has_names (rows_of (found_of matches.now)) }
{
    match matches.get_strs("undef") {
        Some(texts) => are_names(texts),
        None => true,
    }
}
