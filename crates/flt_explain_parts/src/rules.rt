//! The rules of a document of SARIF, each with its page.

ghost use Rattle.std.specs.Prelude.{◌≡◌, ◌∷◌, ◌++◌, [], IfOk, List, codes, flat_map};
ghost use Rattle.json.specs.Token.{Token, string};
ghost use Rattle.flt_c_drift.specs.DriftWords.{code as drift_code};
ghost use Rattle.flt_explain_parts.specs.Members.{Added, Adds, array_member, number_member, object_member, string_member, text_member};
ghost use Rattle.flt_explain_parts.specs.Paragraphs as paragraphs;
ghost use Rattle.flt_explain_parts.specs.Rules as spec;

use crate::drifted::DriftedFile;
use crate::members::{
    close_array, close_object, open_array, open_object, put_key, put_number, put_string, put_text,
};
use crate::paragraphs::first_paragraph;
use flt_c_drift::{DriftKind, code, help};
use flt_explain_pages::page;
use flt_explain_texts::fault_name;
use flt_explain_warnings::Kind;
use flt_rules::{Rule, text};
use flt_syntax::FaultKind;
use json::Writer;
use std::alloc::{AllocError, Global};

/// The rule, the fault, the kind of warning or the kind of drift of a result.
#[derive(Clone, Copy)]
pub enum ResultKind {
    Broken(Rule),
    Unread(FaultKind),
    Warned(Kind),
    Drifted(DriftKind),
}

const REPORTED: [ResultKind; 31] = [
    ResultKind::Broken(Rule::R01),
    ResultKind::Broken(Rule::R02),
    ResultKind::Broken(Rule::R03),
    ResultKind::Broken(Rule::R04),
    ResultKind::Broken(Rule::R05),
    ResultKind::Broken(Rule::R06),
    ResultKind::Broken(Rule::R07),
    ResultKind::Broken(Rule::R08),
    ResultKind::Broken(Rule::R09),
    ResultKind::Broken(Rule::R10),
    ResultKind::Broken(Rule::R11),
    ResultKind::Broken(Rule::R12),
    ResultKind::Broken(Rule::R13),
    ResultKind::Broken(Rule::R14),
    ResultKind::Broken(Rule::R15),
    ResultKind::Unread(FaultKind::E01),
    ResultKind::Unread(FaultKind::E02),
    ResultKind::Unread(FaultKind::E03),
    ResultKind::Unread(FaultKind::E04),
    ResultKind::Unread(FaultKind::E05),
    ResultKind::Unread(FaultKind::E06),
    ResultKind::Unread(FaultKind::E07),
    ResultKind::Unread(FaultKind::E08),
    ResultKind::Warned(Kind::W00),
    ResultKind::Warned(Kind::W01),
    ResultKind::Warned(Kind::W02),
    ResultKind::Warned(Kind::W03),
    ResultKind::Warned(Kind::W04),
    ResultKind::Warned(Kind::W05),
    ResultKind::Warned(Kind::W06),
    ResultKind::Warned(Kind::W07),
];

fn all() -> &'static [ResultKind]
    ensures { result.now ≡ spec.all }
{
    &REPORTED
}

const DRIFTS: [DriftKind; 6] = [
    DriftKind::Malformed,
    DriftKind::NotCalled,
    DriftKind::NotNamed,
    DriftKind::OtherStatus,
    DriftKind::NotAnnotated,
    DriftKind::OtherLock,
];

/// One kind of drift for each of their codes, in the order of these.
fn drift_kinds() -> &'static [DriftKind]
    ensures { result.now ≡ spec.drift_kinds }
{
    &DRIFTS
}

// ---- what is said of a rule

/// Its number, as `R02`.
fn id_of(reported: ResultKind) -> &'static str
    ensures { result.now ≡ spec.id_of reported }
{
    match reported {
        ResultKind::Broken(rule) => rule.name(),
        ResultKind::Unread(kind) => fault_name(kind),
        ResultKind::Warned(kind) => kind.name(),
        ResultKind::Drifted(kind) => code(kind),
    }
}

fn fault_words(kind: FaultKind) -> &'static str
    ensures { result.now ≡ spec.fault_words kind }
{
    match kind {
        FaultKind::E01 => "a byte that begins no token",
        FaultKind::E02 => "no word and no number",
        FaultKind::E03 => "an unexpected token",
        FaultKind::E04 => "an unknown name",
        FaultKind::E05 => "declared twice",
        FaultKind::E06 => "a limit is exceeded",
        FaultKind::E07 => "a callback is missing",
        FaultKind::E08 => "a variable twice in a call",
    }
}

fn kind_words(kind: Kind) -> &'static str
    ensures { result.now ≡ spec.kind_words kind }
{
    match kind {
        Kind::W00 => "comment that allows nothing",
        Kind::W01 => "locks that no order allows",
        Kind::W02 => "operation given away while a lock is held",
        Kind::W03 => "operation pended and left",
        Kind::W04 => "value changed without a lock",
        Kind::W05 => "context used that isn't the linked one",
        Kind::W06 => "something that is never used or reached",
        Kind::W07 => "instance needed where no operation keeps it",
    }
}

fn drift_words(kind: DriftKind) -> &'static str
    ensures { result.now ≡ spec.drift_words kind }
{
    match kind {
        DriftKind::Malformed => "comment that declares no call",
        DriftKind::NotCalled => "annotated call that the code doesn't make",
        DriftKind::NotNamed => "call that no annotation names",
        DriftKind::OtherStatus => "status that no annotation returns",
        DriftKind::NotAnnotated | DriftKind::NotRegistered | DriftKind::OtherOperation => {
            "callback that is only registered or only annotated"
        }
        DriftKind::OtherLock => "lock that no annotation names",
    }
}

/// Its words.
fn words_of(reported: ResultKind) -> &'static str
    ensures { result.now ≡ spec.words_of reported }
{
    match reported {
        ResultKind::Broken(rule) => text(rule),
        ResultKind::Unread(kind) => fault_words(kind),
        ResultKind::Warned(kind) => kind_words(kind),
        ResultKind::Drifted(kind) => drift_words(kind),
    }
}

fn level_of(reported: ResultKind) -> &'static str
    ensures { result.now ≡ spec.level_of reported }
{
    match reported {
        ResultKind::Broken(_) | ResultKind::Unread(_) => "error",
        ResultKind::Warned(_) | ResultKind::Drifted(_) => "warning",
    }
}

/// How often its results are true.
fn precision_of(reported: ResultKind) -> &'static str
    ensures { result.now ≡ spec.precision_of reported }
{
    match reported {
        ResultKind::Broken(_) => "high",
        ResultKind::Unread(_) => "very-high",
        ResultKind::Warned(_) | ResultKind::Drifted(_) => "medium",
    }
}

fn tag_of(reported: ResultKind) -> &'static str
    ensures { result.now ≡ spec.tag_of reported }
{
    match reported {
        ResultKind::Broken(_) => "correctness",
        ResultKind::Unread(_) => "syntax",
        ResultKind::Warned(_) => "maintainability",
        ResultKind::Drifted(_) => "correctness",
    }
}

fn index_of_kind(kind: Kind) -> usize
    ensures { result ≡ spec.index_of_kind kind }
{
    match kind {
        Kind::W00 => 23,
        Kind::W01 => 24,
        Kind::W02 => 25,
        Kind::W03 => 26,
        Kind::W04 => 27,
        Kind::W05 => 28,
        Kind::W06 => 29,
        Kind::W07 => 30,
    }
}

fn index_of_fault(kind: FaultKind) -> usize
    ensures { result ≡ spec.index_of_fault kind }
{
    match kind {
        FaultKind::E01 => 15,
        FaultKind::E02 => 16,
        FaultKind::E03 => 17,
        FaultKind::E04 => 18,
        FaultKind::E05 => 19,
        FaultKind::E06 => 20,
        FaultKind::E07 => 21,
        FaultKind::E08 => 22,
    }
}

fn index_of_rule(rule: Rule) -> usize
    ensures { result ≡ spec.index_of_rule rule }
{
    match rule {
        Rule::R01 => 0,
        Rule::R02 => 1,
        Rule::R03 => 2,
        Rule::R04 => 3,
        Rule::R05 => 4,
        Rule::R06 => 5,
        Rule::R07 => 6,
        Rule::R08 => 7,
        Rule::R09 => 8,
        Rule::R10 => 9,
        Rule::R11 => 10,
        Rule::R12 => 11,
        Rule::R13 => 12,
        Rule::R14 => 13,
        Rule::R15 => 14,
    }
}

fn index_of_drift(kind: DriftKind) -> usize
    ensures { result ≡ spec.index_of_drift kind }
{
    match kind {
        DriftKind::Malformed => 31,
        DriftKind::NotCalled => 32,
        DriftKind::NotNamed => 33,
        DriftKind::OtherStatus => 34,
        DriftKind::NotAnnotated | DriftKind::NotRegistered | DriftKind::OtherOperation => 35,
        DriftKind::OtherLock => 36,
    }
}

/// Its place among all, from 0.
fn index_of(reported: ResultKind) -> usize
    ensures { result ≡ spec.index_of reported }
{
    match reported {
        ResultKind::Broken(rule) => index_of_rule(rule),
        ResultKind::Unread(kind) => index_of_fault(kind),
        ResultKind::Warned(kind) => index_of_kind(kind),
        ResultKind::Drifted(kind) => index_of_drift(kind),
    }
}

// ---- the members

fn put_words(writer: &mut Writer, name: &str, reported: ResultKind) -> Result<(), AllocError>
    ensures { Adds result writer.old writer.new (string_member name.now (spec.words_of reported)) }
{
    put_string(writer, name, words_of(reported))
}

/// Writes the words, as a message of this name.
fn put_words_member(writer: &mut Writer, name: &str, reported: ResultKind) -> Result<(), AllocError>
    ensures { Adds result writer.old writer.new (spec.words_member name.now reported) }
{
    put_key(writer, name)?;
    open_object(writer)?;
    put_words(writer, "text", reported)?;
    close_object(writer)
}

fn put_names(writer: &mut Writer, reported: ResultKind) -> Result<(), AllocError>
    ensures { Adds result writer.old writer.new (spec.names reported) }
{
    put_words(writer, "name", reported)?;
    put_words_member(writer, "shortDescription", reported)
}

fn put_level(writer: &mut Writer, name: &str, reported: ResultKind) -> Result<(), AllocError>
    ensures { Adds result writer.old writer.new (string_member name.now (spec.level_of reported)) }
{
    put_string(writer, name, level_of(reported))
}

fn put_configuration(writer: &mut Writer, reported: ResultKind) -> Result<(), AllocError>
    ensures { Adds result writer.old writer.new (spec.configuration reported) }
{
    put_key(writer, "defaultConfiguration")?;
    open_object(writer)?;
    put_level(writer, "level", reported)?;
    close_object(writer)
}

fn put_tag(writer: &mut Writer, reported: ResultKind) -> Result<(), AllocError>
    ensures { Adds result writer.old writer.new (string (spec.tag_of reported) ∷ []) }
{
    writer.string(tag_of(reported))
}

fn put_tags(writer: &mut Writer, reported: ResultKind) -> Result<(), AllocError>
    ensures { Adds result writer.old writer.new (spec.tags reported) }
{
    put_key(writer, "tags")?;
    open_array(writer)?;
    put_tag(writer, reported)?;
    close_array(writer)
}

fn put_precision(writer: &mut Writer, reported: ResultKind) -> Result<(), AllocError>
    ensures { Adds result writer.old writer.new (string_member (codes "precision") (spec.precision_of reported)) }
{
    put_string(writer, "precision", precision_of(reported))
}

fn put_properties(writer: &mut Writer, reported: ResultKind) -> Result<(), AllocError>
    ensures { Adds result writer.old writer.new (spec.properties reported) }
{
    put_key(writer, "properties")?;
    open_object(writer)?;
    put_tags(writer, reported)?;
    put_precision(writer, reported)?;
    put_level(writer, "problem.severity", reported)?;
    close_object(writer)
}

fn put_paragraph(alloc: Global, writer: &mut Writer, page: &str) -> Result<(), AllocError>
    ensures { Adds result writer.old writer.new (text_member (codes "text") (paragraphs.first_paragraph page.now)) }
{
    let paragraph = first_paragraph(alloc, page.as_bytes())?;
    put_text(alloc, writer, "text", &paragraph)
}

fn put_described(alloc: Global, writer: &mut Writer, page: &str) -> Result<(), AllocError>
    ensures { Adds result writer.old writer.new
        (object_member (codes "fullDescription") (text_member (codes "text") (paragraphs.first_paragraph page.now))) }
{
    put_key(writer, "fullDescription")?;
    open_object(writer)?;
    put_paragraph(alloc, writer, page)?;
    close_object(writer)
}

/// Writes the first paragraph of a page, if there is one.
fn put_description(alloc: Global, writer: &mut Writer, page: Option<&str>) -> Result<(), AllocError>
    ensures { Adds result writer.old writer.new (spec.description page.entry) }
{
    match page {
        None => Ok(()),
        Some(page) => put_described(alloc, writer, page),
    }
}

fn put_page(writer: &mut Writer, page: &str) -> Result<(), AllocError>
    ensures { Adds result writer.old writer.new (object_member (codes "help") (spec.page_members page.now)) }
{
    put_key(writer, "help")?;
    open_object(writer)?;
    put_string(writer, "text", page)?;
    put_string(writer, "markdown", page)?;
    close_object(writer)
}

/// Writes a page, if there is one.
fn put_help(writer: &mut Writer, page: Option<&str>) -> Result<(), AllocError>
    ensures { Adds result writer.old writer.new (spec.help page.entry) }
{
    match page {
        None => Ok(()),
        Some(page) => put_page(writer, page),
    }
}

fn put_rule_item(
    alloc: Global,
    writer: &mut Writer,
    id: &str,
    reported: ResultKind,
    page: Option<&str>,
) -> Result<(), AllocError>
    ensures { Adds result writer.old writer.new (spec.rule_item id.now reported page.entry) }
{
    open_object(writer)?;
    put_string(writer, "id", id)?;
    put_names(writer, reported)?;
    put_description(alloc, writer, page)?;
    put_help(writer, page)?;
    put_configuration(writer, reported)?;
    put_properties(writer, reported)?;
    close_object(writer)
}

/// Writes a rule with its page.
fn put_rule(alloc: Global, writer: &mut Writer, reported: ResultKind) -> Result<(), AllocError>
    ensures { IfOk result (λ _. (ts : List Token) × spec.IsRule reported ts × Added writer.old writer.new ts) }
{
    let id = id_of(reported);
    let page = page(id);
    put_rule_item(alloc, writer, id, reported, page)?;
    Ok(())
}

/// Writes rules, in their order.
fn put_rules(alloc: Global, writer: &mut Writer, rules: &[ResultKind]) -> Result<(), AllocError>
    ensures { IfOk result (λ _. (ts : List Token) × spec.AreRules rules.now ts × Added writer.old writer.new ts) }
{
    for reported in rules {
        put_rule(alloc, writer, *reported)?;
    }
    Ok(())
}

// ---- the rules of drifts, which have no pages

/// The meaning of a kind of drift.
fn meaning(kind: DriftKind) -> &'static str
    ensures { result.now ≡ spec.meaning kind }
{
    match kind {
        DriftKind::Malformed =>
            "A comment `@flt-call` is malformed: it ends too early, or its second word is no call.",
        DriftKind::NotCalled =>
            "An annotation names a call, and no word of the code beside it is that call's name.",
        DriftKind::NotNamed =>
            "A word of the code is the name of a call, and no annotation beside it names that call, though there is one.",
        DriftKind::OtherStatus =>
            "The code returns a status, and the annotations beside it return another one.",
        DriftKind::OtherLock =>
            "The code takes or releases a lock, and the annotations beside it name only locks of other expressions.",
        DriftKind::NotAnnotated | DriftKind::NotRegistered | DriftKind::OtherOperation =>
            "A table registers a callback that no annotation begins, or none registers one that an annotation begins.",
    }
}

fn put_meaning_text(writer: &mut Writer, kind: DriftKind) -> Result<(), AllocError>
    ensures { Adds result writer.old writer.new (string_member (codes "text") (spec.meaning kind)) }
{
    put_string(writer, "text", meaning(kind))
}

fn put_meaning(writer: &mut Writer, kind: DriftKind) -> Result<(), AllocError>
    ensures { Adds result writer.old writer.new (spec.meaning_member kind) }
{
    put_key(writer, "fullDescription")?;
    open_object(writer)?;
    put_meaning_text(writer, kind)?;
    close_object(writer)
}

/// Writes how code and annotations are made to agree.
fn put_drift_help(writer: &mut Writer, kind: DriftKind) -> Result<(), AllocError>
    ensures { Adds result writer.old writer.new (spec.help_member kind) }
{
    put_page(writer, help(kind))
}

fn put_drift_id(writer: &mut Writer, kind: DriftKind) -> Result<(), AllocError>
    ensures { Adds result writer.old writer.new (string_member (codes "id") (drift_code kind)) }
{
    put_string(writer, "id", code(kind))
}

/// Writes a rule of drifts.
fn put_drift_rule(writer: &mut Writer, kind: DriftKind) -> Result<(), AllocError>
    ensures { Adds result writer.old writer.new (spec.drift_rule kind) }
{
    open_object(writer)?;
    put_drift_id(writer, kind)?;
    put_names(writer, ResultKind::Drifted(kind))?;
    put_meaning(writer, kind)?;
    put_drift_help(writer, kind)?;
    put_configuration(writer, ResultKind::Drifted(kind))?;
    put_properties(writer, ResultKind::Drifted(kind))?;
    close_object(writer)
}

/// Writes rules of drifts, in their order.
fn put_each_drift_rule(writer: &mut Writer, kinds: &[DriftKind]) -> Result<(), AllocError>
    ensures { Adds result writer.old writer.new (flat_map spec.drift_rule kinds.now) }
{
    for kind in kinds {
        put_drift_rule(writer, *kind)?;
    }
    Ok(())
}

fn put_all_drift_rules(writer: &mut Writer) -> Result<(), AllocError>
    ensures { Adds result writer.old writer.new (flat_map spec.drift_rule spec.drift_kinds) }
{
    put_each_drift_rule(writer, drift_kinds())
}

/// Writes the rules of drifts, if there is a C file.
fn put_drift_rules(writer: &mut Writer, drifted: &[DriftedFile<'_>]) -> Result<(), AllocError>
    ensures { Adds result writer.old writer.new (spec.drift_rules drifted.now) }
{
    match drifted {
        [] => Ok(()),
        [_, ..] => put_all_drift_rules(writer),
    }
}

// ---- the tool

/// Writes all rules, and those of drifts if there is a C file.
fn put_all(
    alloc: Global,
    writer: &mut Writer,
    drifted: &[DriftedFile<'_>],
) -> Result<(), AllocError>
    ensures { IfOk result (λ _. (ts : List Token) × spec.AreRules spec.all ts
        × Added writer.old writer.new (ts ++ spec.drift_rules drifted.now)) }
{
    put_rules(alloc, writer, all())?;
    put_drift_rules(writer, drifted)?;
    Ok(())
}

fn put_rules_member(
    alloc: Global,
    writer: &mut Writer,
    drifted: &[DriftedFile<'_>],
) -> Result<(), AllocError>
    ensures { IfOk result (λ _. (ts : List Token) × spec.AreRules spec.all ts
        × Added writer.old writer.new (array_member (codes "rules") (ts ++ spec.drift_rules drifted.now))) }
{
    put_key(writer, "rules")?;
    open_array(writer)?;
    put_all(alloc, writer, drifted)?;
    close_array(writer)?;
    Ok(())
}

/// The version that `fltstack --version` prints after the program's name, too.
const VERSION: &str = "0.1.0";

fn put_versions(writer: &mut Writer) -> Result<(), AllocError>
    ensures { Adds result writer.old writer.new spec.versions }
{
    put_string(writer, "name", "fltstack")?;
    put_string(writer, "version", VERSION)?;
    put_string(writer, "semanticVersion", VERSION)
}

fn put_driver(
    alloc: Global,
    writer: &mut Writer,
    drifted: &[DriftedFile<'_>],
) -> Result<(), AllocError>
    ensures { IfOk result (λ _. (ts : List Token) × spec.AreRules spec.all ts
        × Added writer.old writer.new (spec.driver (ts ++ spec.drift_rules drifted.now))) }
{
    put_key(writer, "driver")?;
    open_object(writer)?;
    put_versions(writer)?;
    put_rules_member(alloc, writer, drifted)?;
    close_object(writer)?;
    Ok(())
}

/// Writes the tool that made the results, with all rules, and with those of drifts if there is a C file.
pub fn put_tool(
    alloc: Global,
    writer: &mut Writer,
    drifted: &[DriftedFile<'_>],
) -> Result<(), AllocError>
    ensures { IfOk result (λ _. (ts : List Token) × spec.AreRules spec.all ts
        × Added writer.old writer.new (spec.tool (ts ++ spec.drift_rules drifted.now))) }
{
    put_key(writer, "tool")?;
    open_object(writer)?;
    put_driver(alloc, writer, drifted)?;
    close_object(writer)?;
    Ok(())
}

// ---- of a result

fn put_id(writer: &mut Writer, reported: ResultKind) -> Result<(), AllocError>
    ensures { Adds result writer.old writer.new (string_member (codes "ruleId") (spec.id_of reported)) }
{
    put_string(writer, "ruleId", id_of(reported))
}

fn put_index(writer: &mut Writer, reported: ResultKind) -> Result<(), AllocError>
    ensures { Adds result writer.old writer.new (number_member (codes "ruleIndex") (spec.index_of reported)) }
{
    put_number(writer, "ruleIndex", index_of(reported))
}

/// Writes the rule of a result.
pub fn put_of_rule(writer: &mut Writer, reported: ResultKind) -> Result<(), AllocError>
    ensures { Adds result writer.old writer.new (spec.of_rule reported) }
{
    put_id(writer, reported)?;
    put_index(writer, reported)
}
