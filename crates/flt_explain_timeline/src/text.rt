//! A timeline as text: a line for each row that is no repetition, and one for each repetition.

ghost use Rattle.std.specs.Prelude.{◌≡◌, ◌+◌, ◌-◌, ◌/◌, ◌++◌, ◌==◌, codes, drop, flat_map, length, map};
ghost use Rattle.std.specs.Prelude.{option_copied, replicate, slice_get, string_bytes, take, IfOk};
ghost use Rattle.std.specs.Fmt.{decimal};
ghost use Rattle.std.specs.List.{range_with_len};
ghost use Rattle.flt_model.specs.Verdicts.{violation_name};
ghost use Rattle.flt_explain_timeline.specs.Folds.{part as told_in};
ghost use Rattle.flt_explain_timeline.specs.Reasons.{refusal_words};
ghost use Rattle.flt_explain_timeline.specs.Text as spec;
ghost use Rattle.flt_explain_timeline.specs.Words.{Puts, files_of as files_by_filter, line_words};

use crate::columns::COLUMNS;
use crate::folds::{Fold, folds_of, from, part, stretch};
use crate::refusal::Refusal;
use crate::rows::Row;
use crate::telling::{Column, Happening, StartedCallback, Telling, Who};
use crate::timeline::Timeline;
use crate::words::{files_of, put_callback, put_happening, put_line, put_one, put_operation};
use flt_model::{Verdict, Violation};
use flt_tree::Filter;
use sqlite_items::Items;
use std::alloc::{AllocError, Global};
use std::fmt::Write;

// ---- entries

/// The last entry of a row, which may have a greater number than entries have.
fn last_entry(row: Row) -> u128
    ensures { result ≡ spec.last_entry row }
{
    row.first as u128 + row.count.saturating_sub(1) as u128
}

/// Whether an entry is the last of a row.
fn is_last(row: Row, entry: usize) -> bool
    ensures { result ≡ (entry == spec.last_entry row) }
{
    entry as u128 == last_entry(row)
}

/// Whether a run breaks something by a row's last entry.
fn breaks(verdict: Verdict, row: Row) -> bool
    ensures { result ≡ spec.is_break verdict (spec.last_entry row) }
{
    match verdict {
        Verdict::Breaks(_, entry) => is_last(row, entry),
        _ => false,
    }
}

/// Whether an entry comes after the one that ends the run.
fn is_left_out(happening: Happening) -> bool
    ensures { result ≡ spec.is_left_out happening }
{
    matches!(happening, Happening::IsLeftOut)
}

/// Whether an entry isn't enabled.
fn is_refused(happening: Happening) -> bool
    ensures { result ≡ spec.is_refused happening }
{
    matches!(happening, Happening::IsRefused(_))
}

/// The event of an entry; one without a description was left out.
fn happening_in(telling: Option<Telling>) -> Happening
    ensures { result ≡ spec.happening_in telling }
{
    match telling {
        Some(telling) => telling.happening,
        None => Happening::IsLeftOut,
    }
}

// ---- parts of lines

fn put_blanks(out: &mut String, count: usize) -> Result<(), AllocError>
    ensures { Puts result (string_bytes out.old) (string_bytes out.new) (replicate count 32) }
{
    for _blank in 0..count {
        out.push_str(" ")?;
    }
    Ok(())
}

/// A text at the right of a field, and two blanks.
fn put_right(out: &mut String, field: usize, text: &str) -> Result<(), AllocError>
    ensures { Puts result (string_bytes out.old) (string_bytes out.new) (spec.to_right field text.now) }
{
    put_blanks(out, field.saturating_sub(text.len()))?;
    out.push_str(text)?;
    out.push_str("  ")
}

/// Two numbers with a dash between them.
fn put_span(out: &mut String, first: u128, last: u128) -> Result<(), AllocError>
    ensures { Puts result (string_bytes out.old) (string_bytes out.new) (decimal first ++ codes "-" ++ decimal last) }
{
    write!(out, "{first}-{last}")
}

/// The numbers of a first and a last entry.
fn put_numbers(out: &mut String, first: usize, last: u128) -> Result<(), AllocError>
    ensures { Puts result (string_bytes out.old) (string_bytes out.new) (spec.numbers first last) }
{
    if (first as u128) < last {
        put_span(out, first as u128, last)
    } else {
        write!(out, "{first}")
    }
}

fn numbers(alloc: Global, first: usize, last: u128) -> Result<String, AllocError>
    ensures { IfOk result (λ text. string_bytes text ≡ spec.numbers first last) }
{
    let mut out = String::new(alloc);
    put_numbers(&mut out, first, last)?;
    Ok(out)
}

/// The greatest width of the numbers of entries, if this is the last.
fn field_to(alloc: Global, last: u128) -> Result<usize, AllocError>
    ensures { IfOk result (λ width. width ≡ spec.field_to last) }
{
    let mut out = String::new(alloc);
    put_span(&mut out, last, last)?;
    Ok(out.len())
}

/// The last entry of some rows.
fn end_of(rows: &[Row]) -> u128
    ensures { result ≡ spec.end_of rows.now }
{
    match rows.last() {
        Some(row) => last_entry(*row),
        None => 0,
    }
}

/// The first entry of some rows.
fn start_of(rows: &[Row]) -> usize
    ensures { result ≡ spec.first_in (slice_get rows.now 0) }
{
    match rows.first() {
        Some(row) => row.first,
        None => 0,
    }
}

/// The sign of an operation that isn't on.
fn bar(alive: bool) -> &'static str
    ensures { result.now ≡ spec.bar alive }
{
    if alive { "|   " } else { "    " }
}

/// The signs of the first columns, of which these bits say which are alive, column 0 as the lowest.
fn put_bars(out: &mut String, alive: u32, columns: usize) -> Result<(), AllocError>
    ensures { Puts result (string_bytes out.old) (string_bytes out.new) (spec.bars alive columns) }
{
    let mut left = alive;
    for _column in 0..columns {
        out.push_str(bar(left % 2 == 1))?;
        left /= 2;
    }
    Ok(())
}

/// Whether a bit is set, of which the lowest is bit 0.
#[tactic(auto, using(crate::proofs::Texts::halves))]
fn has_bit(bits: u32, bit: usize) -> bool
    ensures { result ≡ spec.is_alive bits bit }
{
    let mut left = bits;
    for _place in 0..bit {
        left /= 2;
    }
    left % 2 == 1
}

/// The columns up to the one of an entry about this operation.
fn put_columns(
    out: &mut String,
    operation: Option<usize>,
    telling: Telling,
) -> Result<(), AllocError>
    ensures { Puts result (string_bytes out.old) (string_bytes out.new) (spec.columns_by telling.alive operation telling.column) }
{
    match telling.column {
        Column::Margin => out.push_str("* "),
        Column::Own(own) => {
            put_bars(out, telling.alive, own)?;
            out.push_str("o ")
        }
        Column::Beyond => {
            put_bars(out, telling.alive, COLUMNS)?;
            put_operation(out, "+ ", operation)?;
            out.push_str(": ")
        }
    }
}

/// Why an entry isn't enabled.
fn put_reason(out: &mut String, refusal: Option<Refusal>) -> Result<(), AllocError>
    ensures { Puts result (string_bytes out.old) (string_bytes out.new) (spec.reason_words refusal) }
{
    match refusal {
        Some(refusal) => put_known(out, refusal),
        None => out.push_str("  <- isn't enabled"),
    }
}

fn put_known(out: &mut String, refusal: Refusal) -> Result<(), AllocError>
    ensures { Puts result (string_bytes out.old) (string_bytes out.new) (codes "  <- isn't enabled: " ++ refusal_words refusal) }
{
    out.push_str("  <- isn't enabled: ")?;
    put_refusal(out, refusal)
}

fn put_refusal(out: &mut String, refusal: Refusal) -> Result<(), AllocError>
    ensures { Puts result (string_bytes out.old) (string_bytes out.new) (refusal_words refusal) }
{
    out.push_str(refusal.subject())?;
    let reason = refusal.words();
    match refusal.step() {
        Some(step) => put_one(out, reason, step),
        None => out.push_str(reason),
    }
}

fn put_violation(out: &mut String, violation: Violation) -> Result<(), AllocError>
    ensures { Puts result (string_bytes out.old) (string_bytes out.new) (violation_name violation) }
{
    out.push_str(violation.name())
}

/// The violation by the run, if it breaks something.
fn put_broken(out: &mut String, verdict: Verdict) -> Result<(), AllocError>
    ensures { Puts result (string_bytes out.old) (string_bytes out.new) (spec.broken_words verdict) }
{
    match verdict {
        Verdict::Breaks(violation, _) => put_break(out, violation),
        _ => Ok(()),
    }
}

fn put_break(out: &mut String, violation: Violation) -> Result<(), AllocError>
    ensures { Puts result (string_bytes out.old) (string_bytes out.new) (codes "  <- breaks " ++ violation_name violation) }
{
    out.push_str("  <- breaks ")?;
    put_violation(out, violation)
}

/// The callback that continues, if another was on before.
fn put_resumed(
    out: &mut String,
    filters: &[&Filter],
    resumed: Option<StartedCallback>,
) -> Result<(), AllocError>
    ensures { Puts result (string_bytes out.old) (string_bytes out.new) (spec.resumed_words filters.now resumed) }
{
    match resumed {
        Some(started) => {
            put_callback(out, filters, started)?;
            out.push_str(": ")
        }
        None => Ok(()),
    }
}

/// So many entries, each as a row.
#[tactic(auto, using(crate::proofs::Texts::singles_more))]
fn singles(alloc: Global, count: usize) -> Result<Items<Row>, AllocError>
    ensures { IfOk result (λ rows. rows ≡ map spec.single (range_with_len 0 count)) }
{
    let mut rows = Items::new(alloc);
    for first in 0..count {
        rows.push(Row { first, count: 1 })?;
    }
    Ok(rows)
}

/// How often a block comes again.
fn more_of(fold: Fold) -> usize
    ensures { result ≡ spec.more_of fold }
{
    if fold.block == 0 {
        return 0;
    }
    fold.repeated / fold.block
}

/// The words for a block of so many rows that comes so many times more.
fn put_same(out: &mut String, block: usize, more: usize) -> Result<(), AllocError>
    ensures { Puts result (string_bytes out.old) (string_bytes out.new) (spec.same_words block more) }
{
    out.push_str("the same ")?;
    if block != 1 {
        write!(out, "{block} rows ")?;
    }
    write!(out, "{more} times more\n")
}

/// The line of the rows that repeat a block, if there are any.
fn put_again(
    alloc: Global,
    out: &mut String,
    indent: usize,
    field: usize,
    fold: Fold,
    rows: &[Row],
) -> Result<(), AllocError>
    ensures { Puts result (string_bytes out.old) (string_bytes out.new) (spec.again_line indent field fold rows.now) }
{
    if fold.repeated == 0 {
        return Ok(());
    }
    let numbers = numbers(alloc, start_of(rows), end_of(rows))?;
    put_blanks(out, indent)?;
    put_right(out, field, numbers.as_str())?;
    put_same(out, fold.block, more_of(fold))
}

impl<'a> Timeline<'a> {
    // ---- what is told

    /// The description of a number.
    fn telling_by(&self, number: usize) -> Option<Telling>
        ensures { result ≡ spec.telling_by self.now number }
    {
        self.tellings.at(number)
    }

    /// The description of an entry; none after the last.
    fn telling(&self, entry: usize) -> Option<Telling>
        ensures { result ≡ spec.telling_of self.now entry }
    {
        self.telling_by(self.told.get(entry).copied()?)
    }

    /// The description of a row's last entry.
    fn last_telling(&self, row: Row) -> Option<Telling>
        ensures { result ≡ spec.telling_of self.now (spec.last_entry row) }
    {
        let behind = row.count.saturating_sub(1);
        if row.first >= self.told.len() || behind >= self.told.len() - row.first {
            return None;
        }
        self.telling(row.first + behind)
    }

    /// The operation that an entry is about.
    fn operation(&self, entry: usize) -> Option<usize>
        ensures { result ≡ spec.operation_of self.now entry }
    {
        self.whos.get(entry)?.operation
    }

    /// Who is on in a row's last entry.
    fn last_who(&self, row: Row) -> Option<Who>
        ensures { result ≡ slice_get self.now.whos (spec.last_entry row) }
    {
        let behind = row.count.saturating_sub(1);
        if row.first >= self.whos.len() || behind >= self.whos.len() - row.first {
            return None;
        }
        self.whos.get(row.first + behind).copied()
    }

    // ---- words

    /// The words of the description of a number, in a row about this operation.
    fn put_telling(
        &self,
        out: &mut String,
        operation: Option<usize>,
        number: usize,
    ) -> Result<(), AllocError>
        ensures { Puts result (string_bytes out.old) (string_bytes out.new) (spec.telling_words self.now operation number) }
    {
        let happening = happening_in(self.telling_by(number));
        let files = self.files.as_slice();
        put_happening(out, self.filters.as_slice(), files, operation, happening)
    }

    /// The words of the descriptions of some numbers.
    fn put_tellings(
        &self,
        out: &mut String,
        operation: Option<usize>,
        told: &[usize],
    ) -> Result<(), AllocError>
        ensures { Puts result (string_bytes out.old) (string_bytes out.new) (spec.listed (spec.telling_words self.now operation) told.now) }
    {
        let Some((first, rest)) = told.split_first() else {
            return Ok(());
        };
        self.put_telling(out, operation, *first)?;
        for number in rest {
            out.push_str(", ")?;
            self.put_telling(out, operation, *number)?;
        }
        Ok(())
    }

    /// The words of a block of descriptions, and how often it comes.
    fn put_block(
        &self,
        out: &mut String,
        operation: Option<usize>,
        told: &[usize],
        fold: Fold,
    ) -> Result<(), AllocError>
        ensures { Puts result (string_bytes out.old) (string_bytes out.new) (spec.block_words self.now operation told.now fold) }
    {
        let block = stretch(told, fold.first, fold.block);
        let more = more_of(fold);
        if more == 0 {
            return self.put_tellings(out, operation, block);
        }
        let times = more as u128 + 1;
        write!(out, "{times} times (")?;
        self.put_tellings(out, operation, block)?;
        out.push_str(")")
    }

    fn put_blocks(
        &self,
        out: &mut String,
        operation: Option<usize>,
        told: &[usize],
        folds: &[Fold],
    ) -> Result<(), AllocError>
        ensures { Puts result (string_bytes out.old) (string_bytes out.new)
            (spec.listed (spec.block_words self.now operation told.now) folds.now) }
    {
        let Some((first, rest)) = folds.split_first() else {
            return Ok(());
        };
        self.put_block(out, operation, told, *first)?;
        for fold in rest {
            out.push_str(", ")?;
            self.put_block(out, operation, told, *fold)?;
        }
        Ok(())
    }

    /// The words of all descriptions in a row, each repetition once.
    fn put_told(
        &self,
        alloc: Global,
        out: &mut String,
        operation: Option<usize>,
        told: &[usize],
    ) -> Result<(), AllocError>
        ensures { Puts result (string_bytes out.old) (string_bytes out.new) (spec.told_words self.now operation told.now) }
    {
        let singles = singles(alloc, told.len())?;
        let folds = folds_of(alloc, told, singles.as_slice())?;
        self.put_blocks(out, operation, told, folds.as_slice())
    }

    /// The words of a row's entries, of which the first has this description.
    fn put_row_by(
        &self,
        alloc: Global,
        out: &mut String,
        row: Row,
        telling: Telling,
    ) -> Result<(), AllocError>
        ensures { Puts result (string_bytes out.old) (string_bytes out.new)
            (spec.resumed_words self.now.filters.items telling.resumed
            ++ spec.told_words self.now (spec.operation_of self.now row.first) (told_in self.now.told row)) }
    {
        put_resumed(out, self.filters.as_slice(), telling.resumed)?;
        let told = part(self.told.as_slice(), row);
        self.put_told(alloc, out, self.operation(row.first), told)
    }

    /// The words of a row's entries.
    fn put_row(&self, alloc: Global, out: &mut String, row: Row) -> Result<(), AllocError>
        ensures { Puts result (string_bytes out.old) (string_bytes out.new) (spec.row_words self.now row) }
    {
        match self.telling(row.first) {
            None => out.push_str("not judged"),
            Some(telling) => {
                if is_left_out(telling.happening) {
                    return out.push_str("not judged");
                }
                self.put_row_by(alloc, out, row, telling)
            }
        }
    }

    /// The violation, or the reason why an entry isn't enabled, after the row of the run's last entry.
    fn put_end(&self, out: &mut String, row: Row) -> Result<(), AllocError>
        ensures { Puts result (string_bytes out.old) (string_bytes out.new) (spec.end_words self.now row) }
    {
        if self.is_broken(row) {
            return put_broken(out, self.verdict);
        }
        if is_refused(happening_in(self.last_telling(row))) {
            return put_reason(out, self.refusal);
        }
        Ok(())
    }

    /// The words in the line of a row.
    fn put_words(&self, alloc: Global, out: &mut String, row: Row) -> Result<(), AllocError>
        ensures { Puts result (string_bytes out.old) (string_bytes out.new) (spec.words self.now row) }
    {
        self.put_row(alloc, out, row)?;
        self.put_end(out, row)
    }

    // ---- lines

    /// The columns of a row.
    fn put_signs(&self, out: &mut String, row: Row) -> Result<(), AllocError>
        ensures { Puts result (string_bytes out.old) (string_bytes out.new)
            (spec.columns_of (spec.operation_of self.now row.first) (spec.telling_of self.now row.first)) }
    {
        match self.telling(row.first) {
            Some(telling) => put_columns(out, self.operation(row.first), telling),
            None => Ok(()),
        }
    }

    fn put_line(
        &self,
        alloc: Global,
        out: &mut String,
        indent: usize,
        field: usize,
        row: Row,
    ) -> Result<(), AllocError>
        ensures { Puts result (string_bytes out.old) (string_bytes out.new) (spec.line self.now indent field row) }
    {
        let numbers = numbers(alloc, row.first, last_entry(row))?;
        put_blanks(out, indent)?;
        put_right(out, field, numbers.as_str())?;
        self.put_signs(out, row)?;
        self.put_words(alloc, out, row)?;
        out.push_str("\n")
    }

    fn put_lines(
        &self,
        alloc: Global,
        out: &mut String,
        indent: usize,
        field: usize,
        rows: &[Row],
    ) -> Result<(), AllocError>
        ensures { Puts result (string_bytes out.old) (string_bytes out.new) (flat_map (spec.line self.now indent field) rows.now) }
    {
        for row in rows {
            self.put_line(alloc, out, indent, field, *row)?;
        }
        Ok(())
    }

    fn put_fold(
        &self,
        alloc: Global,
        out: &mut String,
        indent: usize,
        field: usize,
        fold: Fold,
    ) -> Result<(), AllocError>
        ensures { Puts result (string_bytes out.old) (string_bytes out.new) (spec.fold_lines self.now indent field fold) }
    {
        let rows = self.rows.as_slice();
        let block = stretch(rows, fold.first, fold.block);
        let again = stretch(from(rows, fold.first), fold.block, fold.repeated);
        self.put_lines(alloc, out, indent, field, block)?;
        put_again(alloc, out, indent, field, fold, again)
    }

    fn put_folds(
        &self,
        alloc: Global,
        out: &mut String,
        indent: usize,
        field: usize,
    ) -> Result<(), AllocError>
        ensures { Puts result (string_bytes out.old) (string_bytes out.new)
            (flat_map (spec.fold_lines self.now indent field) self.now.folds) }
    {
        for fold in self.folds.as_slice() {
            self.put_fold(alloc, out, indent, field, *fold)?;
        }
        Ok(())
    }

    // ---- rows by themselves

    /// The words of a row's entries, without their numbers and columns.
    ///
    /// # Errors
    ///
    /// If memory is refused.
    pub fn words(&self, alloc: Global, row: Row) -> Result<String, AllocError>
        ensures { IfOk result (λ words. string_bytes words ≡ spec.words self.now row) }
    {
        let mut out = String::new(alloc);
        self.put_words(alloc, &mut out, row)?;
        Ok(out)
    }

    /// Writes the number in its file of a line of the text of a filter, after the file's name if there are several. Filters count from 0,
    /// from the highest altitude, and lines from 1.
    ///
    /// # Errors
    ///
    /// If memory is refused.
    pub fn put_text_line(
        &self,
        out: &mut String,
        filter: usize,
        line: usize,
    ) -> Result<(), AllocError>
        ensures { Puts result (string_bytes out.old) (string_bytes out.new) (line_words (files_by_filter self.now.files filter) line) }
    {
        put_line(out, files_of(self.files.as_slice(), filter), line)
    }

    /// The column of a row, from 0; none for one in the margin. Beyond all columns it is their number.
    pub fn column(&self, row: Row) -> Option<usize>
        ensures { result ≡ spec.column_of self.now row }
    {
        match self.telling(row.first)?.column {
            Column::Margin => None,
            Column::Own(own) => Some(own),
            Column::Beyond => Some(COLUMNS),
        }
    }

    /// Whether the operation of a column isn't done when a row begins.
    pub fn is_alive(&self, row: Row, column: usize) -> bool
        ensures { result ≡ spec.is_alive_in column (spec.telling_of self.now row.first) }
    {
        match self.telling(row.first) {
            Some(telling) => has_bit(telling.alive, column),
            None => false,
        }
    }

    /// Whether a callback is on in a row.
    pub fn is_running(&self, row: Row) -> bool
        ensures { result ≡ spec.is_running self.now row }
    {
        match self.last_who(row) {
            Some(who) => who.activation.is_some(),
            None => false,
        }
    }

    /// Whether the run breaks something by a row's last entry.
    pub fn is_broken(&self, row: Row) -> bool
        ensures { result ≡ spec.is_break self.now.verdict (spec.last_entry row) }
    {
        breaks(self.verdict, row)
    }

    /// The timeline as text, each line after so many blanks: the numbers of a row's entries, the columns, and the words of the entries.
    ///
    /// # Errors
    ///
    /// If memory is refused.
    pub fn text(&self, alloc: Global, indent: usize) -> Result<String, AllocError>
        ensures { IfOk result (λ text. string_bytes text ≡ spec.text self.now indent) }
    {
        let mut out = String::new(alloc);
        let field = field_to(alloc, end_of(self.rows.as_slice()))?;
        self.put_folds(alloc, &mut out, indent, field)?;
        Ok(out)
    }
}
