//! The search for the marks of a file, letter by letter.

ghost use Rattle.std.specs.Prelude.{◌≡◌, ◌++◌, [], ◌∷◌, IfOk, OnOk};
ghost use Rattle.flt_c_drift.specs.Reading as spec;
ghost use Rattle.flt_c_drift.specs.Runs as runs;

use crate::lock::Locks;
use crate::mark::{Mark, MarkKind};
use crate::names::{c_operation_of, call_of, is_major_function, lock_call_of};
use crate::part::{is_aside, is_blank, is_code, is_note, is_of_word, same_part};
use crate::run::{Run, after, before, put_bytes, run_count};
use crate::word::{Before, Entry, before_of, said_by_code, said_by_note};
use crate::wrapper::Wrappers;
use flt_c::{Letter, Part};
use std::alloc::{AllocError, Global};

/// The state of a word that is being read.
#[derive(Clone, Copy)]
pub(crate) struct WordState {
    /// The part that it belongs to.
    part: Part,
    /// The number of bytes of the file before it.
    begin: usize,
    /// Whether the code before it ends with `{`.
    opens: bool,
    /// The role of the word before it, which counts if that belongs to the same part.
    before: Before,
    before_part: Part,
}

/// The state of a line of the file.
#[derive(Clone, Copy)]
pub(crate) struct Line {
    /// Whether a remark of an annotation is being read, which extends to the line's end.
    remark: bool,
    /// Whether the line's annotations belong to the text alone and not to the code.
    alone: bool,
    /// Whether the stretch ends with the next code: an earlier line of it has an annotation, or a function ended.
    noted: bool,
    /// Whether this line has an annotation.
    here: bool,
    /// Whether the line begins.
    fresh: bool,
    /// Whether the line begins with `}`, as the last one of a function does.
    closing: bool,
}

/// The state of the code.
#[derive(Clone, Copy)]
pub(crate) struct Code {
    /// Whether its last byte that is no blank is `{`.
    brace: bool,
    /// The position in an entry of a table.
    entry: Entry,
}

/// The stage of a comment `@flt-call FUNCTION CALL` that is being read.
#[derive(Clone, Copy)]
pub(crate) enum Stage {
    /// None is being read, or all of it is.
    Nothing,
    /// Its function comes next.
    Function,
    /// Its call comes next.
    Call,
}

/// A reader of letters.
#[derive(Drop)]
pub(crate) struct Reader {
    alloc: Global,
    /// The word that is being read.
    word: Vec<u8>,
    spoken: WordState,
    line: Line,
    code: Code,
    stage: Stage,
    /// The place of the comment `@flt-call` that is being read, or was last.
    opened: usize,
    /// Its function.
    function: Vec<u8>,
    wrappers: Wrappers,
    locks: Locks,
    marks: Vec<Mark>,
}

/// The part as which a letter is read: a remark of an annotation is part of nothing.
fn seen(line: Line, letter: Letter) -> Part
    ensures { result ≡ spec.seen line letter }
{
    if line.remark && is_note(letter.part) {
        Part::Other
    } else {
        letter.part
    }
}

/// The role of the word before, if it belongs to the same part.
fn before_word(spoken: WordState) -> Before
    ensures { result ≡ spec.before_word spoken }
{
    if same_part(spoken.before_part, spoken.part) {
        spoken.before
    } else {
        Before::Nothing
    }
}

/// The call of a lock, if a word comes after its name.
fn lock_call_before(before: Before) -> Option<usize>
    ensures { result ≡ spec.lock_call_before before }
{
    match before {
        Before::Lock(call) => Some(call),
        _ => None,
    }
}

/// The state of reading a word, after a word.
fn spoken_after(spoken: WordState, word: &[u8]) -> WordState
    ensures { result ≡ spec.spoken_after spoken word.now }
{
    WordState {
        before: before_of(word),
        before_part: spoken.part,
        ..spoken
    }
}

/// The state of the line after a word.
fn line_after(part: Part, word: &[u8], line: Line) -> Line
    ensures { result ≡ spec.line_after part word.now line }
{
    Line {
        alone: line.alone || (is_aside(part) && word == b"-only".as_slice()),
        ..line
    }
}

/// The entry after a word that may be the name of an operation, or of another major function: that begins an entry of a table.
fn named_entry(major: bool, operation: Option<usize>, entry: Entry) -> Entry
    ensures { result ≡ spec.named_entry major operation entry }
{
    match operation {
        Some(operation) => Entry::Name(Some(operation)),
        None => { if major { Entry::Name(None) } else { entry } }
    }
}

/// The state of the code after a word.
fn code_after(spoken: WordState, word: &[u8], code: Code) -> Code
    ensures { result ≡ spec.code_after spoken word.now code }
{
    let entry = if is_code(spoken.part) && spoken.opens {
        named_entry(is_major_function(word), c_operation_of(word), code.entry)
    } else {
        code.entry
    };
    Code { entry, ..code }
}

/// The next field of an entry.
fn next_field(entry: Entry) -> Entry
    ensures { result ≡ spec.next_field entry }
{
    match entry {
        Entry::Name(operation) => Entry::Flags(operation),
        Entry::Flags(operation) => Entry::Pre(operation),
        Entry::Pre(operation) => Entry::Post(operation),
        _ => Entry::Nothing,
    }
}

/// The position in an entry after a byte of code.
fn entry_after(b: u8, entry: Entry) -> Entry
    ensures { result ≡ spec.entry_after b entry }
{
    match b {
        b',' => next_field(entry),
        b'}' => Entry::Nothing,
        _ => entry,
    }
}

/// Takes a letter of the code.
fn pass_code(code: &mut Code, part: Part, b: u8)
    ensures { code.new ≡ spec.coded part b code.old }
{
    if is_code(part) && !is_blank(b) {
        code.brace = b == b'{';
        code.entry = entry_after(b, code.entry);
    }
}

/// Takes a letter that may begin a remark.
fn pass_remark(line: &mut Line, part: Part, b: u8)
    ensures { line.new ≡ spec.remarked part b line.old }
{
    if is_note(part) && b == b'#' {
        line.remark = true;
    }
}

/// Takes a letter that may be the first of its line.
fn pass_first(line: &mut Line, part: Part, b: u8)
    ensures { line.new ≡ spec.begun_by part b line.old }
{
    if line.fresh {
        line.fresh = false;
        line.closing = line.closing || (is_code(part) && b == b'}');
    }
}

/// Takes a letter of the line.
fn pass_line(line: &mut Line, part: Part, b: u8)
    ensures { line.new ≡ spec.lined part b line.old }
{
    if b == b'\n' {
        *line = Line {
            remark: false,
            alone: false,
            noted: line.noted || line.here || line.closing,
            here: false,
            fresh: true,
            closing: false,
        };
    } else {
        pass_remark(line, part, b);
        pass_first(line, part, b);
    }
}

/// Whether no stretch begins at a letter, and no annotation of the line.
fn keeps_line(part: Part, b: u8, line: Line) -> bool
    ensures { result ≡ spec.keeps_line part b line }
{
    is_blank(b) || !((line.noted && is_code(part)) || (!line.here && is_note(part)))
}

/// Whether a comment `@flt-call` is being read.
fn is_under_way(stage: Stage) -> bool
    ensures { result ≡ spec.is_under_way stage }
{
    match stage {
        Stage::Nothing => false,
        Stage::Function | Stage::Call => true,
    }
}

impl Reader {
    fn new(alloc: Global) -> Reader
        ensures { spec.state_in result ≡ spec.start }
    {
        Reader {
            alloc,
            word: Vec::new(alloc),
            spoken: WordState {
                part: Part::Other,
                begin: 0,
                opens: false,
                before: Before::Nothing,
                before_part: Part::Other,
            },
            line: Line {
                remark: false,
                alone: false,
                noted: false,
                here: false,
                fresh: true,
                closing: false,
            },
            code: Code {
                brace: false,
                entry: Entry::Nothing,
            },
            stage: Stage::Nothing,
            opened: 0,
            function: Vec::new(alloc),
            wrappers: Wrappers::new(alloc),
            locks: Locks::new(alloc),
            marks: Vec::new(alloc),
        }
    }

    /// The statement that the word makes, if it makes one.
    fn said(&self) -> Option<MarkKind>
        ensures { result ≡ spec.said_by (spec.state_in self.now) self.now.spoken.part }
    {
        let before = before_word(self.spoken);
        match self.spoken.part {
            Part::Code => said_by_code(
                &self.wrappers,
                self.code.entry,
                before,
                self.word.as_slice(),
            ),
            Part::Note => said_by_note(self.line.alone, before, self.word.as_slice()),
            Part::Aside | Part::Other => None,
        }
    }

    /// Adds the mark of the word, if it makes a statement.
    fn say(&mut self) -> Result<(), AllocError>
        ensures { OnOk result (spec.state_in self.new ≡ spec.say (spec.state_in self.old)) }
    {
        if let Some(kind) = self.said() {
            self.marks.push(Mark {
                kind,
                start: self.spoken.begin,
                length: self.word.len(),
            })?;
        }
        Ok(())
    }

    /// Adds the mark of a lock that an annotation takes or releases by a call, whose name the word is.
    fn guard_by(&mut self, call: Option<usize>) -> Result<(), AllocError>
        ensures { OnOk result (spec.state_in self.new ≡ spec.guarded_by call (spec.state_in self.old)) }
    {
        if let Some(call) = call {
            let mark = self
                .locks
                .guard(call, self.word.as_slice(), self.spoken.begin);
            self.marks.push(mark)?;
        }
        Ok(())
    }

    /// Adds the mark of a lock whose name the word is, if an annotation takes or releases it.
    fn guard(&mut self) -> Result<(), AllocError>
        ensures { OnOk result (spec.state_in self.new ≡ spec.guarded (spec.state_in self.old)) }
    {
        if is_note(self.spoken.part)
            && !(self.line.alone || call_of(self.word.as_slice()).is_some())
        {
            self.guard_by(lock_call_before(before_word(self.spoken)))?;
        }
        Ok(())
    }

    /// Begins to look for an argument, if the word is a lock's call in code.
    fn name_call(&mut self)
        ensures { spec.state_in self.new ≡ spec.call_named (spec.state_in self.old) }
    {
        if is_code(self.spoken.part) {
            let call = lock_call_of(self.word.as_slice());
            self.locks.name_call(call);
        }
    }

    /// Forgets the word, which has ended.
    fn forget(&mut self)
        ensures { spec.state_in self.new ≡ spec.forget (spec.state_in self.old) }
    {
        self.code = code_after(self.spoken, self.word.as_slice(), self.code);
        self.line = line_after(self.spoken.part, self.word.as_slice(), self.line);
        self.spoken = spoken_after(self.spoken, self.word.as_slice());
        self.word.clear();
    }

    /// Adds the mark of a malformed comment.
    fn refuse(&mut self, start: usize, length: usize) -> Result<(), AllocError>
        ensures { OnOk result (spec.state_in self.new ≡ spec.refused start length (spec.state_in self.old)) }
    {
        self.stage = Stage::Nothing;
        self.marks.push(Mark {
            kind: MarkKind::Malformed,
            start,
            length,
        })?;
        Ok(())
    }

    /// Notes that the function of the comment makes a call.
    fn wrap(&mut self, call: usize) -> Result<(), AllocError>
        ensures { OnOk result (spec.state_in self.new ≡ spec.wrapped call (spec.state_in self.old)) }
    {
        self.stage = Stage::Nothing;
        self.wrappers
            .add(self.alloc, self.function.as_slice(), call)
    }

    /// Keeps the word as the function of the comment.
    fn keep_function(&mut self) -> Result<(), AllocError>
        ensures { OnOk result (spec.state_in self.new ≡ spec.with_function (spec.state_in self.old)) }
    {
        self.stage = Stage::Call;
        self.function.clear();
        self.function.extend_from_slice(self.word.as_slice())?;
        Ok(())
    }

    /// Takes the word as the call of the comment.
    fn declare(&mut self) -> Result<(), AllocError>
        ensures { OnOk result (spec.state_in self.new ≡ spec.declare (spec.call_word (spec.state_in self.old)) (spec.state_in self.old)) }
    {
        let begin = self.spoken.begin;
        let length = self.word.len();
        let call = call_of(self.word.as_slice());
        match call {
            Some(call) => self.wrap(call),
            None => self.refuse(begin, length),
        }
    }

    /// Begins a comment `@flt-call`, if the word does.
    fn open(&mut self)
        ensures { spec.state_in self.new ≡ spec.opened_by_word (spec.state_in self.old) }
    {
        if self.word.as_slice() == b"-call".as_slice() {
            self.stage = Stage::Function;
            self.opened = self.spoken.begin;
        }
    }

    /// Takes one more word of a comment `@flt-`.
    fn read_aside(&mut self) -> Result<(), AllocError>
        ensures { OnOk result (spec.state_in self.new ≡ spec.aside_by self.old.stage (spec.state_in self.old)) }
    {
        match self.stage {
            Stage::Nothing => {
                self.open();
                Ok(())
            }
            Stage::Function => self.keep_function(),
            Stage::Call => self.declare(),
        }
    }

    /// Ends the word, and adds its mark.
    fn end_word(&mut self) -> Result<(), AllocError>
        ensures { OnOk result (spec.state_in self.new ≡ spec.end_word (spec.state_in self.old)) }
    {
        self.say()?;
        self.guard()?;
        if is_aside(self.spoken.part) {
            self.read_aside()?;
        }
        self.name_call();
        self.forget();
        Ok(())
    }

    /// Whether no word ends before a letter.
    fn keeps_word(&self, part: Part, b: u8) -> bool
        ensures { result ≡ spec.keeps_word part b (spec.state_in self.now) }
    {
        self.word.is_empty() || (same_part(self.spoken.part, part) && is_of_word(part, b))
    }

    /// Ends the word if a letter doesn't belong to it.
    fn ended(&mut self, part: Part, b: u8) -> Result<(), AllocError>
        ensures { OnOk result (spec.state_in self.new ≡ spec.ended part b (spec.state_in self.old)) }
    {
        if !self.keeps_word(part, b) {
            self.end_word()?;
        }
        Ok(())
    }

    /// Adds a mark if a comment `@flt-call` ends too early.
    fn leave(&mut self, part: Part) -> Result<(), AllocError>
        ensures { OnOk result (spec.state_in self.new ≡ spec.left part (spec.state_in self.old)) }
    {
        if !is_aside(part) && is_under_way(self.stage) {
            let opened = self.opened;
            self.refuse(opened, 5)?;
        }
        Ok(())
    }

    /// Begins a stretch at a letter, if one begins there.
    fn cut(&mut self, at: usize, part: Part, b: u8) -> Result<(), AllocError>
        ensures { OnOk result (spec.state_in self.new ≡ spec.cut at part b (spec.state_in self.old)) }
    {
        if self.line.noted && is_code(part) && !is_blank(b) {
            self.line.noted = false;
            self.marks.push(Mark {
                kind: MarkKind::Cut,
                start: at,
                length: 1,
            })?;
        }
        Ok(())
    }

    /// Adds a mark at the first letter of an annotation in a line.
    fn note(&mut self, at: usize, part: Part, b: u8) -> Result<(), AllocError>
        ensures { OnOk result (spec.state_in self.new ≡ spec.noted at part b (spec.state_in self.old)) }
    {
        if !self.line.here && is_note(part) && !is_blank(b) {
            self.line.here = true;
            self.marks.push(Mark {
                kind: MarkKind::Noted,
                start: at,
                length: 1,
            })?;
        }
        Ok(())
    }

    /// Takes a letter for the locks, and adds the mark of an argument that ends before it.
    fn lock(&mut self, at: usize, part: Part, b: u8) -> Result<(), AllocError>
        ensures { OnOk result (spec.state_in self.new ≡ spec.locked at part b (spec.state_in self.old)) }
    {
        let marks = self.marks.len();
        let taken = self.locks.taken(at, part, b, marks);
        self.locks.read(at, part, b, marks)?;
        if let Some(mark) = taken {
            self.marks.push(mark)?;
        }
        Ok(())
    }

    /// Adds a letter to the word, if it belongs to one.
    fn grow(&mut self, at: usize, part: Part, b: u8) -> Result<(), AllocError>
        ensures { OnOk result (spec.state_in self.new ≡ spec.grown at part b (spec.state_in self.old)) }
    {
        if is_of_word(part, b) {
            if self.word.is_empty() {
                self.spoken.begin = at;
                self.spoken.opens = self.code.brace;
            }
            self.spoken.part = part;
            self.word.push(b)?;
        }
        Ok(())
    }

    /// Whether nothing but a word ends before a letter or begins with it.
    fn goes_on(&self, part: Part, b: u8) -> bool
        ensures { result ≡ spec.goes_on part b (spec.state_in self.now) }
    {
        (is_aside(part) || !is_under_way(self.stage))
            && keeps_line(part, b, self.line)
            && self.locks.is_still(part, b)
    }

    /// Ends what ends before a letter, and begins what begins with it.
    #[tactic(auto, unfolding(crate::specs::Reading::turned))]
    fn turn(&mut self, at: usize, part: Part, b: u8) -> Result<(), AllocError>
        ensures { OnOk result (spec.state_in self.new ≡ spec.turned at part b (spec.state_in self.old)) }
    {
        self.leave(part)?;
        self.cut(at, part, b)?;
        self.note(at, part, b)?;
        self.lock(at, part, b)
    }

    /// Does the same, unless there is nothing to do.
    fn turn_unless_on(&mut self, at: usize, part: Part, b: u8) -> Result<(), AllocError>
        ensures { OnOk result (spec.state_in self.new ≡ spec.turned at part b (spec.state_in self.old)) }
    {
        if self.goes_on(part, b) {
            Ok(())
        } else {
            self.turn(at, part, b)
        }
    }

    /// Takes one more letter, as this part.
    fn take_as(&mut self, at: usize, part: Part, b: u8) -> Result<(), AllocError>
        ensures { OnOk result (spec.state_in self.new ≡ spec.taken_as at part b (spec.state_in self.old)) }
    {
        self.ended(part, b)?;
        self.turn_unless_on(at, part, b)?;
        self.grow(at, part, b)?;
        pass_line(&mut self.line, part, b);
        pass_code(&mut self.code, part, b);
        Ok(())
    }

    /// Takes one more letter.
    fn take(&mut self, at: usize, letter: Letter) -> Result<(), AllocError>
        ensures { OnOk result (spec.state_in self.new ≡ spec.taken at letter (spec.state_in self.old)) }
    {
        let part = seen(self.line, letter);
        self.take_as(at, part, letter.byte)
    }

    /// Whether the line isn't at its first letter, and no comment `@flt-call` and no argument is being read.
    fn is_calm(&self) -> bool
        ensures { result ≡ runs.is_calm (spec.state_in self.now) }
    {
        !self.line.fresh && !is_under_way(self.stage) && self.locks.has_no_argument()
    }

    /// Whether a word of code is being read.
    fn is_code_word(&self) -> bool
        ensures { result ≡ runs.is_code_word (spec.state_in self.now) }
    {
        !self.code.brace && !self.line.noted && self.locks.has_no_line()
    }

    /// Whether a word of an annotation is being read, and none of a remark or of the declaration of a lock.
    fn is_note_word(&self) -> bool
        ensures { result ≡ runs.is_note_word (spec.state_in self.now) }
    {
        self.line.here && !self.line.remark && self.locks.has_other_line()
    }

    /// The run that continues with the word.
    fn word_run(&self) -> Run
        ensures { result ≡ runs.word_run self.now.spoken.part (spec.state_in self.now) }
    {
        match self.spoken.part {
            Part::Code if self.is_code_word() => Run::Word(Part::Code),
            Part::Note if self.is_note_word() => Run::Word(Part::Note),
            _ => Run::No,
        }
    }

    /// The run that continues.
    fn run(&self) -> Run
        ensures { result ≡ runs.run_in (spec.state_in self.now) }
    {
        if !self.is_calm() {
            return Run::No;
        }
        if !self.word.is_empty() {
            return self.word_run();
        }
        if self.locks.has_no_line() {
            Run::Idle
        } else {
            Run::No
        }
    }

    /// Takes some letters of a run.
    fn take_run(&mut self, run: Run, letters: &[Letter]) -> Result<(), AllocError>
        ensures { OnOk result (spec.state_in self.new ≡ runs.run_taken run letters.now (spec.state_in self.old)) }
    {
        match run {
            Run::Word(_) => put_bytes(&mut self.word, letters),
            Run::No | Run::Idle => Ok(()),
        }
    }

    /// Ends the file.
    fn end(&mut self) -> Result<(), AllocError>
        ensures { OnOk result (spec.state_in self.new ≡ spec.at_end (spec.state_in self.old)) }
    {
        if !self.word.is_empty() {
            self.end_word()?;
        }
        self.leave(Part::Other)
    }
}

/// The marks of a file, in order.
pub(crate) fn marks(alloc: Global, letters: &[Letter]) -> Result<Vec<Mark>, AllocError>
    ensures { IfOk result (λ found. found.items ≡ spec.marks_of letters.now) }
{
    let mut reader = Reader::new(alloc);
    let mut at: usize = 0;
    while at < letters.len() {
        let rest = after(letters, at);
        let run = reader.run();
        let n = run_count(run, rest);
        if n == 0 {
            reader.take(at, letters[at])?;
            at += 1;
        } else {
            reader.take_run(run, before(rest, n))?;
            at += n;
        }
    }
    reader.end()?;
    Ok(reader.marks)
}
