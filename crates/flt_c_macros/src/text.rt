//! The text between directives: uses of macros are expanded.

ghost use Rattle.std.specs.Prelude.{◌≡◌, ◌<◌, [], length, None, OnOk, IfOk, option_copied};
ghost use Rattle.flt_c_macros.specs.Bodies.{filled};
ghost use Rattle.flt_c_macros.specs.Machines.{unprepared};
ghost use Rattle.flt_c_macros.specs.Uses as spec;

use crate::arguments::{Search, Stage, are_given, commas_of};
use crate::body::{apart, fill, has_name, has_sign};
use crate::item::{Item, Word, colored, first, is_busy, plain};
use crate::kind::same_kind;
use crate::machine::{Machine, Prepared, is_large};
use crate::macros::{Macro, Macros};
use crate::note::{Note, NoteKind, is_told};
use crate::state::State;
use flt_c_tokens::{Kind, Token};
use sqlite_items::Items;
use std::alloc::{AllocError, Global};

/// How many arguments may be within each other.
const MAX_DEPTH: usize = 16;

fn is_kept(kept: &[bool], name: u32) -> bool
    ensures { result ≡ spec.is_kept kept.now name }
{
    match kept.get(name as usize) {
        Some(kept) => *kept,
        None => false,
    }
}

/// A word's definition, if it is a name that may be expanded: it is neither painted nor kept nor in work.
fn found<'a>(macros: &'a Macros, kept: &[bool], busy: &[u32], word: Word) -> Option<&'a Macro>
    ensures { option_copied result ≡ spec.found kept.now macros.now busy.now word }
{
    let token = word.token;
    if same_kind(token.kind, Kind::Name)
        && !word.is_painted
        && !is_kept(kept, token.word)
        && !is_busy(busy, token)
    {
        macros.get(token.word)
    } else {
        None
    }
}

/// Why no arguments are put in a body, if they aren't.
fn refusal(
    depth: usize,
    names: &[u32],
    rest: Option<u32>,
    body: &[Token],
    search: &Search,
    left: u32,
) -> Option<NoteKind>
    ensures value { result ≡ spec.refusal depth names.now rest body.now search.now left }
    ensures deep { result ≡ None → 0 < depth }
    ensures few { result ≡ None → length body.now < left }
{
    if !are_given(names, rest, search.arguments.as_slice()) {
        Some(NoteKind::Arguments)
    } else if depth == 0 || is_large(body.len(), search.names, left) {
        Some(NoteKind::Large)
    } else {
        None
    }
}

/// Puts arguments in a body, which is paid and will be read.
fn put_in(
    alloc: Global,
    token: Token,
    rest: Option<u32>,
    body: &[Token],
    search: &Search,
    prepared: Prepared,
    machine: &mut Machine,
) -> Result<(), AllocError>
    ensures { OnOk result (machine.new ≡ spec.put_in token search.now prepared (length body.now)
        (filled prepared.given rest token 0 body.now) machine.old) }
{
    let Prepared { given, left, notes } = prepared;
    let limit = left as usize + body.len() + 1;
    match fill(alloc, given.as_slice(), rest, token, body, limit)? {
        None => {
            machine.left = left;
            machine.fail(NoteKind::Large, token, search)
        }
        Some(words) => {
            let more = words.len().saturating_sub(body.len()) as u32;
            machine.pass(alloc, search, left - more, notes)?;
            machine.enter(token.word, words.as_slice())
        }
    }
}

/// Reads the arguments whose parameters are among the tokens of a body.
#[cycle(uses)]
fn prepare(
    alloc: Global,
    macros: &Macros,
    kept: &[bool],
    depth: usize,
    busy: &[u32],
    tokens: &[Token],
    names: &[u32],
    arguments: &[Items<Word>],
    left: u32,
) -> Result<Prepared, AllocError>
    ensures { IfOk result (λ p. p ≡ spec.prepared (spec.read kept.now macros.now depth []) busy.now tokens.now names.now arguments.now
        (unprepared left)) }
{
    let mut prepared = Prepared::new(alloc, left);
    let mut names_left = names;
    let mut arguments_left = arguments;
    while let [name, names_behind @ ..] = names_left {
        match arguments_left {
            [] => prepared.add_unread(alloc, *name, &[])?,
            [words, arguments_behind @ ..] => {
                if has_name(*name, tokens) {
                    let mut machine = Machine::alone(alloc, busy, words.as_slice(), prepared.left)?;
                    read(alloc, macros, kept, depth, &[], &mut machine)?;
                    prepared.add(alloc, *name, words.as_slice(), machine)?;
                } else {
                    prepared.add_unread(alloc, *name, words.as_slice())?;
                }
                arguments_left = arguments_behind;
            }
        }
        names_left = names_behind;
    }
    Ok(prepared)
}

/// Expands a use whose arguments are given; these tokens of the body aren't of a `, ## __VA_ARGS__`.
#[tactic(auto, unfolding(crate::specs::Uses::given_called))]
#[cycle(uses)]
fn call_given(
    alloc: Global,
    macros: &Macros,
    kept: &[bool],
    depth: usize,
    token: Token,
    names: &[u32],
    rest: Option<u32>,
    body: &[Token],
    tokens: &[Token],
    search: &Search,
    machine: &mut Machine,
) -> Result<(), AllocError>
    requires deep { 0 < depth }
    ensures { OnOk result (machine.new ≡ spec.given_called (spec.again kept.now macros.now depth) token names.now rest body.now tokens.now
        search.now machine.old) }
{
    if has_sign(tokens) {
        return machine.fail(NoteKind::Parameters, token, search);
    }
    let work = first(machine.names(), search.names);
    let arguments = search.arguments.as_slice();
    let left = machine.left;
    let prepared = prepare(
        alloc,
        macros,
        kept,
        depth - 1,
        work,
        tokens,
        names,
        arguments,
        left,
    )?;
    put_in(alloc, token, rest, body, search, prepared, machine)
}

/// Expands a name of a macro with parameters after a search for its brackets.
#[cycle(uses)]
fn call_by(
    alloc: Global,
    macros: &Macros,
    kept: &[bool],
    depth: usize,
    token: Token,
    names: &[u32],
    rest: Option<u32>,
    body: &[Token],
    search: &Search,
    machine: &mut Machine,
) -> Result<(), AllocError>
    ensures { OnOk result (machine.new ≡ spec.called_at depth (spec.again kept.now macros.now depth) token names.now rest body.now
        search.now search.now.stage machine.old) }
{
    match search.stage {
        Stage::Before | Stage::Absent => machine.write(plain(token)),
        Stage::Within(_) => machine.fail(search.unclosed(), token, search),
        Stage::Closed => match refusal(depth, names, rest, body, search, machine.left) {
            Some(kind) => machine.fail(kind, token, search),
            None => {
                machine.pay(body.len());
                let tokens = apart(alloc, rest, body)?;
                call_given(
                    alloc,
                    macros,
                    kept,
                    depth,
                    token,
                    names,
                    rest,
                    body,
                    tokens.as_slice(),
                    search,
                    machine,
                )
            }
        },
    }
}

/// Expands a name of a macro with parameters, if brackets follow it.
#[tactic(auto, unfolding(crate::specs::Uses::called))]
#[cycle(uses)]
fn call(
    alloc: Global,
    macros: &Macros,
    kept: &[bool],
    depth: usize,
    source: &[Token],
    token: Token,
    names: &[u32],
    rest: Option<u32>,
    body: &[Token],
    machine: &mut Machine,
) -> Result<(), AllocError>
    ensures { OnOk result (machine.new ≡ spec.called depth (spec.again kept.now macros.now depth) source.now token names.now rest body.now
        machine.old) }
{
    if machine.after >= machine.quiet {
        return machine.write(plain(token));
    }
    let search = machine.look(alloc, source, commas_of(names, rest))?;
    call_by(
        alloc, macros, kept, depth, token, names, rest, body, &search, machine,
    )
}

/// Reads an item.
#[tactic(auto, using(crate::proofs::Uses::stepped_called))]
#[cycle(uses)]
fn step(
    alloc: Global,
    macros: &Macros,
    kept: &[bool],
    depth: usize,
    source: &[Token],
    item: Item,
    machine: &mut Machine,
) -> Result<(), AllocError>
    ensures { OnOk result (machine.new ≡ spec.stepped kept.now macros.now depth (spec.again kept.now macros.now depth) source.now item
        machine.old) }
{
    let word = match item {
        Item::End => {
            machine.end();
            return Ok(());
        }
        Item::Read(word) => word,
    };
    let token = word.token;
    match found(macros, kept, machine.names(), word) {
        Some(Macro::Plain(body)) => machine.open(alloc, token, body.as_slice()),
        Some(Macro::WithParameters(names, rest, body)) => call(
            alloc,
            macros,
            kept,
            depth,
            source,
            token,
            names.as_slice(),
            *rest,
            body.as_slice(),
            machine,
        ),
        Some(Macro::Undecided) => machine.leave_alone(NoteKind::Undecided, token),
        _ => machine.write(colored(machine.names(), word)),
    }
}

/// Reads all items, where arguments may be so many within each other.
#[tactic(auto, using(crate::proofs::Uses::read_turns, crate::proofs::Uses::turns_over, crate::proofs::Uses::turns_none, crate::proofs::Uses::turns_step))]
#[cycle(uses)]
fn read(
    alloc: Global,
    macros: &Macros,
    kept: &[bool],
    depth: usize,
    source: &[Token],
    machine: &mut Machine,
) -> Result<(), AllocError>
    ensures { OnOk result (machine.new ≡ spec.read kept.now macros.now depth source.now machine.old) }
{
    for _turn in 0..machine.size() {
        match machine.items.pop() {
            None => return Ok(()),
            Some(item) => step(alloc, macros, kept, depth, source, item, machine)?,
        }
    }
    Ok(())
}

/// Reads a use at a token of text, up to the last item.
#[tactic(auto, using(crate::proofs::Turns::read_ends))]
fn read_use(
    alloc: Global,
    kept: &[bool],
    state: &State,
    token: Token,
    source: &[Token],
    quiet: usize,
) -> Result<Machine, AllocError>
    ensures done { IfOk result (λ m. m ≡ spec.use_read kept.now token source.now quiet state.now) }
    ensures all { IfOk result (λ m. m.items ≡ []) }
{
    let mut machine = Machine::fresh(alloc, token, state.allowed(), source.len(), quiet)?;
    read(alloc, &state.macros, kept, MAX_DEPTH, source, &mut machine)?;
    Ok(machine)
}

/// Adds notes to those that were made. One at the place of the one before it, for the same reason, says nothing new.
fn note_all(state: &mut State, notes: &[Note]) -> Result<(), AllocError>
    ensures { OnOk result (state.new ≡ spec.noted_behind None notes.now state.old) }
{
    let mut before = None;
    for note in notes {
        if !is_told(*note, before) {
            state.tell(*note)?;
        }
        before = Some(*note);
    }
    Ok(())
}

/// Adds words to the tokens that were read.
fn push_all(state: &mut State, words: &[Word]) -> Result<(), AllocError>
    ensures { OnOk result (state.new ≡ spec.with_words words.now state.old) }
{
    for word in words {
        state.push(word.token)?;
    }
    Ok(())
}

/// Adds what a use was expanded to, takes what it added from the room, and adds its notes.
fn add_use(state: &mut State, machine: &Machine) -> Result<(), AllocError>
    ensures { OnOk result (state.new ≡ spec.used machine.now state.old) }
{
    let added = state.allowed().saturating_sub(machine.left);
    push_all(state, machine.written.as_slice())?;
    state.pay(added);
    note_all(state, machine.notes.as_slice())
}

/// How much of a text is still read.
#[derive(Clone, Copy)]
pub struct Place {
    /// How many tokens of the text are left: those before them were arguments.
    pub after: usize,
    /// Brackets are looked for where fewer tokens of the text are left.
    pub quiet: usize,
}

/// Expands a token of text, unless it was an argument.
fn read_token(
    alloc: Global,
    kept: &[bool],
    state: &mut State,
    token: Token,
    source: &[Token],
    place: Place,
) -> Result<Place, AllocError>
    ensures { IfOk result (λ next. (next, state.new) ≡ spec.token_read kept.now token source.now place state.old) }
{
    if source.len() >= place.after {
        return Ok(place);
    }
    if found(&state.macros, kept, &[], plain(token)).is_none() {
        state.push(token)?;
        return Ok(Place {
            after: source.len(),
            quiet: place.quiet,
        });
    }
    let machine = read_use(alloc, kept, state, token, source, place.quiet)?;
    add_use(state, &machine)?;
    Ok(Place {
        after: machine.after,
        quiet: machine.quiet,
    })
}

/// Expands text between directives.
pub fn expand_text(
    alloc: Global,
    kept: &[bool],
    state: &mut State,
    text: &[Token],
) -> Result<(), AllocError>
    ensures { OnOk result (state.new ≡ spec.text kept.now text.now state.old) }
{
    let mut place = Place {
        after: text.len(),
        quiet: text.len(),
    };
    let mut rest = text;
    while let [token, source @ ..] = rest {
        place = read_token(alloc, kept, state, *token, source, place)?;
        rest = source;
    }
    Ok(())
}
