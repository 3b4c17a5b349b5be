//! Writes callbacks: their prototypes, what they declare, their bodies and their ends.

ghost use Rattle.flt_emit.specs.Callbacks as spec;
ghost use Rattle.flt_tree.specs.Measures.{is_small};
ghost use Rattle.flt_emit.specs.Scope.{scope_of};
ghost use Rattle.std.specs.List.{list_all};
ghost use Rattle.std.specs.Prelude.{◌≡◌, ◌+◌, ◌++◌, flat_map, IsTrue, OnOk};

use crate::actions::passing;
use crate::fixed_callbacks;
use crate::line::{Piece, text, texts, write};
use crate::names::{context_name, major_name, number_name, operation_word, removed_name};
use crate::scope::{Allocation, Scope};
use crate::statements::body;
use crate::uses::{Use, always_returns, is_used};
use flt_rules::LockKind;
use flt_tree::{
    Callback, ContextVariable, Head, Lock, NumberVariable, OperationVariable, RemovedVariable,
    Statement,
};
use std::alloc::AllocError;

const CONTEXTS: [ContextVariable; 8] = [
    ContextVariable::C0,
    ContextVariable::C1,
    ContextVariable::C2,
    ContextVariable::C3,
    ContextVariable::C4,
    ContextVariable::C5,
    ContextVariable::C6,
    ContextVariable::C7,
];

const REMOVED: [RemovedVariable; 4] = [
    RemovedVariable::O0,
    RemovedVariable::O1,
    RemovedVariable::O2,
    RemovedVariable::O3,
];

const NUMBERS: [NumberVariable; 8] = [
    NumberVariable::N0,
    NumberVariable::N1,
    NumberVariable::N2,
    NumberVariable::N3,
    NumberVariable::N4,
    NumberVariable::N5,
    NumberVariable::N6,
    NumberVariable::N7,
];

fn context_variables() -> &'static [ContextVariable]
    ensures { result.now ≡ spec.context_variables }
{
    &CONTEXTS
}

fn removed_variables() -> &'static [RemovedVariable]
    ensures { result.now ≡ spec.removed_variables }
{
    &REMOVED
}

fn number_variables() -> &'static [NumberVariable]
    ensures { result.now ≡ spec.number_variables }
{
    &NUMBERS
}

/// The prototype of a routine that has an operation.
#[tactic(auto, unfolding(crate::specs::Callbacks::deferred_prototype))]
fn deferred_prototype(out: &mut Vec<u8>, name: &[u8]) -> Result<(), AllocError>
    ensures { OnOk result (out.new.items ≡ out.old.items ++ spec.deferred_prototype name.now) }
{
    fixed_callbacks::deferred_head(out)?;
    text(out, name)?;
    fixed_callbacks::deferred_parameters(out)
}

/// How a callback is declared.
#[tactic(auto, unfolding(crate::specs::Callbacks::prototype))]
pub(crate) fn prototype(out: &mut Vec<u8>, head: &Head) -> Result<(), AllocError>
    ensures { OnOk result (out.new.items ≡ out.old.items ++ spec.prototype head.now) }
{
    match head {
        Head::Pre(operation) => {
            fixed_callbacks::pre_head(out)?;
            text(out, operation_word(*operation))?;
            fixed_callbacks::pre_parameters(out)
        }
        Head::Post(operation) => {
            fixed_callbacks::post_head(out)?;
            text(out, operation_word(*operation))?;
            fixed_callbacks::post_parameters(out)
        }
        Head::Canceled => fixed_callbacks::canceled_prototype(out),
        Head::DeferredPre(name) | Head::DeferredPost(name) => {
            deferred_prototype(out, name.as_slice())
        }
        Head::Generic(name) => {
            fixed_callbacks::generic_head(out)?;
            text(out, name.as_slice())?;
            fixed_callbacks::generic_parameters(out)
        }
    }
}

#[tactic(auto, unfolding(crate::specs::Callbacks::context_declaration))]
fn declare_context(
    out: &mut Vec<u8>,
    body: &[Statement],
    c: ContextVariable,
) -> Result<(), AllocError>
    ensures { OnOk result (out.new.items ≡ out.old.items ++ spec.context_declaration body.now c) }
{
    if is_used(Use::Context(c), body) {
        texts(
            out,
            &[b"    PFILTER_CONTEXT ", context_name(c), b" = NULL;\n"],
        )?;
    }
    Ok(())
}

#[tactic(auto, unfolding(crate::specs::Callbacks::operation_declaration))]
fn declare_operation(
    out: &mut Vec<u8>,
    body: &[Statement],
    o: RemovedVariable,
) -> Result<(), AllocError>
    ensures { OnOk result (out.new.items ≡ out.old.items ++ spec.operation_declaration body.now o) }
{
    if is_used(Use::Operation(OperationVariable::Removed(o)), body) {
        texts(
            out,
            &[b"    PFLT_CALLBACK_DATA ", removed_name(o), b" = NULL;\n"],
        )?;
    }
    Ok(())
}

/// The line that keeps compilers from warning of a variable that is set and never read.
#[tactic(auto, unfolding(crate::specs::Callbacks::unread))]
fn unread(out: &mut Vec<u8>, is_read: bool, n: NumberVariable) -> Result<(), AllocError>
    ensures { OnOk result (out.new.items ≡ out.old.items ++ spec.unread is_read n) }
{
    if is_read {
        return Ok(());
    }
    texts(
        out,
        &[b"    UNREFERENCED_PARAMETER( ", number_name(n), b" );\n"],
    )
}

#[tactic(auto, unfolding(crate::specs::Callbacks::declared_number))]
fn declared_number(out: &mut Vec<u8>, is_read: bool, n: NumberVariable) -> Result<(), AllocError>
    ensures { OnOk result (out.new.items ≡ out.old.items ++ spec.declared_number is_read n) }
{
    texts(out, &[b"    ULONG64 ", number_name(n), b" = 0;\n"])?;
    unread(out, is_read, n)
}

#[tactic(auto, unfolding(crate::specs::Callbacks::number_declaration))]
fn declare_number(
    out: &mut Vec<u8>,
    body: &[Statement],
    n: NumberVariable,
) -> Result<(), AllocError>
    ensures { OnOk result (out.new.items ≡ out.old.items ++ spec.number_declaration body.now n) }
{
    if is_used(Use::Number(n), body) {
        declared_number(out, is_used(Use::Read(n), body), n)?;
    }
    Ok(())
}

fn declare_contexts(
    out: &mut Vec<u8>,
    body: &[Statement],
    mut variables: &[ContextVariable],
) -> Result<(), AllocError>
    ensures { OnOk result (out.new.items ≡ out.old.items ++ flat_map (spec.context_declaration body.now) variables.entry.now) }
{
    while let [first, rest @ ..] = variables {
        declare_context(out, body, *first)?;
        variables = rest;
    }
    Ok(())
}

fn declare_operations(
    out: &mut Vec<u8>,
    body: &[Statement],
    mut variables: &[RemovedVariable],
) -> Result<(), AllocError>
    ensures { OnOk result (out.new.items ≡ out.old.items ++ flat_map (spec.operation_declaration body.now) variables.entry.now) }
{
    while let [first, rest @ ..] = variables {
        declare_operation(out, body, *first)?;
        variables = rest;
    }
    Ok(())
}

fn declare_numbers(
    out: &mut Vec<u8>,
    body: &[Statement],
    mut variables: &[NumberVariable],
) -> Result<(), AllocError>
    ensures { OnOk result (out.new.items ≡ out.old.items ++ flat_map (spec.number_declaration body.now) variables.entry.now) }
{
    while let [first, rest @ ..] = variables {
        declare_number(out, body, *first)?;
        variables = rest;
    }
    Ok(())
}

/// The context that a callback was given.
#[tactic(auto, unfolding(crate::specs::Callbacks::argument_declaration))]
fn declare_argument(out: &mut Vec<u8>, body: &[Statement], head: &Head) -> Result<(), AllocError>
    ensures { OnOk result (out.new.items ≡ out.old.items ++ spec.argument_declaration body.now head.now) }
{
    match head {
        Head::Pre(_) => declare_context(out, body, ContextVariable::Arg),
        Head::Post(_) => text(out, b"    PFILTER_CONTEXT arg = CompletionContext;\n"),
        Head::Canceled => text(out, b"    PFILTER_CONTEXT arg = Data->QueueContext[0];\n"),
        _ => text(out, b"    PFILTER_CONTEXT arg = Context;\n"),
    }
}

/// The instance, if the filter manager doesn't name it.
#[tactic(auto, unfolding(crate::specs::Callbacks::instance_declaration))]
fn instance_declaration(head: &Head) -> &'static [u8]
    ensures { result.now ≡ spec.instance_declaration head.now }
{
    match head {
        Head::Pre(_) | Head::Post(_) => b"",
        Head::Generic(_) => b"    PFLT_INSTANCE Instance = FltObject;\n",
        _ => b"    PFLT_INSTANCE Instance = Data->Iopb->TargetInstance;\n",
    }
}

fn is_spin(kind: LockKind) -> bool
    ensures { result ≡ spec.is_spin kind }
{
    match kind {
        LockKind::Spin => true,
        _ => false,
    }
}

/// Whether a body takes or releases the spin lock of a place.
fn needs_level(body: &[Statement], place: usize, kind: LockKind) -> bool
    ensures { result ≡ spec.needs_level body.now place kind }
{
    is_spin(kind) && is_used(Use::Lock(place), body)
}

/// The variable for the level before a spin lock.
#[tactic(auto, unfolding(crate::specs::Callbacks::declared_level))]
fn declared_level(out: &mut Vec<u8>, name: &[u8]) -> Result<(), AllocError>
    ensures { OnOk result (out.new.items ≡ out.old.items ++ spec.declared_level name.now) }
{
    texts(out, &[b"    KIRQL irql_", name, b";\n"])
}

/// The same if it is needed.
#[tactic(auto, unfolding(crate::specs::Callbacks::level_declaration))]
fn declare_level(
    out: &mut Vec<u8>,
    body: &[Statement],
    place: usize,
    lock: &Lock,
) -> Result<(), AllocError>
    ensures { OnOk result (out.new.items ≡ out.old.items ++ spec.level_declaration body.now place lock.now) }
{
    if needs_level(body, place, lock.kind) {
        declared_level(out, lock.name.as_slice())?;
    }
    Ok(())
}

/// The same for all locks.
fn declare_levels(out: &mut Vec<u8>, body: &[Statement], locks: &[Lock]) -> Result<(), AllocError>
    ensures { OnOk result (out.new.items ≡ out.old.items ++ spec.level_declarations body.now 0 locks.now) }
{
    for (place, lock) in locks.iter().enumerate() {
        declare_level(out, body, place, lock)?;
    }
    Ok(())
}

/// All that a callback declares.
#[tactic(auto, unfolding(crate::specs::Callbacks::declarations))]
fn declare(
    out: &mut Vec<u8>,
    locks: &[Lock],
    head: &Head,
    body: &[Statement],
) -> Result<(), AllocError>
    ensures { OnOk result (out.new.items ≡ out.old.items ++ spec.declarations locks.now head.now body.now) }
{
    declare_argument(out, body, head)?;
    declare_contexts(out, body, context_variables())?;
    declare_operations(out, body, removed_variables())?;
    declare_levels(out, body, locks)?;
    text(out, instance_declaration(head))?;
    declare_numbers(out, body, number_variables())
}

/// The writer's hook for a routine that has an operation of a stage.
fn deferred_hook(out: &mut Vec<u8>, stage: &[u8], name: &[u8]) -> Result<(), AllocError>
    ensures { OnOk result (out.new.items ≡ out.old.items ++ spec.deferred_hook stage.now name.now) }
{
    texts(
        out,
        &[
            b"    USER_DEFERRED_",
            stage,
            name,
            b"( Data, Instance, arg );\n",
        ],
    )
}

/// The writer's hook.
#[tactic(auto, unfolding(crate::specs::Callbacks::hook))]
pub(crate) fn hook(out: &mut Vec<u8>, head: &Head) -> Result<(), AllocError>
    ensures { OnOk result (out.new.items ≡ out.old.items ++ spec.hook head.now) }
{
    match head {
        Head::Pre(operation) => texts(
            out,
            &[
                b"    *CompletionContext = NULL;\n\n    USER_PRE_",
                major_name(*operation),
                b"( Data, FltObjects );\n",
            ],
        ),
        Head::Post(operation) => texts(
            out,
            &[
                b"    USER_POST_",
                major_name(*operation),
                b"( Data, FltObjects, Flags, arg );\n",
            ],
        ),
        Head::Canceled => fixed_callbacks::canceled_hook(out),
        Head::DeferredPre(name) => deferred_hook(out, b"PRE_", name.as_slice()),
        Head::DeferredPost(name) => deferred_hook(out, b"POST_", name.as_slice()),
        Head::Generic(name) => texts(
            out,
            &[
                b"    USER_GENERIC_",
                name.as_slice(),
                b"( Instance, arg );\n",
            ],
        ),
    }
}

/// The end of a pre or a post callback.
#[tactic(auto, unfolding(crate::specs::Callbacks::unreturned))]
fn unreturned(out: &mut Vec<u8>, returns: bool, is_pre: bool) -> Result<(), AllocError>
    ensures { OnOk result (out.new.items ≡ out.old.items ++ spec.unreturned returns is_pre) }
{
    if returns {
        return Ok(());
    }
    fixed_callbacks::unreached(out)?;
    texts(out, &[passing(is_pre), b"\n"])
}

/// The lines before the end of a routine.
fn done(is_left: bool) -> &'static [u8]
    ensures { result.now ≡ spec.done is_left }
{
    if is_left { b"\nDone:\n\n" } else { b"\n" }
}

/// The end of a callback.
#[tactic(auto, unfolding(crate::specs::Callbacks::ending))]
fn ending(out: &mut Vec<u8>, body: &[Statement], head: &Head) -> Result<(), AllocError>
    ensures { OnOk result (out.new.items ≡ out.old.items ++ spec.ending body.now head.now) }
{
    match head {
        Head::Pre(_) => unreturned(out, always_returns(body), true),
        Head::Post(_) => unreturned(out, always_returns(body), false),
        Head::Canceled => Ok(()),
        Head::DeferredPre(_) | Head::DeferredPost(_) => {
            text(out, done(is_used(Use::Return, body)))?;
            fixed_callbacks::free_deferred(out)
        }
        Head::Generic(_) => {
            text(out, done(is_used(Use::Return, body)))?;
            fixed_callbacks::free_generic(out)
        }
    }
}

/// A comment with a callback's number and its line.
#[tactic(auto, unfolding(crate::specs::Callbacks::heading))]
fn heading(out: &mut Vec<u8>, callback: usize, line: usize) -> Result<(), AllocError>
    ensures { OnOk result (out.new.items ≡ out.old.items ++ spec.heading callback line) }
{
    write(
        out,
        &[
            Piece::Text(b"\n//\n//  Callback "),
            Piece::Number(callback as u64),
            Piece::Text(b", line "),
            Piece::Number(line as u64),
            Piece::Text(b".\n//\n\n"),
        ],
    )
}

/// A callback up to its hook.
#[tactic(auto, unfolding(crate::specs::Callbacks::opening))]
fn opening(out: &mut Vec<u8>, scope: &Scope<'_>, found: &Callback) -> Result<(), AllocError>
    ensures { OnOk result (out.new.items ≡ out.old.items ++ spec.opening (scope_of scope.now) found.now) }
{
    heading(out, scope.callback, found.span.line)?;
    prototype(out, &found.head)?;
    text(out, b"\n{\n")?;
    declare(out, scope.locks, &found.head, found.body.as_slice())?;
    text(out, b"\n")
}

/// A callback from its hook on.
#[tactic(auto, unfolding(crate::specs::Callbacks::contents))]
fn contents(out: &mut Vec<u8>, scope: &Scope<'_>, found: &Callback) -> Result<(), AllocError>
    requires { IsTrue (is_small found.now) }
    ensures { OnOk result (out.new.items ≡ out.old.items ++ spec.contents (scope_of scope.now) found.now) }
{
    let statements = found.body.as_slice();
    hook(out, &found.head)?;
    text(out, b"\n")?;
    body(out, scope, 1, 0, statements)?;
    ending(out, statements, &found.head)?;
    text(out, b"}\n")
}

#[tactic(auto, unfolding(crate::specs::Callbacks::callback_text))]
fn callback(out: &mut Vec<u8>, scope: &Scope<'_>, found: &Callback) -> Result<(), AllocError>
    requires { IsTrue (is_small found.now) }
    ensures { OnOk result (out.new.items ≡ out.old.items ++ spec.callback_text (scope_of scope.now) found.now) }
{
    opening(out, scope, found)?;
    contents(out, scope, found)
}

/// All callbacks of a filter.
pub(crate) fn callbacks(
    out: &mut Vec<u8>,
    locks: &[Lock],
    instances: &[Allocation],
    found: &[Callback],
) -> Result<(), AllocError>
    requires { IsTrue (list_all is_small found.now) }
    ensures { OnOk result (out.new.items ≡ out.old.items ++ spec.callbacks_text locks.now instances.now 0 found.now) }
{
    for (number, next) in found.iter().enumerate() {
        let scope = Scope {
            callback: number,
            place: next.head.place(),
            locks,
            instances,
        };
        callback(out, &scope, next)?;
    }
    Ok(())
}

/// The prototypes of callbacks.
pub(crate) fn prototypes(out: &mut Vec<u8>, mut found: &[Callback]) -> Result<(), AllocError>
    ensures { OnOk result (out.new.items ≡ out.old.items ++ spec.prototypes_text found.entry.now) }
{
    while let [first, rest @ ..] = found {
        text(out, b"\n")?;
        prototype(out, &first.head)?;
        text(out, b";\n")?;
        found = rest;
    }
    Ok(())
}
