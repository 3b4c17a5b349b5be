//! Writes C's expressions for atoms, tests and calls that can fail.

ghost use Rattle.flt_emit.specs.Expressions as spec;
ghost use Rattle.flt_emit.specs.Scope.{scope_of};
ghost use Rattle.std.specs.Prelude.{◌≡◌, ◌++◌, not, OnOk};

use crate::line::{Piece, text, texts, write};
use crate::names::{
    anchor_name, context_name, context_or_null, existing_name, instance, number_name, own_file,
    removed_name,
};
use crate::scope::Scope;
use flt_rules::{Anchor, Place};
use flt_tree::{
    Atom, Condition, ContextVariable, Expression, FallibleCall, NumberVariable, OperationVariable,
    RemovedVariable, Routine, Test,
};
use std::alloc::AllocError;

/// The value to which a variable of numbers is set, up to the label at the end of its line.
pub(crate) fn expression(out: &mut Vec<u8>, expression: Expression) -> Result<(), AllocError>
    ensures { OnOk result (out.new.items ≡ out.old.items ++ spec.expression_text expression) }
{
    match expression {
        Expression::Atom(x) => write(out, &[Piece::Atom(x)]),
        Expression::Sum(x, y) => write(out, &[Piece::Atom(x), Piece::Text(b" + "), Piece::Atom(y)]),
        Expression::Difference(x, y) => write(
            out,
            &[Piece::Atom(x), Piece::Text(b" - "), Piece::Atom(y)],
        ),
    }
}

/// The file object of an operation.
pub(crate) fn file(place: Place, d: OperationVariable) -> &'static [u8]
    ensures { result.now ≡ spec.file_text place d }
{
    match d {
        OperationVariable::Data => own_file(place),
        OperationVariable::Removed(RemovedVariable::O0) => b"o0->Iopb->TargetFileObject",
        OperationVariable::Removed(RemovedVariable::O1) => b"o1->Iopb->TargetFileObject",
        OperationVariable::Removed(RemovedVariable::O2) => b"o2->Iopb->TargetFileObject",
        OperationVariable::Removed(RemovedVariable::O3) => b"o3->Iopb->TargetFileObject",
    }
}

pub(crate) fn is_variable(n: NumberVariable, atom: Atom) -> bool
    ensures { result ≡ spec.is_variable n atom }
{
    match atom {
        Atom::Number(_) => false,
        Atom::Variable(m) => n.place() == m.place(),
    }
}

pub(crate) fn is_zero(atom: Atom) -> bool
    ensures { result ≡ spec.is_zero atom }
{
    match atom {
        Atom::Number(m) => m == 0,
        Atom::Variable(_) => false,
    }
}

fn constant(value: bool) -> &'static [u8]
    ensures { result.now ≡ spec.constant value }
{
    if value { b"TRUE" } else { b"FALSE" }
}

/// A comparison, after its value if that is known.
fn compared(
    out: &mut Vec<u8>,
    is_known: bool,
    value: bool,
    n: NumberVariable,
    sign: &'static [u8],
    x: Atom,
) -> Result<(), AllocError>
    ensures { OnOk result (out.new.items ≡ out.old.items ++ spec.compared is_known value n sign.now x) }
{
    if is_known {
        write(
            out,
            &[
                Piece::Text(constant(value)),
                Piece::Text(b" /* "),
                Piece::Text(number_name(n)),
                Piece::Text(sign),
                Piece::Atom(x),
                Piece::Text(b" */"),
            ],
        )
    } else {
        write(
            out,
            &[
                Piece::Text(number_name(n)),
                Piece::Text(sign),
                Piece::Atom(x),
            ],
        )
    }
}

fn null_sign(turned: bool) -> &'static [u8]
    ensures { result.now ≡ spec.null_sign turned }
{
    if turned { b" == NULL" } else { b" != NULL" }
}

fn equal_sign(turned: bool) -> &'static [u8]
    ensures { result.now ≡ spec.equal_sign turned }
{
    if turned { b" != " } else { b" == " }
}

fn less_sign(turned: bool) -> &'static [u8]
    ensures { result.now ≡ spec.less_sign turned }
{
    if turned { b" >= " } else { b" < " }
}

fn negation(turned: bool) -> &'static [u8]
    ensures { result.now ≡ spec.negation turned }
{
    if turned { b"!" } else { b"" }
}

/// A test that calls nothing, or its opposite.
fn test(out: &mut Vec<u8>, turned: bool, test: Test) -> Result<(), AllocError>
    ensures { OnOk result (out.new.items ≡ out.old.items ++ spec.test_text turned test) }
{
    match test {
        Test::ContextIsSome(c) => { texts(out, &[context_name(c), null_sign(turned)]) }
        Test::OperationIsSome(o) => { texts(out, &[removed_name(o), null_sign(turned)]) }
        Test::Equal(n, x) => {
            let is_known = is_variable(n, x);
            compared(out, is_known, !turned, n, equal_sign(turned), x)
        }
        Test::Less(n, x) => {
            let is_known = is_variable(n, x) || is_zero(x);
            compared(out, is_known, turned, n, less_sign(turned), x)
        }
        Test::IsIrp => { texts(out, &[negation(turned), b"FLT_IS_IRP_OPERATION( Data )"]) }
        Test::IsDraining => texts(
            out,
            &[
                negation(turned),
                b"FlagOn( Flags, FLTFL_POST_OPERATION_DRAINING )",
            ],
        ),
    }
}

/// The first arguments of a call about the context of a stream or of an instance.
fn anchored(place: Place, anchor: Anchor) -> &'static [u8]
    ensures { result.now ≡ spec.anchored place anchor }
{
    match (place, anchor) {
        (Place::Pre(_) | Place::Post(_), Anchor::Stream) => {
            b"FltObjects->Instance, FltObjects->FileObject"
        }
        (_, Anchor::Stream) => b"Instance, Data->Iopb->TargetFileObject",
        (_, Anchor::Instance) => instance(place),
    }
}

/// The sign before a variable in which a call leaves a context.
fn address(context: Option<ContextVariable>) -> &'static [u8]
    ensures { result.now ≡ spec.address context }
{
    match context {
        None => b"",
        Some(_) => b"&",
    }
}

/// For whom a context is allocated.
fn context_type(for_instance: bool) -> &'static [u8]
    ensures { result.now ≡ spec.context_type for_instance }
{
    if for_instance {
        b"FLT_INSTANCE_CONTEXT"
    } else {
        b"FLT_STREAM_CONTEXT"
    }
}

/// The call that queues a work item with the callback's operation.
fn deferred(
    out: &mut Vec<u8>,
    routine: &[u8],
    context: Option<ContextVariable>,
) -> Result<(), AllocError>
    ensures { OnOk result (out.new.items ≡ out.old.items ++ spec.deferred routine.now context) }
{
    texts(out, &[b"QueueDeferredIo( Data, Deferred_", routine, b", "])?;
    text(out, context_or_null(context))
}

/// The call that queues a work item without one.
fn generic(
    out: &mut Vec<u8>,
    place: Place,
    routine: &[u8],
    context: Option<ContextVariable>,
) -> Result<(), AllocError>
    ensures { OnOk result (out.new.items ≡ out.old.items ++ spec.generic place routine.now context) }
{
    texts(out, &[b"QueueGeneric( ", instance(place)])?;
    texts(out, &[b", Generic_", routine, b", "])?;
    text(out, context_or_null(context))
}

/// A call that can fail, up to its closing bracket.
fn fallible_call(
    out: &mut Vec<u8>,
    scope: &Scope<'_>,
    point: usize,
    call: &FallibleCall<Routine>,
) -> Result<(), AllocError>
    ensures { OnOk result (out.new.items ≡ out.old.items ++ spec.fallible_text (scope_of scope.now) point call.now) }
{
    match call {
        FallibleCall::AllocateContext(c) => texts(
            out,
            &[
                b"AllocateContext( ",
                context_type(scope.allocates_for_instance(point)),
                b", &",
                context_name(*c),
            ],
        ),
        FallibleCall::GetContext(anchor, c) => texts(
            out,
            &[
                b"Get",
                anchor_name(*anchor),
                anchored(scope.place, *anchor),
                b", &",
                context_name(*c),
            ],
        ),
        FallibleCall::SetContext(anchor, existing, c, old) => texts(
            out,
            &[
                b"Set",
                anchor_name(*anchor),
                anchored(scope.place, *anchor),
                b", ",
                existing_name(*existing),
                b", ",
                context_name(*c),
                b", ",
                address(*old),
                context_or_null(*old),
            ],
        ),
        FallibleCall::DeleteContextOf(anchor, old) => texts(
            out,
            &[
                b"Delete",
                anchor_name(*anchor),
                anchored(scope.place, *anchor),
                b", ",
                address(*old),
                context_or_null(*old),
            ],
        ),
        FallibleCall::InsertIo(context) => texts(
            out,
            &[b"InsertIo( Data, ", context_or_null(*context)],
        ),
        FallibleCall::RemoveNextIo(o, c) => texts(
            out,
            &[
                b"RemoveNextIo( &",
                removed_name(*o),
                b", &",
                context_name(*c),
            ],
        ),
        FallibleCall::QueueDeferredIoWorkItem(routine, context) => {
            deferred(out, routine.name.as_slice(), *context)
        }
        FallibleCall::QueueGenericWorkItem(routine, context) => {
            generic(out, scope.place, routine.name.as_slice(), *context)
        }
    }
}

/// The condition of an `if`, or its opposite.
pub(crate) fn condition(
    out: &mut Vec<u8>,
    scope: &Scope<'_>,
    point: usize,
    turned: bool,
    asked: &Condition,
) -> Result<(), AllocError>
    ensures { OnOk result (out.new.items ≡ out.old.items ++ spec.condition_text (scope_of scope.now) point turned asked.now) }
{
    match asked {
        Condition::Test(found) => test(out, turned, *found),
        Condition::Succeeds(call) => {
            texts(out, &[negation(turned), b"NT_SUCCESS( "])?;
            fallible_call(out, scope, point, call)?;
            text(out, b" ) )")
        }
    }
}
