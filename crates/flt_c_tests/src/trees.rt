//! The trees that bodies spell, of which clauses speak by a grammar alone.

use crate::cut::{classes, cut, number_of};
use flt_c_syntax::{Branch, Expression, Link, Operator, ReadError, Statement, read_body};
use sqlite_items::Items;
use std::alloc::{AllocError, Global};
use std::test::Fail;

fn body_of(alloc: Global, text: &str) -> Result<Option<Items<Statement>>, AllocError> {
    let known = classes(alloc)?;
    let tokens = cut(alloc, text)?;
    match read_body(alloc, &known, &tokens) {
        Ok(found) => Ok(Some(found)),
        Err(ReadError::OutOfMemory) => Err(AllocError),
        Err(ReadError::Syntax(_)) => Ok(None),
    }
}

fn is_name(expression: &Expression, word: &str) -> bool {
    match expression {
        Expression::Name(_, number) => *number == number_of(word),
        _ => false,
    }
}

fn is_number(expression: &Expression) -> bool {
    matches!(expression, Expression::Number(_, _))
}

/// `b * c`
fn is_product(expression: &Expression) -> bool {
    match expression {
        Expression::Linked(_, first, links) => match links.as_slice() {
            [Link::Operated(Operator::Product, second)] => {
                is_name(first.get(), "b") && is_name(second.get(), "c")
            }
            _ => false,
        },
        _ => false,
    }
}

/// `a + b * c - 1`
fn is_sum(expression: &Expression) -> bool {
    match expression {
        Expression::Linked(_, first, links) => match links.as_slice() {
            [
                Link::Operated(Operator::Sum, second),
                Link::Operated(Operator::Difference, third),
            ] => { is_name(first.get(), "a") && is_product(second.get()) && is_number(third.get()) }
            _ => false,
        },
        _ => false,
    }
}

/// `x = a + b * c - 1 ;` alone
fn is_assignment(statements: &[Statement]) -> bool {
    match statements {
        [Statement::Expression(_, whole)] => match whole.get() {
            Expression::Linked(_, first, links) => match links.as_slice() {
                [Link::Operated(Operator::Assign, second)] => {
                    is_name(first.get(), "x") && is_sum(second.get())
                }
                _ => false,
            },
            _ => false,
        },
        _ => false,
    }
}

/// An `if` of so many branches, with an `else` or without.
fn is_if(statement: &Statement, branches: usize, has_else: bool) -> bool {
    match statement {
        Statement::If(_, found, refused) => {
            found.len() == branches && refused.is_empty() != has_else
        }
        _ => false,
    }
}

/// An `if` without an `else` round one with an `else`.
fn is_dangling(statements: &[Statement]) -> bool {
    match statements {
        [Statement::If(_, branches, refused)] => match branches.as_slice() {
            [Branch::If(_, body)] => match body.as_slice() {
                [inner] => refused.is_empty() && is_if(inner, 1, true),
                _ => false,
            },
            _ => false,
        },
        _ => false,
    }
}

fn is_flat(statements: &[Statement]) -> bool {
    match statements {
        [statement] => is_if(statement, 3, true),
        _ => false,
    }
}

/// A group with two branches, of one statement and of two.
fn is_group(statements: &[Statement]) -> bool {
    match statements {
        [Statement::Group(_, branches)] => match branches.as_slice() {
            [Branch::Directive(_, first), Branch::Directive(_, second)] => {
                first.len() == 1 && second.len() == 2
            }
            _ => false,
        },
        _ => false,
    }
}

/// Operators bind by their levels, from the left; an `else` goes with the nearest `if`; `else if` is a branch.
#[test]
fn trees_are_those_of_c_within_memory(rt: HostRuntime) -> Result<(), Fail> {
    let alloc = rt.alloc();
    let found = body_of(alloc, "{ x = a + b * c - 1 ; }")?;
    assert!(rt; found.is_some_and(|body| is_assignment(body.as_slice())));
    let found = body_of(alloc, "{ if ( a ) if ( b ) ; else ; }")?;
    assert!(rt; found.is_some_and(|body| is_dangling(body.as_slice())));
    let found = body_of(
        alloc,
        "{ if ( a ) ; else if ( b ) ; else if ( c ) ; else ; }",
    )?;
    assert!(rt; found.is_some_and(|body| is_flat(body.as_slice())));
    let found = body_of(alloc, "{ #if a ; #else b ; c ; #endif }")?;
    assert!(rt; found.is_some_and(|body| is_group(body.as_slice())));
    Ok(())
}
