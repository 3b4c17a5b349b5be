//! Listings of C files; examples/cases/functions.cases has more of them.

use flt_c_functions::{Listing, Options, functions};
use flt_c_headers::HeaderFiles;
use flt_c_syntax::Reason;
use flt_c_tokens::Excess;
use std::alloc::{AllocError, Global};
use std::test::Fail;

/// Files by their names.
#[derive(Drop)]
struct Table<'a> {
    files: &'a [(&'a str, &'a [u8])],
}

impl HeaderFiles for Table<'_> {
    ghost gives = { λ table name found. Unit {0} };

    fn read(&self, alloc: Global, name: &str) -> Result<Option<Vec<u8>>, AllocError> {
        for (own, bytes) in self.files {
            if *own == name {
                return Ok(Some(Vec::from_slice(alloc, bytes)?));
            }
        }
        Ok(None)
    }
}

static NAMES: [&str; 2] = ["a.cc", "b.cc"];

/// A header with a function, and one of its own.
static HEADERS: [(&str, &[u8]); 2] = [
    ("inc/h.h", b"#include \"i.h\"\nvoid h(void) { N }"),
    ("inc/i.h", b"#define N return;"),
];

/// Files with a type of the other one, a header, conditions that options decide, a name of which nothing is known, a table, and unread places.
static TEXTS: [&str; 2] = [
    "#if D\nvoid f(void) { a = (t) b; }\n#else\n}\n#endif\n#ifdef U\n}\n#endif\n#if X\n#define M x\n#endif\nFLT_OPERATION_REGISTRATION T[] = { { D, M } };\n#else\n",
    "typedef int t;\n}\nvoid g(void) { a = ; }\n#include <h.h>",
];

const LISTING: &str =
    "a.cc:12:41: not expanded: M: an #if decides what a macro is\na.cc:13:1: not read: no #if is open here\na.cc:2:6: function f: read\na.cc:12:28: table T: operations\n  { D, M }\nb.cc:2:1: not read: this brace closes nothing\nb.cc:3:6: function g: stops at line 3, column 20: another token is expected\ninc/h.h:2:6: function h: read\n";

/// The listing of files after `#define D 1` and `#undef U`.
fn listing_of(alloc: Global, texts: &[&str]) -> Result<Option<Listing>, AllocError> {
    let mut files = Vec::new(alloc);
    for text in texts {
        let file = Vec::from_slice(alloc, text.as_bytes())?;
        files.push(file)?;
    }
    let options = Options {
        defined: &["D", "U=2"],
        undefined: &["U"],
        folders: &["inc"],
    };
    let headers = Table { files: &HEADERS };
    match functions(alloc, &headers, options, &NAMES, files.as_slice())? {
        Ok(listing) => Ok(Some(listing)),
        Err(_) => Ok(None),
    }
}

/// Whether the files have this listing, which isn't whole.
fn is_listed(found: &Option<Listing>) -> bool {
    match found {
        Some(listing) => listing.text.as_slice() == LISTING.as_bytes() && !listing.is_whole,
        None => false,
    }
}

/// `tools/refuse-allocations.sh tests flt_c_tests memory` refuses each request for memory in turn.
#[test]
fn files_have_their_listing_within_memory(rt: HostRuntime) -> Result<(), Fail> {
    let found = listing_of(rt.alloc(), &TEXTS)?;
    assert!(rt; is_listed(&found));
    Ok(())
}

/// Functions at whose bodies reading stops, and why.
static STOPPED: [(&str, Reason); 8] = [
    ("void f(void) { a = ; }", Reason::Unexpected),
    ("void f(void) { __asm { } }", Reason::Assembler),
    ("void f(void) { a = new T; }", Reason::CPlusPlus),
    (
        "void f(void) { a = ({ 1; }); }",
        Reason::StatementExpression,
    ),
    ("void f(void) { a = [](){}; }", Reason::Lambda),
    ("void f(void) { a = @; }", Reason::Stray),
    ("void f(void) { a = ';\n}", Reason::Unclosed),
    ("void f(void) { a\\\nb; }", Reason::Joined),
];

/// Whether the listing of a text ends with a reason, as that is displayed.
fn ends_with(alloc: Global, text: &str, reason: Reason) -> Result<bool, AllocError> {
    let end = format!(in alloc; ": {reason}\n")?;
    match listing_of(alloc, &[text])? {
        Some(found) => Ok(found.text.as_slice().ends_with(end.as_bytes())),
        None => Ok(false),
    }
}

/// The first row at which reading stops for another reason.
fn wrong_reason(alloc: Global, rows: &[(&str, Reason)]) -> Result<Option<usize>, AllocError> {
    for (row, (text, reason)) in rows.iter().enumerate() {
        if !ends_with(alloc, text, *reason)? {
            return Ok(Some(row));
        }
    }
    Ok(None)
}

/// A function whose body has a text so many times.
fn repeated(alloc: Global, text: &str, times: usize) -> Result<String, AllocError> {
    let mut found = String::new(alloc);
    found.push_str("void f(void) { ")?;
    for _ in 0..times {
        found.push_str(text)?;
    }
    found.push_str(" }")?;
    Ok(found)
}

/// A body that nests too deep is `{` as often as it is `}`; one that is too long has more tokens than 65,536.
#[test]
fn reasons_are_those_that_are_displayed(rt: HostRuntime) -> Result<(), Fail> {
    let alloc = rt.alloc();
    assert!(rt; wrong_reason(alloc, &STOPPED)?.is_none());
    let long = repeated(alloc, ";", 65_536)?;
    assert!(rt; ends_with(alloc, long.as_str(), Reason::TooLong)?);
    let mut deep = repeated(alloc, "{", 128)?;
    for _ in 0..128 {
        deep.push_str("}")?;
    }
    assert!(rt; ends_with(alloc, deep.as_str(), Reason::TooDeep)?);
    Ok(())
}

static BLANKS: [u8; 65536] = [b' '; 65536];

/// More bytes than a file may have.
fn large_file(alloc: Global) -> Result<Vec<u8>, AllocError> {
    let mut found = Vec::new(alloc);
    for _ in 0..257 {
        found.extend_from_slice(&BLANKS)?;
    }
    Ok(found)
}

#[test]
fn a_large_file_is_refused_by_its_number(rt: HostRuntime) -> Result<(), Fail> {
    let alloc = rt.alloc();
    let mut files = Vec::new(alloc);
    let small = Vec::from_slice(alloc, b"void f(void) { }")?;
    files.push(small)?;
    let large = large_file(alloc)?;
    files.push(large)?;
    let options = Options {
        defined: &[],
        undefined: &[],
        folders: &[],
    };
    let headers = Table { files: &[] };
    let found = functions(alloc, &headers, options, &NAMES, files.as_slice())?;
    assert!(rt; matches!(found, Err((1, Excess::LargeFile))));
    Ok(())
}
