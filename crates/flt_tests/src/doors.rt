//! Bytes let out at the door, in place and to a writer: whole characters, controls, the colours of the program and bytes that look like one.

use flt_door::{let_out, put_let_out};
use flt_model::Writing;
use std::alloc::{AllocError, Global};
use std::test::Fail;

/// Bytes, and what goes out of them.
#[derive(Drop)]
struct Passage {
    given: &'static [u8],
    out: &'static [u8],
}

static PASSAGES: [Passage; 16] = [
    Passage {
        given: b"",
        out: b"",
    },
    Passage {
        given: b"pre read {\n}\n",
        out: b"pre read {\n}\n",
    },
    // Characters of two, three and four bytes.
    Passage {
        given: b"\xc3\xa9 \xe2\x82\xac \xf0\x90\x8d\x88",
        out: b"\xc3\xa9 \xe2\x82\xac \xf0\x90\x8d\x88",
    },
    // The colours, bold type, and their end.
    Passage {
        given: b"\x1b[1;31ma\x1b[0m\x1b[1;33mb\x1b[1;34mc\x1b[1md",
        out: b"\x1b[1;31ma\x1b[0m\x1b[1;33mb\x1b[1;34mc\x1b[1md",
    },
    // Other signs to a terminal: to clear it, another colour, a colour that is cut, and one without its head.
    Passage {
        given: b"\x1b[2J",
        out: b"?[2J",
    },
    Passage {
        given: b"\x1b[1;32m",
        out: b"?[1;32m",
    },
    Passage {
        given: b"\x1b[1;31",
        out: b"?[1;31",
    },
    Passage {
        given: b"\x9b1m",
        out: b"?1m",
    },
    // A tab, a bell, and a carriage return.
    Passage {
        given: b"a\tb\x07\r\n",
        out: b"a b??\n",
    },
    // What turns the direction of text (U+202E), a control of two bytes (U+0085), and what ends a line (U+2028).
    Passage {
        given: b"\xe2\x80\xae",
        out: b"???",
    },
    Passage {
        given: b"\xc2\x85a",
        out: b"??a",
    },
    Passage {
        given: b"\xe2\x80\xa8\n",
        out: b"???\n",
    },
    // No characters: a byte that begins none, characters that end too early, and one within a line.
    Passage {
        given: b"\xff\xc3",
        out: b"??",
    },
    Passage {
        given: b"\xe2\x82",
        out: b"??",
    },
    Passage {
        given: b"\xe2\x82\n\xac",
        out: b"??\n?",
    },
    Passage {
        given: b"a\xf0\x90\x8d",
        out: b"a???",
    },
];

/// Whether bytes go out so, in place and to a writer.
fn goes_out_so(alloc: Global, passage: &Passage) -> Result<bool, AllocError> {
    let mut bytes = Vec::new(alloc);
    bytes.extend_from_slice(passage.given)?;
    let_out(bytes.as_mut_slice());
    let mut out = Writing::new(Vec::new(alloc));
    if put_let_out(&mut out, passage.given).is_err() {
        return Err(AllocError);
    }
    Ok(bytes.as_slice() == passage.out && out.into_inner().as_slice() == passage.out)
}

/// The first passage that is wrong, or their number if all are right.
fn first_wrong(alloc: Global) -> Result<usize, AllocError> {
    for (place, passage) in PASSAGES.iter().enumerate() {
        if !goes_out_so(alloc, passage)? {
            return Ok(place);
        }
    }
    Ok(PASSAGES.len())
}

#[test]
fn bytes_go_out_at_the_door(rt: HostRuntime) -> Result<(), Fail> {
    assert!(rt; first_wrong(rt.alloc())? == 16);
    Ok(())
}
