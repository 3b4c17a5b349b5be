//! The pages of the faults of a text, from docs/LANGUAGE.md. `tools/write-pages` writes this file.

pub(crate) const E01: &str = "E01: a byte that begins no token

At this byte no token begins: no word, no number, and no symbol of the language.

    filter a altitude 100
    pre read {
      if n0 > 1 {
      }
      return NO_CALLBACK
    }

  = syntax 3:9 E01

  Cause                                                                               Reported at
  ----------------------------------------------------------------------------------  -----------
  a byte that begins no token, such as `;` or each byte of a letter that isn't ASCII  the byte
  a `!` with no `=` right after it                                                    the `!`

  Text                                                      Answer
  --------------------------------------------------------  -----------------
  `filter a altitude 100 pre read { return $ }`             `syntax 1:41 E01`
  `filter a altitude 100 pre read { if c0 ! = NULL { } }`   `syntax 1:40 E01`
  `filter a altitude 100 pre read { return NO_CALLBACK; }`  `syntax 1:52 E01`
";

pub(crate) const E02: &str = "E02: no word and no number

A run of letters, digits and underscores is neither a word nor a number. A word has at most 64 bytes and begins with no digit; a number is
decimal, less than 2^64, and has no leading zero.

    filter a altitude 100
    pre read {
      n0 = 0x1
      return NO_CALLBACK
    }

  = syntax 3:8 E02

  Cause                                                          Reported at
  -------------------------------------------------------------  --------------
  a run that begins with a digit and isn't decimal digits alone  its first byte
  a number with a leading zero                                   the same
  a number of 2^64 or more                                       the same
  a word of more than 64 bytes                                   the same

  Text                                                            Answer
  --------------------------------------------------------------  -----------------
  `filter a altitude 007`                                         `syntax 1:19 E02`
  `filter a altitude 100 pre read { n0 = 12ab }`                  `syntax 1:39 E02`
  `filter a altitude 100 pre read { n0 = 18446744073709551616 }`  `syntax 1:39 E02`

A word of 65 bytes is E02, even where any word would be a fault.
";

pub(crate) const E03: &str = "E03: an unexpected token

The grammar allows other words, names, numbers or symbols there, or the text ends where more must follow.

    filter a altitude 100
    pre read {
      n0 = foo
    }

  = syntax 3:8 E03

  Cause                                                            Reported at
  ---------------------------------------------------------------  ------------------------------
  another word or symbol than the grammar allows there             the token
  a word or a symbol where only a NUMBER may appear                the token
  a number or a symbol where only a NAME or a variable may appear  the token
  the end of the text where more must follow                       one column after the last byte

  Text    (the empty text)
  Answer  `syntax 1:1 E03`
  Why     `filter` is missing

  Text    `filter a altitude 100` and LF
  Answer  `syntax 1:23 E03`
  Why     no callback; the LF is the 22nd byte of the line

  Text    `filter a altitude 100 pre read { if n0 === 1 { } }`
  Answer  `syntax 1:42 E03`
  Why     `==`, then `=`

  Text    `filter a altitude 100 pre read { data = NULL }`
  Answer  `syntax 1:34 E03`
  Why     `data` can't be set

  Text    `filter a altitude 100 pre read { if irp o0 { } }`
  Answer  `syntax 1:41 E03`
  Why     only `data` may follow

  Text    `filter a altitude 100 pre read { return FOO }`
  Answer  `syntax 1:41 E03`
  Why     no status, and no statement

  Text    `filter a altitude 100 pre read { return FLT_PREOP_PENDING }`
  Answer  `syntax 1:41 E03`
  Why     statuses are written without their prefix

  Text    `filter a altitude 100 pre read { if c0 == NULL { } }`
  Answer  `syntax 1:40 E03`
  Why     only `!=` may follow

  Text    `filter a altitude 100 pre read { value c0 = n0 + 1 }`
  Answer  `syntax 1:48 E03`
  Why     one atom, no sum

  Text    `filter a altitude 100 pre read { FltReleaseContext 1 }`
  Answer  `syntax 1:52 E03`
  Why     a number is no name

  Text    `filter a altitude 100 queue lock spin s`
  Answer  `syntax 1:29 E03`
  Why     locks come before `queue`

  Text    `filter a altitude 100 queue pre read { FltCbdqInsertIo data } canceled { }`
  Answer  `syntax 1:40 E03`
  Why     `if` is missing
";

pub(crate) const E04: &str = "E04: an unknown name

A word appears where only a variable, or something that the text declares, may appear, and it names none.

    filter a altitude 100
    pre read {
      FltReleaseContext c9
      return NO_CALLBACK
    }

  = syntax 3:21 E04

E04 is reported only where nothing but a name of one kind may appear. Where something else could appear, the fault is E03.

  Unknown      a word where only a context variable may appear: in a call, and after `value`, `old` or `context`
  Reported at  the word

  Unknown      a word where only an operation may appear: in a call, and after `file`
  Reported at  the word

  Unknown      a word where only a number or a number variable may appear: after `+`, `-`, `<` or `==`, and after `value C =`
  Reported at  the word

  Unknown      a lock that isn't declared, or isn't of the call's kind
  Reported at  the name

  Unknown      `FltCbdqInsertIo` or `FltCbdqRemoveNextIo` after `if`, in a text without `queue`
  Reported at  the word

  Unknown      a routine that the text doesn't declare, or not of the kind that the call takes
  Reported at  the name, when the whole text has been read

  Text    `filter a altitude 100 pre read { n0 = 1 + foo }`
  Answer  `syntax 1:43 E04`
  Why     only a number or a number variable may follow

  Text    `filter a altitude 100 pre read { if n0 == c0 { } }`
  Answer  `syntax 1:43 E04`
  Why     the same

  Text    `filter a altitude 100 pre read { n0 = file c0 }`
  Answer  `syntax 1:44 E04`
  Why     `c0` is no operation

  Text    `filter a altitude 100 lock fast s pre read { KeAcquireSpinLock s }`
  Answer  `syntax 1:64 E04`
  Why     `s` is of another kind

  Text    `filter a altitude 100 lock spin s pre read { FltAcquirePushLockShared s }`
  Answer  `syntax 1:71 E04`
  Why     the same: only push locks are shared

  Text    `filter a altitude 100 pre read { if FltCbdqInsertIo data { } }`
  Answer  `syntax 1:37 E04`
  Why     no `queue`: the call is unknown

  Text    `filter a altitude 100 pre read { if FltQueueGenericWorkItem w { } }`
  Answer  `syntax 1:61 E04`
  Why     no routine `w`

  Text    `filter a altitude 1 pre read { if FltQueueDeferredIoWorkItem data w { } } deferred_post w { }`
  Answer  `syntax 1:67 E04`
  Why     not for `pre`
";

pub(crate) const E05: &str = "E05: declared twice

The text declares a lock, a routine or another callback a second time.

    filter a altitude 100
    lock spin s
    lock push s
    pre read {
      return NO_CALLBACK
    }

  = syntax 3:11 E05

  Declared twice                                       Reported at
  ---------------------------------------------------  -------------------------------------------------------------
  the name of a lock, of whatever kind                 the second name
  the name of a routine, of whatever kind              the second name
  a `pre` or a `post` of one operation, or `canceled`  the second callback's first word, when its head has been read

  Text                                                      Answer
  --------------------------------------------------------  -----------------
  `filter a altitude 100 pre read { } pre read { }`         `syntax 1:36 E05`
  `filter a altitude 100 generic w { } deferred_pre w { }`  `syntax 1:50 E05`
";

pub(crate) const E06: &str = "E06: a limit is exceeded

The text has more of something than the language allows, or a number that is out of its range.

    filter a altitude 100
    pre read {
      repeat 1001 {
      }
      return NO_CALLBACK
    }

  = syntax 3:10 E06

  Limit        bytes of the text
  Reported at  1:1, before everything else

  Limit        altitude, which is at least 1 and at most 4294967295
  Reported at  the number

  Limit        turns of a `repeat`
  Reported at  the number

  Limit        ninth lock
  Reported at  its name (E05 if the name is already used)

  Limit        seventeenth callback
  Reported at  its first word (E05 if that `pre`, `post` or `canceled` is already there)

  Limit        33rd nested block
  Reported at  its `{`

  Limit        fifth nested `repeat`
  Reported at  the word `repeat`, before its number is read

  Limit        points of a callback
  Reported at  the callback's first word, when its closing brace has been read

  Limit        cost of a callback
  Reported at  the same

  Text    `filter a altitude 0`
  Answer  `syntax 1:19 E06`

  Text    `filter a altitude 4294967296`
  Answer  `syntax 1:19 E06`

  Text    `filter a altitude 1 pre read { repeat 1 { repeat 1 { repeat 1 { repeat 1 { repeat 9999 { } } } } } }`
  Answer  `syntax 1:76 E06`
";

pub(crate) const E07: &str = "E07: a callback is missing

The text lacks a callback that another part of it needs.

    filter a altitude 100
    post read {
      return FINISHED_PROCESSING
    }

  = syntax 2:1 E07

  Missing                                                       Reported at, when the whole text has been read
  ------------------------------------------------------------  ----------------------------------------------
  `canceled`, where the text has `queue`                        the word `queue`
  the `pre` of the same operation, where the text has a `post`  the word `post`

  Text                                                           Answer
  -------------------------------------------------------------  -----------------
  `filter a altitude 100 queue pre read { return NO_CALLBACK }`  `syntax 1:23 E07`
";

pub(crate) const E08: &str = "E08: a variable twice in a call

A call that reads one context variable and writes another is given the same variable for both.

    filter a altitude 100
    pre read {
      if FltGetInstanceContext c0 {
        FltReferenceContext c0 as c0
      }
      return NO_CALLBACK
    }

  = syntax 4:31 E08

  Twice                                                 Reported at
  ----------------------------------------------------  ------------------------
  the context variable of `FltReferenceContext C as D`  D
  the context variable of a set, after `old`            the variable after `old`

  Text                                                                                        Answer
  ------------------------------------------------------------------------------------------  -----------------
  `filter a altitude 100 pre read { if FltSetInstanceContext KEEP_IF_EXISTS c0 old c0 { } }`  `syntax 1:81 E08`
";
