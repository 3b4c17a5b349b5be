//! The probable mistakes, and how to fix them.

ghost use Rattle.std.specs.Prelude.{◌≡◌};
ghost use Rattle.flt_explain_hints.specs.Hint as spec;

/// The probable mistake in a text that doesn't parse.
#[derive(Clone, Copy)]
pub enum Hint {
    // Of the text as a whole.
    TooLarge,
    ByteOrderMark,
    NotAscii,
    // Of bytes with which no token begins.
    Comment,
    Semicolon,
    Bracket,
    Address,
    AndOr,
    Not,
    Greater,
    Quote,
    AltitudeFraction,
    Fraction,
    Member,
    Operator,
    // Of runs that are no word or number.
    Hexadecimal,
    LeadingZero,
    TooGreat,
    LettersInNumber,
    TooLongWord,
    // Of words that the language has, or the driver kit, or C.
    Prefix,
    /// A word names a feature that the language leaves out: `Absence` says which.
    LeftOut,
    FinalStatus,
    Comparison,
    Assignment,
    EqualsNull,
    NotEqual,
    SecondOperator,
    Copy,
    NamelessContext,
    NamelessOld,
    NamelessCopy,
    NeedsContext,
    NeedsFinalStatus,
    TakenOperand,
    CanFail,
    NeverFails,
    Success,
    ElseIf,
    LoneElse,
    Loop,
    Jump,
    MissingBrace,
    LateLock,
    LateQueue,
    // Of names.
    NeedsQueue,
    NeedsSpinLock,
    NeedsFastMutex,
    NeedsPushLock,
    OtherKind,
    NameTwice,
    CallbackTwice,
    VariableTwice,
    NeedsCanceled,
    NeedsPre,
    // Of limits.
    Altitude,
    Turns,
    NestedBlocks,
    NestedRepeats,
    Locks,
    Callbacks,
}

impl Hint {
    /// One sentence that says how to fix it.
    pub(crate) fn sentence(self) -> &'static str
        ensures { result.now ≡ spec.sentence self }
    {
        match self {
            Hint::TooLarge => "a text has at most 65,536 bytes: split the filter",
            Hint::ByteOrderMark =>
                "the text begins with a byte order mark: save it as ASCII or as UTF-8 without the mark",
            Hint::NotAscii => "outside comments a text is ASCII",
            Hint::Comment => "a comment begins with `#` and ends with the line",
            Hint::Semicolon => "nothing separates statements: leave the `;` out",
            Hint::Bracket => "what a call takes follows it without brackets or commas",
            Hint::Address => "what a call gives is named without `&`",
            Hint::AndOr =>
                "there is no `and` or `or`: put one `if` inside another, or use its `else`",
            Hint::Not => "there is no `not`: use the `else` of the `if`",
            Hint::Greater => "there is no `>`: use `<` and the `else` of the `if`",
            Hint::Quote => "the language has no strings",
            Hint::AltitudeFraction =>
                "an altitude is a whole number here, and only the order of altitudes counts: number the filters anew",
            Hint::Fraction => "numbers are whole",
            Hint::Member => "the language has no members: `value c0` is what a context keeps",
            Hint::Operator => "numbers are added and subtracted only, by `+` and `-`",
            Hint::Hexadecimal => "numbers are written in decimal digits",
            Hint::LeadingZero => "a number has no leading zeros",
            Hint::TooGreat => "a number is below 2^64",
            Hint::LettersInNumber => "a word begins with a letter or `_`",
            Hint::TooLongWord => "a word has at most 64 bytes",
            Hint::Prefix => "the driver kit's prefix is left out",
            Hint::LeftOut => "the language leaves this out",
            Hint::FinalStatus => "a final status follows `COMPLETE`",
            Hint::Comparison => "numbers are compared by `==`",
            Hint::Assignment => "a variable is set by `=`",
            Hint::EqualsNull =>
                "there is no `== NULL`: test `!= NULL` and use the `else` of the `if`",
            Hint::NotEqual =>
                "numbers are compared by `==` and `<` only: use the `else` of the `if`",
            Hint::SecondOperator => "a statement has one `+` or `-` at most",
            Hint::Copy =>
                "a variable can't be copied: `FltReferenceContext c0 as c1` gives c1 a reference of its own",
            Hint::NamelessContext =>
                "a context follows the word `context`, as in `return WITH_CALLBACK context c0`",
            Hint::NamelessOld => "what the call gives back follows the word `old`, as in `old c1`",
            Hint::NamelessCopy =>
                "the variable that gets the new reference follows the word `as`, as in `FltReferenceContext c0 as c1`",
            Hint::NeedsContext =>
                "a context follows the word `context`, and is `c0` to `c7` or `arg`, as in `return WITH_CALLBACK context c0`",
            Hint::NeedsFinalStatus =>
                "`COMPLETE` takes a final status, as in `return COMPLETE STATUS_ACCESS_DENIED`",
            Hint::TakenOperand =>
                "the variable before this was read as the operand of the call before it, which lacks its own",
            Hint::CanFail => "this call can fail: write `if`, the call, and a block `{ }`",
            Hint::NeverFails => "this call always succeeds: write it without `if`",
            Hint::Success =>
                "the call itself follows `if`: the first block is taken where it succeeds",
            Hint::ElseIf => "there is no `else if`: put the `if` into the block of the `else`",
            Hint::LoneElse => "an `else` comes right after the first block of its `if`",
            Hint::Loop => "the only loop is `repeat NUMBER { }`",
            Hint::Jump => "there are no jumps: use `if` and `else`, or `return`",
            Hint::MissingBrace => "a `}` is missing before this",
            Hint::LateLock => "locks are declared before `queue` and before the callbacks",
            Hint::LateQueue => "`queue` is written once, after the locks and before the callbacks",
            Hint::NeedsQueue =>
                "this call needs the filter's queue: write `queue` before the callbacks",
            Hint::NeedsSpinLock =>
                "the filter has no spin lock: declare one after the altitude, `lock spin NAME`",
            Hint::NeedsFastMutex =>
                "the filter has no fast mutex: declare one after the altitude, `lock fast NAME`",
            Hint::NeedsPushLock =>
                "the filter has no push lock: declare one after the altitude, `lock push NAME`",
            Hint::OtherKind => "this name is declared, but isn't of the kind that the call takes",
            Hint::NameTwice => "this name is declared before: choose another",
            Hint::CallbackTwice => "this callback is in the text already: put both bodies into one",
            Hint::VariableTwice => "a call takes a variable once: use another one",
            Hint::NeedsCanceled => "a filter with a queue has a `canceled` callback: add one",
            Hint::NeedsPre =>
                "a `post` callback needs the `pre` callback of the same operation: add one",
            Hint::Altitude => "an altitude is from 1 to 4294967295",
            Hint::Turns => "a block is repeated 0 to 1000 times",
            Hint::NestedBlocks => "blocks nest 32 deep, with the callback's own",
            Hint::NestedRepeats => "`repeat` nests 4 deep",
            Hint::Locks => "a filter has 8 locks at most",
            Hint::Callbacks =>
                "a text has 16 callbacks at most, and each has 512 points and a cost of 1,000,000 at most",
        }
    }
}
