//! Kinds of token, and how they are spelled.

ghost use Rattle.std.specs.Prelude.{◌≡◌, ◌≢◌, map, true, false};
ghost use Rattle.flt_c_macros.specs.Kinds as spec;
ghost use Rattle.flt_c_macros.specs.Texts as texts;

use flt_c_tokens::{Kind, Spellings, Token};

/// The signs, each with its spelling, and what can't be read.
pub const SIGNS: [(Kind, &[u8]); 53] = [
    (Kind::OpenParen, b"("),
    (Kind::CloseParen, b")"),
    (Kind::OpenBracket, b"["),
    (Kind::CloseBracket, b"]"),
    (Kind::OpenBrace, b"{"),
    (Kind::CloseBrace, b"}"),
    (Kind::Semicolon, b";"),
    (Kind::Comma, b","),
    (Kind::Colon, b":"),
    (Kind::DoubleColon, b"::"),
    (Kind::Question, b"?"),
    (Kind::Dot, b"."),
    (Kind::Arrow, b"->"),
    (Kind::Ellipsis, b"..."),
    (Kind::Assign, b"="),
    (Kind::AssignSum, b"+="),
    (Kind::AssignDifference, b"-="),
    (Kind::AssignProduct, b"*="),
    (Kind::AssignQuotient, b"/="),
    (Kind::AssignRemainder, b"%="),
    (Kind::AssignAnd, b"&="),
    (Kind::AssignOr, b"|="),
    (Kind::AssignXor, b"^="),
    (Kind::AssignLeft, b"<<="),
    (Kind::AssignRight, b">>="),
    (Kind::Plus, b"+"),
    (Kind::Minus, b"-"),
    (Kind::Star, b"*"),
    (Kind::Slash, b"/"),
    (Kind::Percent, b"%"),
    (Kind::Ampersand, b"&"),
    (Kind::Bar, b"|"),
    (Kind::Caret, b"^"),
    (Kind::Tilde, b"~"),
    (Kind::Exclamation, b"!"),
    (Kind::Increment, b"++"),
    (Kind::Decrement, b"--"),
    (Kind::ShiftLeft, b"<<"),
    (Kind::ShiftRight, b">>"),
    (Kind::Less, b"<"),
    (Kind::Greater, b">"),
    (Kind::LessEqual, b"<="),
    (Kind::GreaterEqual, b">="),
    (Kind::Equal, b"=="),
    (Kind::NotEqual, b"!="),
    (Kind::LogicalAnd, b"&&"),
    (Kind::LogicalOr, b"||"),
    (Kind::Hash, b"#"),
    (Kind::HashHash, b"##"),
    (Kind::Stray, b"?"),
    (Kind::Unclosed, b"?"),
    (Kind::Joined, b"?"),
    (Kind::OpenComment, b"?"),
];

/// Whether both are one kind.
#[tactic(auto, unfolding(crate::specs::Kinds::same_kind))]
pub fn same_kind(a: Kind, b: Kind) -> bool
    ensures value { result ≡ spec.same_kind a b }
    ensures same { result ≡ true → a ≡ b }
    ensures other { result ≡ false → a ≢ b }
{
    a == b
}

fn lookup<'a>(mut table: &'a [(Kind, &'a [u8])], kind: Kind) -> &'a [u8]
    ensures { result.now ≡ spec.lookup kind (map (λ e. (e.0, e.1.now)) table.entry.now) }
{
    while let [entry, rest @ ..] = table {
        if same_kind(entry.0, kind) {
            return entry.1;
        }
        table = rest;
    }
    b""
}

/// The spelling with a number; none where there isn't one.
pub fn text_of(spellings: &Spellings, number: u32) -> &[u8]
    ensures { result.now ≡ texts.text_of spellings.now number }
{
    match spellings.text(number) {
        None => b"",
        Some(text) => text,
    }
}

/// How a token is spelled.
#[tactic(auto, unfolding(crate::specs::Kinds::spelling))]
pub fn spelling<'a>(spellings: &'a Spellings, token: Token) -> &'a [u8]
    ensures { result.now ≡ spec.spelling spellings.now token }
{
    let sign = lookup(&SIGNS, token.kind);
    if sign.is_empty() {
        text_of(spellings, token.word)
    } else {
        sign
    }
}
