//! The words of C, which are the first spellings.

ghost use Rattle.std.specs.Prelude.{◌≡◌, map, Some, codes, slice_get};
ghost use Rattle.flt_c_tokens.specs.Vocabulary as spec;

use crate::token::Kind;

/// The number of the name `leave`, which as a statement is `__leave`.
pub const LEAVE: u32 = 1;

/// The first text is that of tokens without a spelling; the others are in no order that matters.
const VOCABULARY: [(&[u8], Kind); 80] = [
    (b"", Kind::Name),
    (b"leave", Kind::Name),
    (b"if", Kind::If),
    (b"else", Kind::Else),
    (b"while", Kind::While),
    (b"do", Kind::Do),
    (b"for", Kind::For),
    (b"switch", Kind::Switch),
    (b"case", Kind::Case),
    (b"default", Kind::Default),
    (b"goto", Kind::Goto),
    (b"return", Kind::Return),
    (b"break", Kind::Break),
    (b"continue", Kind::Continue),
    (b"__try", Kind::Try),
    (b"try", Kind::Try),
    (b"__finally", Kind::Finally),
    (b"finally", Kind::Finally),
    (b"__except", Kind::Except),
    (b"except", Kind::Except),
    (b"__leave", Kind::Leave),
    (b"sizeof", Kind::Sizeof),
    (b"typedef", Kind::Typedef),
    (b"struct", Kind::Struct),
    (b"union", Kind::Struct),
    (b"enum", Kind::Struct),
    (b"void", Kind::TypeWord),
    (b"char", Kind::TypeWord),
    (b"short", Kind::TypeWord),
    (b"int", Kind::TypeWord),
    (b"long", Kind::TypeWord),
    (b"float", Kind::TypeWord),
    (b"double", Kind::TypeWord),
    (b"signed", Kind::TypeWord),
    (b"unsigned", Kind::TypeWord),
    (b"_Bool", Kind::TypeWord),
    (b"bool", Kind::TypeWord),
    (b"__int8", Kind::TypeWord),
    (b"__int16", Kind::TypeWord),
    (b"__int32", Kind::TypeWord),
    (b"__int64", Kind::TypeWord),
    (b"const", Kind::Qualifier),
    (b"volatile", Kind::Qualifier),
    (b"static", Kind::Qualifier),
    (b"register", Kind::Qualifier),
    (b"extern", Kind::Qualifier),
    (b"inline", Kind::Qualifier),
    (b"auto", Kind::Qualifier),
    (b"restrict", Kind::Qualifier),
    (b"__inline", Kind::Qualifier),
    (b"__forceinline", Kind::Qualifier),
    (b"__restrict", Kind::Qualifier),
    (b"_Noreturn", Kind::Qualifier),
    (b"__unaligned", Kind::Qualifier),
    (b"constexpr", Kind::Qualifier),
    (b"__cdecl", Kind::Qualifier),
    (b"__stdcall", Kind::Qualifier),
    (b"__fastcall", Kind::Qualifier),
    (b"__declspec", Kind::Attribute),
    (b"__attribute__", Kind::Attribute),
    (b"_Alignas", Kind::Attribute),
    (b"alignas", Kind::Attribute),
    (b"__pragma", Kind::Attribute),
    (b"asm", Kind::Assembler),
    (b"__asm", Kind::Assembler),
    (b"__asm__", Kind::Assembler),
    (b"static_cast", Kind::Cast),
    (b"reinterpret_cast", Kind::Cast),
    (b"const_cast", Kind::Cast),
    (b"dynamic_cast", Kind::Cast),
    (b"new", Kind::CPlusPlus),
    (b"delete", Kind::CPlusPlus),
    (b"throw", Kind::CPlusPlus),
    (b"template", Kind::CPlusPlus),
    (b"typename", Kind::CPlusPlus),
    (b"class", Kind::CPlusPlus),
    (b"namespace", Kind::CPlusPlus),
    (b"operator", Kind::CPlusPlus),
    (b"using", Kind::CPlusPlus),
    (b"catch", Kind::CPlusPlus),
];

/// The words of C, each with its kind.
pub(crate) fn vocabulary() -> &'static [(&'static [u8], Kind)]
    ensures { map (λ e. (e.0.now, e.1)) result.now ≡ spec.vocabulary }
{
    &VOCABULARY
}

/// The kind of a word by its number.
pub(crate) fn kind_at(number: usize) -> Kind
    ensures { result ≡ spec.kind_at number }
{
    match vocabulary().get(number) {
        Some(entry) => entry.1,
        None => Kind::Name,
    }
}

/// `LEAVE` is the number of that name in every table. It does nothing at run time: its clause is a law.
#[tactic(auto, unfolding(crate::specs::Vocabulary::known_words))]
pub fn leave_has_its_number()
    ensures { slice_get spec.known_words spec.leave ≡ Some (codes "leave") }
{}
