//! Laws of the text of annotations and its places in C.

ghost use Rattle.flt_c.specs.InPlace.{EachByteIsInItsPlace};
ghost use Rattle.flt_c.specs.Laws as spec;
ghost use Rattle.flt_c.specs.Letters.{LettersAreTheFile};
ghost use Rattle.flt_c.specs.Pieces as pieces;

/// Each byte of the text of some files is in C at its line's place plus its column, or ends a line where its annotation ends. Each line
/// begins after the end of the one before it. It does nothing at run time: its clause is the law.
#[tactic(auto, using(crate::proofs::Standing::each_byte_stands))]
pub fn each_byte_stands_in_c()
    ensures { spec.EachByteStands }
{}

/// Each byte that is read of an annotation is in the text, at its place, except the `*/` that ends it. It does nothing at run time: its
/// clause is the law.
#[tactic(auto, using(crate::proofs::Taken::no_byte_is_left_out))]
pub fn no_byte_is_left_out()
    ensures { spec.NoByteIsLeftOut }
{}

/// A file that is read is, without its continuations, a sequence of pieces of C: code, comments, strings, character constants and ends of
/// lines. Its text is that of its comments. It does nothing at run time: its clause is the law.
#[tactic(auto, using(crate::proofs::Divided::files_are_pieces))]
pub fn files_are_pieces()
    ensures { pieces.FilesArePieces }
{}

/// The letters of a file are its bytes, all of them and in order, so a place among them is a place in the file. It does nothing at run
/// time: its clause is the law.
#[tactic(auto, using(crate::proofs::Lettering::letters_are_the_file))]
pub fn letters_are_the_file()
    ensures { LettersAreTheFile }
{}

/// Each byte of the annotations of a file, laid in their places, is in the file at the same line and column, or ends a line where its
/// annotation ends. The others are blanks and line feeds before a line. It does nothing at run time: its clause is the law.
#[tactic(auto, using(crate::proofs::InPlaces::each_byte_is_in_its_place))]
pub fn each_byte_is_in_its_place()
    ensures { EachByteIsInItsPlace }
{}
