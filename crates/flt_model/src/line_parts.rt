//! The parts of a journal's lines, for other texts that have such lines.

ghost use Rattle.std.specs.Prelude.{◌≡◌, ℕ, ◌+◌, ◌≤◌, ◌∷◌, ◌++◌, length, IfOk};
ghost use Rattle.flt_model.specs.JournalText as format;
ghost use Rattle.flt_model.specs.JournalTextReading.{Counts};
ghost use Rattle.flt_model.specs.LineParts as spec;
ghost use Rattle.flt_model.specs.Streams.{Text};

use crate::lines::{move_by, numbered};
use crate::moves::Move;
use crate::scanner::Stop;
use crate::streams::Source;

/// The move whose line begins with this byte, up to the end of the line.
pub fn read_move<R: Source>(reader: &mut R, first: u8) -> Result<Move, Stop>
    // What is read has this line.
    ensures spelled { IfOk result (λ made. first ∷ R.coming reader.old ≡ format.move_line made ++ R.coming reader.new) }
    // The line of a move is read, unless the reader fails.
    ensures read { (made : Move) → format.IsMove made → (behind : Text) →
        first ∷ R.coming reader.old ≡ format.move_line made ++ behind → spec.IsReadAs made behind result (R.coming reader.new) }
    ensures fails { Counts result (R.failures reader.old) (R.failures reader.new) }
    ensures reads { R.reads reader.new ≤ R.reads reader.old + format.longest_move }
{
    move_by(reader, first)
}

/// A word, and the number after it that ends the line.
pub fn read_number<R: Source>(reader: &mut R, word: &[u8]) -> Result<u32, Stop>
    // What is read is spelled so.
    ensures spelled { IfOk result (λ number. R.coming reader.old ≡ word.now ++ (format.number_text number 10 ++ R.coming reader.new)) }
    // What is spelled so is read, unless the reader fails.
    ensures read { (number : ℕ) → format.IsNumber number → (behind : Text) →
        R.coming reader.old ≡ word.now ++ (format.number_text number 10 ++ behind) →
        spec.IsReadAs number behind result (R.coming reader.new) }
    ensures fails { Counts result (R.failures reader.old) (R.failures reader.new) }
    ensures reads { R.reads reader.new ≤ R.reads reader.old + (length word.now + 11) }
{
    numbered(reader, word)
}
