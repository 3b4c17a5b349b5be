//! The law of how journals are spelled: different journals have different texts.

ghost use Rattle.std.specs.Prelude.{◌≡◌};
ghost use Rattle.flt_model.specs.JournalText.{Entries, IsJournal, spelling};

/// No text spells two journals. It does nothing at run time: its clause is the law.
pub fn one_journal_is_spelled()
    ensures { (a b : Entries) → IsJournal a → IsJournal b → spelling a ≡ spelling b → a ≡ b }
{}
