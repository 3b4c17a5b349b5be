//! The law that the words of a page's reports are those that are printed.

ghost use Rattle.std.specs.List.{join_with_byte};
ghost use Rattle.std.specs.Prelude.{◌≡◌, true};
ghost use Rattle.flt_explain_html.specs.Escaping.{Text, escaped};
ghost use Rattle.flt_explain_html.specs.Page.{lines_in};
ghost use Rattle.flt_explain_html.specs.Read.{is_plain, unescaped};

/// The rows of a page, one below the other, are the print; a browser reads an escaped row as the row; and an escaped row has no `<`. So
/// a page without its tags and its pictures is the print, word for word. It does nothing at run time: its clauses are the law.
pub fn rows_are_the_print()
    ensures rows { (printed : Text) → join_with_byte 10 (lines_in printed) ≡ printed }
    ensures words { (row : Text) → unescaped (escaped row) ≡ row }
    ensures plain { (row : Text) → is_plain (escaped row) ≡ true }
{}
