//! Kinds of rows of the reports.

ghost use Rattle.std.specs.Prelude.{◌≡◌};
ghost use Rattle.flt_explain_html.specs.Rows as spec;

/// Whether a row begins a report, or is a row by itself: it isn't empty, and begins with no blank, no dot and no digit.
pub(crate) fn begins(row: &[u8]) -> bool
    ensures { result ≡ spec.begins row.now }
{
    match row {
        [] => false,
        [b' ' | b'.' | b'0'..=b'9', ..] => false,
        [_, ..] => true,
    }
}

/// The kind of the report that begins with a row.
pub(crate) fn kind_word(row: &[u8]) -> &'static str
    ensures { result.now ≡ spec.kind_word row.now }
{
    if row.starts_with(b"error[") {
        "error"
    } else if row.starts_with(b"warning[") {
        "warning"
    } else {
        "other"
    }
}

/// Whether a row says what a run breaks.
pub(crate) fn is_run(row: &[u8]) -> bool
    ensures { result ≡ spec.is_run row.now }
{
    row.starts_with(b"   = journal: breaks ")
}
