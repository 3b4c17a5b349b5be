//! The laws of the search along a trail, which finds the first end to which a path leads, and of the places of comments.

ghost use Rattle.flt_explain_warnings.specs.Marks as marks;
ghost use Rattle.flt_explain_warnings.specs.Paths as spec;

/// The point that W03 or W05 names is on a path of the graph along which no work item that removes is queued (W03), or the context stays
/// the one that wasn't set (W05), and no earlier point of the callback is such a point. It does nothing at run time: its clauses are the
/// law.
pub fn ends_are_on_paths()
    ensures found { spec.EndsAreOnPaths }
    ensures first { spec.FirstEndsAreFound }
{}

/// Each comment is where its region says: its `#` is there in the text. It does nothing at run time: its clause is the law.
pub fn comments_begin_with_marks()
    ensures { marks.CommentsBeginWithMarks }
{}
