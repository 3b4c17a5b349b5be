//! The methods of requests and notifications.

ghost use Rattle.std.specs.Prelude.{◌≡◌, option_map};
ghost use Rattle.flt_server_session.specs.Answers as spec;

/// The topic of a question about a document.
#[derive(Clone, Copy)]
pub(crate) enum Topic {
    Hover,
    Completion,
    Definition,
    References,
    Symbols,
    Folds,
    Actions,
}

impl Topic {
    /// Whether an answer has words, which are shown; else it has places, by the client's own name of a document, or edits, whose text is the
    /// user's.
    pub(crate) fn has_words(self) -> bool
        ensures { result ≡ spec.has_words self }
    {
        match self {
            Topic::Hover | Topic::Completion | Topic::Symbols | Topic::Folds => true,
            Topic::Definition | Topic::References | Topic::Actions => false,
        }
    }
}

/// The event of a notification about a document.
#[derive(Clone, Copy)]
pub(crate) enum Notice {
    Opened,
    Changed,
    Closed,
}

/// The topic of a method; none if it is no question about a document.
pub(crate) fn topic_of(method: &str) -> Option<Topic>
    ensures { option_map spec.has_words result ≡ spec.question_of method.now }
{
    match method {
        "textDocument/hover" => Some(Topic::Hover),
        "textDocument/completion" => Some(Topic::Completion),
        "textDocument/definition" => Some(Topic::Definition),
        "textDocument/references" => Some(Topic::References),
        "textDocument/documentSymbol" => Some(Topic::Symbols),
        "textDocument/foldingRange" => Some(Topic::Folds),
        "textDocument/codeAction" => Some(Topic::Actions),
        _ => None,
    }
}

/// The notice of a method; none if it is unknown.
pub(crate) fn notice_of(method: &str) -> Option<Notice> {
    match method {
        "textDocument/didOpen" => Some(Notice::Opened),
        "textDocument/didChange" => Some(Notice::Changed),
        "textDocument/didClose" => Some(Notice::Closed),
        _ => None,
    }
}
