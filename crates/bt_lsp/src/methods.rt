//! The methods that the desk knows.

ghost use Rattle.std.specs.Prelude.{◌≡◌};
ghost use Rattle.bt_lsp.specs.Methods.{rereads, request_of, notice_of};

use serde_json::Value;

/// A request by its method.
#[derive(Clone, Copy)]
pub enum Request {
    Initialize,
    Shutdown,
    AtCursor(CursorQuery),
    OfDocument(DocumentQuery),
    OfPaper(PaperQuery),
    OfRun(RunQuery),
    Unknown,
}

/// What is asked of a position of a document.
#[derive(Clone, Copy)]
pub enum CursorQuery {
    Hover,
    Definition,
    References,
    Rename,
    /// Of what is to be renamed.
    NameRange,
    Completion,
}

/// What is asked of a document.
#[derive(Clone, Copy)]
pub enum DocumentQuery {
    Outline,
    Folds,
    /// Of all items, or of those that the message's range touches.
    Format,
    Actions,
    Links,
}

/// What is asked of the paper as a whole.
#[derive(Clone, Copy)]
pub enum PaperQuery {
    Bibliography,
    Log,
    Status,
    Symbols,
}

/// What is asked of the run's marked bytes.
#[derive(Clone, Copy)]
pub enum RunQuery {
    Lenses,
    Origin,
}

/// A notification by its method.
#[derive(Clone, Copy, Debug, PartialEq, Eq)]
pub enum Notice {
    Opened,
    Changed,
    Closed,
    /// A file on disk may have changed.
    Saved,
    Exit,
    Other,
}

/// A notification, with its message.
#[derive(Clone, Copy)]
pub struct Notification<'a> {
    pub notice: Notice,
    pub message: &'a Value,
}

impl Notice {
    /// Whether the files that aren't open are read again.
    pub fn rereads(self) -> bool
        ensures { result ≡ rereads self }
    {
        match self {
            Notice::Closed | Notice::Saved => true,
            Notice::Opened | Notice::Changed | Notice::Exit | Notice::Other => false,
        }
    }
}

/// The request of a method.
pub fn request_of(method: &str) -> Request
    ensures { result ≡ request_of method.now }
{
    match method {
        "initialize" => Request::Initialize,
        "shutdown" => Request::Shutdown,
        "textDocument/hover" => Request::AtCursor(CursorQuery::Hover),
        "textDocument/definition" => Request::AtCursor(CursorQuery::Definition),
        "textDocument/references" => Request::AtCursor(CursorQuery::References),
        "textDocument/rename" => Request::AtCursor(CursorQuery::Rename),
        "textDocument/prepareRename" => Request::AtCursor(CursorQuery::NameRange),
        "textDocument/completion" => Request::AtCursor(CursorQuery::Completion),
        "textDocument/documentSymbol" => Request::OfDocument(DocumentQuery::Outline),
        "textDocument/foldingRange" => Request::OfDocument(DocumentQuery::Folds),
        "textDocument/formatting" => Request::OfDocument(DocumentQuery::Format),
        "textDocument/rangeFormatting" => Request::OfDocument(DocumentQuery::Format),
        "textDocument/codeAction" => Request::OfDocument(DocumentQuery::Actions),
        "textDocument/documentLink" => Request::OfDocument(DocumentQuery::Links),
        "bibtex/bbl" => Request::OfPaper(PaperQuery::Bibliography),
        "bibtex/log" => Request::OfPaper(PaperQuery::Log),
        "bibtex/status" => Request::OfPaper(PaperQuery::Status),
        "workspace/symbol" => Request::OfPaper(PaperQuery::Symbols),
        "textDocument/codeLens" => Request::OfRun(RunQuery::Lenses),
        "bibtex/origin" => Request::OfRun(RunQuery::Origin),
        _ => Request::Unknown,
    }
}

/// The notification of a method.
pub fn notice_of(method: &str) -> Notice
    ensures { result ≡ notice_of method.now }
{
    match method {
        "textDocument/didOpen" => Notice::Opened,
        "textDocument/didChange" => Notice::Changed,
        "textDocument/didClose" => Notice::Closed,
        "textDocument/didSave" => Notice::Saved,
        "workspace/didChangeWatchedFiles" => Notice::Saved,
        "exit" => Notice::Exit,
        _ => Notice::Other,
    }
}
