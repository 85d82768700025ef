//! The desk: what each message does, and what is answered.

ghost use Rattle.std.specs.Prelude.{◌≡◌, map, IfOk, OnErr};
ghost use Rattle.serde_json.specs.View.{view};
ghost use Rattle.bt_talk.specs.Replies.{outcome_of};
ghost use Rattle.bt_lsp.specs.Desk.{duty_of, IsBegun, IsOutcomeBy, IsFoundOutcome, is_behind, greets, is_greeting, IsGreeted, owes, SettledIf};
ghost use Rattle.bt_places.specs.Parameters.{offers_bytes, takes_plain};
ghost use Rattle.bt_places.specs.Words.{counting_of};

use crate::announcing::{Announced, announced_by};
use crate::answering::Question;
use crate::carrying::take_up;
use crate::found::{Found, found_for};
use crate::methods::{Notice, Notification, Request, notice_of, request_of};
use crate::progress::shows_progress;
use crate::watching::{greeting, watches_files};
use bt_answers::shows_related;
use bt_documents::Document;
use bt_places::{Editor, Paper, Workspace, capabilities, counting_of, has_word_at};
use bt_remarks::{Checked, Remarks, StepWord};
use bt_rpc::RpcError;
use bt_streams::Ahead;
use bt_talk::{Desk, Reply};
use bt_text::{Bytes, Sequence};
use serde_json::Value;
use std::alloc::{AllocError, Global};

/// How far the editor has come.
#[derive(Clone, Copy, Debug, PartialEq, Eq)]
pub enum Phase {
    /// Before `initialize`.
    New,
    Ready,
    /// After `shutdown`.
    ShutDown,
}

/// What the desk does with a notification.
#[derive(Clone, Copy, Debug, PartialEq, Eq)]
pub enum Duty {
    /// It is over.
    End,
    /// Nothing.
    Pass,
    /// It takes it and tells the news.
    Carry,
}

/// A desk over a paper.
#[derive(Drop)]
pub struct Server<P> {
    pub paper: P,
    pub documents: Sequence<Document>,
    pub phase: Phase,
    /// Whether the editor's positions count bytes of UTF-8, and not units of UTF-16.
    pub counts_bytes: bool,
    /// Whether the editor takes hovers as plain text alone.
    pub hovers_plain: bool,
    /// Whether a message was lost and the editor hasn't been warned of it.
    pub lost: bool,
    /// Whether the paper has yet to re-read the files that aren't open.
    pub stale: bool,
    /// Whether there is news that the editor hasn't been told.
    pub pending: bool,
    /// The message `initialize`, until the paper has begun.
    pub start: Option<Value>,
    /// Whether the editor shows progress.
    pub shows_progress: bool,
    /// Whether the editor watches files for a server, and hasn't been asked for it.
    pub watches_files: bool,
    /// Whether the editor shows places related to a diagnostic.
    pub shows_related: bool,
    /// Whether the editor was told that the first run begins, and not that it has ended.
    pub in_progress: bool,
    /// What the editor was last told of errors about files for which no open document has a place.
    pub said: Bytes,
    /// What was found in the open styles.
    pub checked: Sequence<Checked>,
    /// For each message the word of the open style that ran when it came.
    pub step_words: Sequence<Option<StepWord>>,
    /// What the editor asked to be sent after each change.
    pub announced: Announced,
    /// Whether `exit` came.
    pub over: bool,
}

fn duty_of(phase: Phase, pending: bool, notice: Notice) -> Duty
    ensures { result ≡ duty_of phase pending notice }
{
    match (notice, phase) {
        (Notice::Exit, _) => Duty::End,
        (Notice::Other, Phase::Ready) => if pending { Duty::Carry } else { Duty::Pass },
        (_, Phase::Ready) => Duty::Carry,
        _ => Duty::Pass,
    }
}

/// Whether the editor's positions can count bytes of UTF-8.
fn offers_bytes(message: &Value) -> bool
    ensures { result ≡ offers_bytes (view message.now) }
{
    has_word_at(
        message,
        "/params/capabilities/general/positionEncodings",
        "utf-8",
    )
}

/// Whether the editor takes hovers as plain text alone.
fn takes_plain(message: &Value) -> bool
    ensures { result ≡ takes_plain (view message.now) }
{
    let path = "/params/capabilities/textDocument/hover/contentFormat";
    has_word_at(message, path, "plaintext") && !has_word_at(message, path, "markdown")
}

impl<P: Paper> Server<P> {
    /// A desk before `initialize`.
    pub fn new(alloc: Global, paper: P) -> Server<P> {
        Server {
            paper,
            documents: Sequence::new(alloc),
            phase: Phase::New,
            counts_bytes: false,
            hovers_plain: false,
            lost: false,
            stale: false,
            pending: false,
            start: None,
            shows_progress: false,
            watches_files: false,
            shows_related: false,
            in_progress: false,
            said: Bytes::new(alloc),
            checked: Sequence::new(alloc),
            step_words: Sequence::new(alloc),
            announced: Announced {
                bibliography: false,
                log: false,
                status: false,
            },
            over: false,
        }
    }

    /// What the editor holds open.
    pub fn editor(&self) -> Editor<'_>
        ensures documents { result.documents.now ≡ self.now.documents }
        ensures checked { result.checked.now ≡ self.now.checked }
        ensures counting { result.counting ≡ counting_of self.now.counts_bytes }
    {
        Editor {
            documents: self.documents.as_slice(),
            checked: self.checked.as_slice(),
            counting: counting_of(self.counts_bytes),
        }
    }

    /// The paper, and what the editor holds open.
    pub fn workspace(&self) -> Workspace<'_, P>
        ensures paper { result.paper.now ≡ self.now.paper }
        ensures documents { result.editor.documents.now ≡ self.now.documents }
        ensures counting { result.editor.counting ≡ counting_of self.now.counts_bytes }
    {
        Workspace {
            paper: &self.paper,
            editor: self.editor(),
        }
    }

    /// Whether `shutdown` came, as it should before `exit`.
    pub fn is_shut_down(&self) -> bool {
        self.phase == Phase::ShutDown
    }
}

/// Answers `initialize`. The paper begins with the next message.
fn begin<P: Paper>(
    alloc: Global,
    server: &mut Server<P>,
    message: &Value,
) -> Result<Result<Value, RpcError>, AllocError>
    ensures ok { IfOk result (λ outcome. IsBegun (view message.now) server.old (outcome_of outcome) server.new) }
    ensures err { OnErr result (server.new ≡ server.old) }
{
    let counts_bytes = offers_bytes(message);
    let answer = capabilities(alloc, counts_bytes)?;
    server.start = Some(message.clone()?);
    server.counts_bytes = counts_bytes;
    server.hovers_plain = takes_plain(message);
    server.shows_progress = shows_progress(message);
    server.watches_files = watches_files(message);
    server.shows_related = shows_related(message);
    server.announced = announced_by(message);
    server.phase = Phase::Ready;
    Ok(Ok(answer))
}

fn outcome_by<P: Paper>(
    alloc: Global,
    found: &Found,
    server: &mut Server<P>,
    request: Request,
    message: &Value,
) -> Result<Result<Value, RpcError>, AllocError>
    ensures ok { IfOk result (λ outcome. IsOutcomeBy P.shown found.now server.old request (view message.now)
        (outcome_of outcome) server.new) }
    ensures err { OnErr result (server.new ≡ server.old) }
{
    match (server.phase, request) {
        (Phase::New, Request::Initialize) => begin(alloc, server, message),
        (Phase::New, _) => Ok(Err(RpcError::ServerNotInitialized)),
        (Phase::ShutDown, _) => Ok(Err(RpcError::InvalidRequest)),
        (Phase::Ready, Request::Shutdown) => {
            server.phase = Phase::ShutDown;
            Ok(Ok(Value::Null))
        }
        (Phase::Ready, query) => {
            let question = Question {
                alloc,
                server: &*server,
                found,
                message,
            };
            question.answer_to(query)
        }
    }
}

/// The outcome of a request, by what is found out for it.
fn outcome_for<P: Paper>(
    alloc: Global,
    server: &mut Server<P>,
    request: Request,
    message: &Value,
) -> Result<Result<Value, RpcError>, AllocError>
    ensures ok { IfOk result (λ outcome. IsFoundOutcome P.shown server.old request (view message.now)
        (outcome_of outcome) server.new) }
    ensures err { OnErr result (server.new ≡ server.old) }
{
    let found = found_for(alloc, server, request, message)?;
    outcome_by(alloc, &found, server, request, message)
}

/// Whether the paper has yet to begin, or there is news to tell.
fn is_behind<P: Paper>(server: &Server<P>) -> bool
    ensures { result ≡ is_behind server.now }
{
    server.pending || server.start.is_some()
}

fn greets(shows: bool, watches: bool) -> bool
    ensures { result ≡ greets shows watches }
{
    shows || watches
}

/// Whether this is `initialized` from an editor that shows progress or watches files, before the paper has begun.
fn is_greeting<P: Paper>(server: &Server<P>, method: &str) -> bool
    ensures { result ≡ is_greeting method.now server.now }
{
    method == "initialized"
        && greets(server.shows_progress, server.watches_files)
        && server.start.is_some()
}

/// Says that the first run begins, and which files are to be watched. Without memory, nothing is said.
fn greet<P: Paper>(alloc: Global, server: &mut Server<P>) -> Vec<Value>
    ensures { IsGreeted server.old (map view result.items) server.new }
{
    match greeting(alloc, server.shows_progress, server.watches_files) {
        Ok(told) => {
            server.in_progress = server.shows_progress;
            server.watches_files = false;
            told
        }
        Err(_) => Vec::new(alloc),
    }
}

fn owes(phase: Phase, pending: bool) -> bool
    ensures { result ≡ owes phase pending }
{
    match phase {
        Phase::Ready => pending,
        Phase::New | Phase::ShutDown => false,
    }
}

/// Tells the news that the desk owes, before a request is answered.
fn settle<P: Paper + Remarks>(alloc: Global, server: &mut Server<P>, message: &Value) -> Vec<Value>
    ensures { SettledIf P.begins P.text P.shown (owes server.old.phase (is_behind server.old)) server.old (view message.now)
        (map view result.items) server.new }
{
    if owes(server.phase, is_behind(server)) {
        let nothing = Notification {
            notice: Notice::Other,
            message,
        };
        take_up(alloc, server, &nothing, Ahead::Nothing)
    } else {
        Vec::new(alloc)
    }
}

impl<P: Paper + Remarks + Drop> Desk for Server<P> {
    ghost use Rattle.bt_lsp.specs.Desk.{Answered, Noted, IsLost};

    ghost answers = { λ d method m outcome told e. Answered P.begins P.text P.shown d method m outcome told e };

    ghost notes = { λ d method m told e. Noted P.begins P.text P.shown d method m told e };

    ghost lost = { λ d e. IsLost d e };

    ghost is_over = { λ d. d.over };

    fn answer(
        &mut self,
        alloc: Global,
        method: &str,
        message: &Value,
    ) -> Result<Reply, AllocError> {
        let notes = settle(alloc, self, message);
        match outcome_for(alloc, self, request_of(method), message) {
            Ok(outcome) => Ok(Reply { outcome, notes }),
            Err(_) => Ok(Reply {
                outcome: Err(RpcError::InternalError),
                notes,
            }),
        }
    }

    fn note(&mut self, alloc: Global, method: &str, message: &Value, ahead: Ahead) -> Vec<Value> {
        if is_greeting(self, method) {
            return greet(alloc, self);
        }
        let notice = notice_of(method);
        match duty_of(self.phase, is_behind(self), notice) {
            Duty::End => {
                self.over = true;
                Vec::new(alloc)
            }
            Duty::Pass => Vec::new(alloc),
            Duty::Carry => take_up(alloc, self, &Notification { notice, message }, ahead),
        }
    }

    fn lose(&mut self) {
        self.lost = true;
        self.pending = true;
    }

    fn is_over(&self) -> bool {
        self.over
    }
}
