//! Carries out a notification: the paper begins, if it hasn't yet, the documents change, the paper catches up, and the editor
//! is told the news.

ghost use Rattle.std.specs.Prelude.{◌≡◌, ◌⊎◌, ◌||◌, is_some, map, IfOk, OnErr, IsTrue};
ghost use Rattle.serde_json.specs.View.{view};
ghost use Rattle.bt_documents.specs.Documents.{AreGiven, any_behind, Follows};
ghost use Rattle.bt_lsp.specs.Complaints.{complaints};
ghost use Rattle.bt_lsp.specs.Desk.{news_of, news_with, BeginsBy, IsStarted, IsLost, TakenOrLost, with_told, Tells, Carried, TakenUp};
ghost use Rattle.bt_lsp.specs.declared.methods.Notice.TheVariants.{Changed};

use crate::complaints::{complaints, with_complaints};
use crate::methods::{Notice, Notification};
use crate::news::{first_news, is_run_style, news};
use crate::progress::with_end;
use crate::server::Server;
use crate::styles::check_styles;
use crate::taking::take;
use bt_documents::{Document, give_again};
use bt_places::{Paper, text_at};
use bt_remarks::{Remarks, StepWord};
use bt_streams::Ahead;
use bt_text::{Bytes, Sequence};
use serde_json::Value;
use std::alloc::{AllocError, Global};

/// Begins a paper as the message `initialize` says.
fn begin<P: Paper>(alloc: Global, paper: &mut P, message: &Value) -> Result<(), AllocError>
    ensures ok { IfOk result (λ _. BeginsBy P.begins (view message.now) paper.old paper.new) }
    ensures err { OnErr result (paper.new ≡ paper.old) }
{
    let job = text_at(message, "/params/initializationOptions/job");
    let folder = text_at(message, "/params/rootUri");
    paper.begin(alloc, job, folder)?;
    Ok(())
}

/// Begins the paper, if it hasn't begun. If memory runs out, nothing changes.
fn start<P: Paper>(alloc: Global, server: &mut Server<P>) -> Result<(), AllocError>
    ensures ok { IfOk result (λ _. IsStarted P.begins server.old server.new) }
    ensures err { OnErr result (server.new ≡ server.old) }
    ensures due { OnErr result (IsTrue (is_some server.old.start)) }
{
    let Some(message) = &server.start else {
        return Ok(());
    };
    begin(alloc, &mut server.paper, message)?;
    server.documents = Sequence::new(alloc);
    server.start = None;
    Ok(())
}

fn take_or_lose<P: Paper>(alloc: Global, server: &mut Server<P>, notification: &Notification<'_>)
    ensures taken { TakenOrLost notification.now.notice (view notification.now.message.now) server.old server.new }
    ensures follows { Follows (P.text server.old.paper) server.old.documents →
        Follows (P.text server.old.paper) server.new.documents }
    ensures rest { server.new ≡ record server.old {
      documents = server.new.documents;
      lost = server.new.lost;
      stale = server.new.stale;
    } }
{
    match take(alloc, server, notification) {
        Ok(()) => {
            server.stale = notification.notice.rereads() || server.stale;
        }
        Err(_) => {
            server.lost = true;
        }
    }
}

/// Has the paper read its files again, if that is due. Says whether it is still due: memory ran out.
fn reread<P: Paper>(alloc: Global, paper: &mut P, documents: &[Document], is_due: bool) -> bool
    ensures follows { Follows (P.text paper.old) documents.now → Follows (P.text paper.new) documents.now }
    ensures due { IsTrue result → IsTrue is_due }
{
    if !is_due {
        return false;
    }
    match paper.refresh(alloc, documents) {
        Ok(()) => false,
        Err(_) => true,
    }
}

fn is_either(one: bool, other: bool) -> bool
    ensures { result ≡ one || other }
{
    one || other
}

/// Has the paper read its files again, if that is due, and gives it the texts of documents that it doesn't have. Says whether
/// memory ran out.
fn catch_up<P: Paper>(alloc: Global, server: &mut Server<P>) -> bool
    ensures documents { AreGiven server.old.documents server.new.documents }
    ensures follows { Follows (P.text server.old.paper) server.old.documents →
        Follows (P.text server.new.paper) server.new.documents }
    ensures due { IsTrue server.new.stale → IsTrue server.old.stale }
    ensures unread { IsTrue server.new.stale → IsTrue result }
    ensures lags { IsTrue result → IsTrue server.new.stale ⊎ IsTrue (any_behind server.new.documents) }
    ensures rest { server.new ≡ record server.old {
      paper = server.new.paper;
      documents = server.new.documents;
      stale = server.new.stale;
    } }
{
    server.stale = reread(
        alloc,
        &mut server.paper,
        server.documents.as_slice(),
        server.stale,
    );
    let behind = give_again(alloc, &mut server.paper, &mut server.documents);
    is_either(server.stale, behind)
}

/// The news: what comes first, these complaints, and what the editor is told of each open document.
fn all_news<P: Paper>(
    alloc: Global,
    server: &Server<P>,
    complaints: &[u8],
    first: Vec<Value>,
) -> Result<Vec<Value>, AllocError>
    ensures { IfOk result (λ told. map view told.items ≡
        news_with P.shown server.now complaints.now (map view first.items) server.now) }
{
    let first = with_complaints(alloc, server.said.as_slice(), complaints, first)?;
    let told = news(alloc, server, first)?;
    let all = with_end(alloc, server.in_progress, told)?;
    Ok(all)
}

fn news_and_complaints<P: Paper>(
    alloc: Global,
    server: &Server<P>,
    behind: bool,
    notification: &Notification<'_>,
) -> Result<(Vec<Value>, Bytes), AllocError>
    ensures told { IfOk result (λ r. map view r.0.items ≡
        news_of P.shown server.now behind notification.now.notice (view notification.now.message.now) server.now) }
    ensures said { IfOk result (λ r. r.1 ≡ complaints (P.shown server.now.paper) server.now.documents) }
{
    let said = complaints(alloc, &server.paper, server.documents.as_slice())?;
    let first = first_news(alloc, server.lost, behind, notification)?;
    let told = all_news(alloc, server, said.as_slice(), first)?;
    Ok((told, said))
}

/// Finds the words of the run's style that ran when its messages came, if the style is open.
fn trace<P: Remarks>(
    alloc: Global,
    paper: &P,
    documents: &[Document],
) -> Result<Sequence<Option<StepWord>>, AllocError> {
    'documents: for document in documents {
        if is_run_style(document) {
            return paper.step_words(alloc, document.name.as_slice());
        }
    }
    Ok(Sequence::new(alloc))
}

/// Checks the styles whose texts are new, and finds the words at which the run's messages came in an open one.
fn look<P: Paper + Remarks>(alloc: Global, server: &mut Server<P>) -> Result<(), AllocError>
    ensures { server.new ≡ record server.old {
      checked = server.new.checked;
      step_words = server.new.step_words;
    } }
{
    check_styles(
        alloc,
        &server.paper,
        &mut server.checked,
        server.documents.as_slice(),
    )?;
    server.step_words = trace(alloc, &server.paper, server.documents.as_slice())?;
    Ok(())
}

/// Looks at the open styles, and tells the news. If memory runs out for either, it tells nothing.
fn tell<P: Paper + Remarks>(
    alloc: Global,
    server: &mut Server<P>,
    behind: bool,
    notification: &Notification<'_>,
) -> Vec<Value>
    ensures told { Tells P.shown server.old behind notification.now.notice (view notification.now.message.now)
        (map view result.items) server.new }
    ensures rest { server.new ≡ with_told server.old server.new }
{
    let told = match look(alloc, server) {
        Ok(()) => news_and_complaints(alloc, server, behind, notification),
        Err(error) => Err(error),
    };
    match told {
        Ok((told, said)) => {
            server.said = said;
            server.lost = false;
            server.in_progress = false;
            server.pending = behind;
            told
        }
        Err(_) => {
            server.pending = true;
            Vec::new(alloc)
        }
    }
}

/// Takes a notification, lets the paper catch up, and tells the news.
fn carry<P: Paper + Remarks>(
    alloc: Global,
    server: &mut Server<P>,
    notification: &Notification<'_>,
) -> Vec<Value>
    ensures { Carried P.text P.shown server.old notification.now.notice (view notification.now.message.now)
        (map view result.items) server.new }
{
    take_or_lose(alloc, server, notification);
    let behind = catch_up(alloc, server);
    tell(alloc, server, behind, notification)
}

/// Takes a change, and puts off the news. The paper gets its text later.
fn put_off<P: Paper>(alloc: Global, server: &mut Server<P>, message: &Value) -> Vec<Value>
    ensures { Carried P.text P.shown server.old Changed (view message.now) (map view result.items) server.new }
{
    let change = Notification {
        notice: Notice::Changed,
        message,
    };
    take_or_lose(alloc, server, &change);
    server.pending = true;
    Vec::new(alloc)
}

/// Takes a notification and tells the news. If more input already follows a change, the paper and the editor wait for the
/// last change.
fn carry_or_put_off<P: Paper + Remarks>(
    alloc: Global,
    server: &mut Server<P>,
    notification: &Notification<'_>,
    ahead: Ahead,
) -> Vec<Value>
    ensures { Carried P.text P.shown server.old notification.now.notice (view notification.now.message.now)
        (map view result.items) server.new }
{
    match (notification.notice, ahead) {
        (Notice::Changed, Ahead::More) => put_off(alloc, server, notification.message),
        _ => carry(alloc, server, notification),
    }
}

/// Remembers that a message is lost.
fn lose<P: Paper>(server: &mut Server<P>)
    ensures { IsLost server.old server.new }
{
    server.lost = true;
    server.pending = true;
}

/// Begins the paper, if it hasn't begun, takes a notification and tells the news. Without memory for the paper, the
/// notification is lost.
pub fn take_up<P: Paper + Remarks>(
    alloc: Global,
    server: &mut Server<P>,
    notification: &Notification<'_>,
    ahead: Ahead,
) -> Vec<Value>
    ensures { TakenUp P.begins P.text P.shown server.old notification.now.notice (view notification.now.message.now)
        (map view result.items) server.new }
{
    match start(alloc, server) {
        Ok(()) => carry_or_put_off(alloc, server, notification, ahead),
        Err(_) => {
            lose(server);
            Vec::new(alloc)
        }
    }
}
