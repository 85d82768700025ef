//! Lists of edits.

ghost use Rattle.std.specs.Prelude.{◌≡◌, map, IfOk, OnErr};
ghost use Rattle.bibtex.specs.Edit.{edit_of};
ghost use Rattle.bibtex.specs.Headline.{AnswersInTurn, ReportsInTurn, after_answers};

use crate::edit::{Edit, Refusal};
use crate::session::Session;
use bt_run::Report;
use std::alloc::{AllocError, Global};

/// Makes edits in order, and returns what each reported, or why it was refused. The only error is that there is no
/// memory for the answers; then nothing is changed.
///
/// With the contracts of `bbl`, `blg` and `status`, which show the meaning of the state from scratch, this is the whole
/// promise: after any list of edits, the state is the result of the accepted ones, and a refused edit changes nothing,
/// even if it was refused for out of memory.
pub fn edit_all(
    alloc: Global,
    session: &mut Session,
    edits: &[Edit<'_>],
) -> Result<Vec<Result<Report, Refusal>>, AllocError>
    ensures answers { IfOk result (λ answers. AnswersInTurn (map edit_of edits.now) answers.items session.old) }
    ensures reports { IfOk result (λ answers. ReportsInTurn (map edit_of edits.now) answers.items session.old) }
    ensures state { IfOk result (λ answers. session.new ≡ after_answers (map edit_of edits.now) answers.items session.old) }
    ensures err { OnErr result (session.new ≡ session.old) }
{
    let mut answers = Vec::with_capacity(alloc, edits.len())?;
    'edits: for edit in edits {
        answers.push_reserved(session.edit(*edit));
    }
    Ok(answers)
}
