//! What READ asks of the databases.

ghost use Rattle.std.specs.Prelude.{◌≡◌, IfOk, IsTrue, map};
ghost use Rattle.bt_run.specs.inner.Cases.{text_in};
ghost use Rattle.bt_run.specs.inner.JobView.{job_of};
ghost use Rattle.bt_run.specs.inner.Asked.{question_for, question_of, with_databases};

use crate::declarations::declared_before;
use crate::job::{Job, shared_text};
use crate::reused_step::is_same_number;
use bt_job::File;
use bt_resolve::{Cites, Declared, Question};
use bt_text::{Bytes, Sequence, Shared, are_same};
use std::alloc::{AllocError, Global};

/// What READ asks of the databases with these texts.
#[derive(Drop)]
pub struct Asking {
    pub declared: Declared,
    pub cites: Cites,
    pub texts: Sequence<Shared<Bytes>>,
    pub min: u32,
}

fn texts_in(
    alloc: Global,
    files: &[File],
    names: &[Bytes],
) -> Result<Sequence<Shared<Bytes>>, AllocError>
    ensures { IfOk result (λ texts. texts ≡ map (text_in files.now) names.now) }
{
    let mut texts = Sequence::new(alloc);
    'names: for name in names {
        texts.push(shared_text(alloc, files, name.as_slice())?)?;
    }
    Ok(texts)
}

fn shared_cites(cites: &Cites) -> Result<Cites, AllocError>
    ensures { IfOk result (λ same. same ≡ cites.now) }
{
    Ok(Cites {
        keys: cites.keys.share()?,
        star: cites.star,
    })
}

impl Asking {
    /// What READ asks at the command of this number.
    pub fn at(job: Job<'_>, number: usize) -> Result<Asking, AllocError>
        ensures { IfOk result (λ asking. question_of asking ≡ question_for (job_of job.entry) number) }
    {
        let declared = declared_before(job.alloc, job.style, number)?;
        let texts = texts_in(job.alloc, job.files, job.databases)?;
        Ok(Asking {
            declared,
            cites: shared_cites(job.cites)?,
            texts,
            min: job.min,
        })
    }

    /// Whether a question is the same, but perhaps about other databases.
    #[tactic(auto, using(crate::proofs::FindingLemmas::same_question))]
    pub fn is_like(&self, question: &Question) -> bool
        ensures { IsTrue result → question.now ≡ with_databases question.now.databases (question_of self.now) }
    {
        self.min == question.min
            && is_same_declared(&self.declared, &question.declared)
            && is_same_cites(&self.cites, &question.cites)
    }
}

pub fn is_same_declared(declared: &Declared, other: &Declared) -> bool
    ensures { IsTrue result → declared.now ≡ other.now }
{
    are_same(declared.fields.as_slice(), other.fields.as_slice())
        && are_same(declared.types.as_slice(), other.types.as_slice())
        && are_same(declared.macros.as_slice(), other.macros.as_slice())
}

pub fn is_same_cites(cites: &Cites, other: &Cites) -> bool
    ensures { IsTrue result → cites.now ≡ other.now }
{
    is_same_number(cites.star, other.star) && are_same(cites.keys.as_slice(), other.keys.as_slice())
}
