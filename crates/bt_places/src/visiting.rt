//! Goes over the files of a paper, and over LaTeX's open texts, for lists of values.

ghost use Rattle.std.specs.Prelude.{◌≡◌, map, IfOk};
ghost use Rattle.serde_json.specs.View.{view};
ghost use Rattle.bt_places.specs.Visiting.{with_files, with_tex, with_texts, is_any};

use crate::entries::is_tex;
use crate::paper::Paper;
use bt_documents::Document;
pub use bt_shapes::with_value;
use serde_json::Value;
use std::alloc::{AllocError, Global};

/// What adds values to a list for each file.
pub trait Visit {
    ghost use Rattle.std.specs.Prelude.{◌≡◌, ℕ, List, map, IfOk};
    ghost use Rattle.serde_json.specs.Data.{Data};
    ghost use Rattle.serde_json.specs.View.{view};

    /// A list with what is added for a file, by its URI and its text.
    ghost added: { Self → List Data → List ℕ → List ℕ → List Data };

    fn visit(
        &self,
        alloc: Global,
        list: Vec<Value>,
        uri: &[u8],
        text: &[u8],
    ) -> Result<Vec<Value>, AllocError>
        ensures { IfOk result (λ all. map view all.items ≡ added self.now (map view list.items) uri.now text.now) };
}

/// Adds what is added for the paper's files.
pub fn with_files<P: Paper, V: Visit>(
    alloc: Global,
    paper: &P,
    visitor: &V,
    list: Vec<Value>,
) -> Result<Vec<Value>, AllocError>
    ensures { IfOk result (λ all. map view all.items ≡
        with_files (V.added visitor.now) (P.shown paper.now).files (map view list.items)) }
{
    let mut all = list;
    'files: for n in 0..paper.file_count() {
        let (uri, text) = paper.file(n);
        all = visitor.visit(alloc, all, uri, text)?;
    }
    Ok(all)
}

fn with_tex<V: Visit>(
    alloc: Global,
    document: &Document,
    visitor: &V,
    list: Vec<Value>,
) -> Result<Vec<Value>, AllocError>
    ensures { IfOk result (λ all. map view all.items ≡ with_tex (V.added visitor.now) (map view list.items) document.now) }
{
    if !is_tex(document.name.as_slice()) {
        return Ok(list);
    }
    visitor.visit(
        alloc,
        list,
        document.name.as_slice(),
        document.text.as_slice(),
    )
}

/// Adds what is added for LaTeX's open texts. They are no files of the run.
pub fn with_texts<V: Visit>(
    alloc: Global,
    documents: &[Document],
    visitor: &V,
    list: Vec<Value>,
) -> Result<Vec<Value>, AllocError>
    ensures { IfOk result (λ all. map view all.items ≡ with_texts (V.added visitor.now) documents.now (map view list.items)) }
{
    let mut all = list;
    'documents: for document in documents {
        all = with_tex(alloc, document, visitor, all)?;
    }
    Ok(all)
}

/// Whether a list has a value.
pub fn is_any(list: &[Value]) -> bool
    ensures { result ≡ is_any (map view list.now) }
{
    match list {
        [] => false,
        [_, ..] => true,
    }
}
