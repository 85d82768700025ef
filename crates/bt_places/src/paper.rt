//! What the desk asks of a paper.

use bt_documents::{Document, Files};
use bt_log::Message;
use bt_remarks::{Lens, Origin};
use bt_text::{Bytes, Sequence};
use std::alloc::{AllocError, Global};

/// A paper: a job with its files, each known to the editor by its URI, and the run over their present texts.
pub trait Paper: Files {
    ghost use Rattle.std.specs.Prelude.{◌≡◌, ◌<◌, ℕ, List, Option, length, slice_get, Some, IfOk, OnErr, IsTrue, option_map};
    ghost use Rattle.bt_documents.specs.Documents.{Follows};
    ghost use Rattle.bt_places.specs.Shown.{Shown};
    ghost use Rattle.bt_places.specs.Words.{fits_latin};

    /// What it shows.
    ghost shown: { Self → Shown };

    /// Whether a paper may begin so: the paper before, the job and the folder that the editor names, the paper after.
    ghost begins: { Self → Option (List ℕ) → Option (List ℕ) → Self → Type 0 };

    fn name(&self, uri: &[u8]) -> Option<&[u8]>
        ensures { option_map (λ n. n.now) result ≡ (shown self.now).name uri.now };

    fn messages(&self) -> &[Message]
        ensures { result.now ≡ (shown self.now).messages };

    fn file_count(&self) -> usize
        ensures { result ≡ length (shown self.now).files };

    /// The URI and the text of a file.
    fn file(&self, n: usize) -> (&[u8], &[u8])
        requires { n < length (shown self.now).files }
        ensures { slice_get (shown self.now).files n ≡ Some (result.0.now, result.1.now) };

    fn entry_text(&self, key: &[u8]) -> Result<Bytes, AllocError>
        ensures { IfOk result (λ text. text ≡ (shown self.now).entry_text key.now) };

    fn bibliography(&self) -> &[u8]
        ensures { result.now ≡ (shown self.now).bibliography };

    fn log(&self) -> &[u8]
        ensures { result.now ≡ (shown self.now).log };

    fn status(&self) -> u8
        ensures { result ≡ (shown self.now).status };

    /// What stands over lines of the file at a URI.
    fn lenses(&self, alloc: Global, uri: &[u8]) -> Result<Sequence<Lens>, AllocError>;

    /// Where the byte at this line and column of the bibliography comes from, both from 0. Its files are URIs.
    fn origin(
        &self,
        alloc: Global,
        line: usize,
        column: usize,
    ) -> Result<Option<Origin>, AllocError>;

    /// Whether a text that the editor opens has its file in Latin-1 on disk. No letter is lost then.
    fn is_latin(&self, alloc: Global, uri: &str, text: &str) -> Result<bool, AllocError>
        ensures { IfOk result (λ is_latin. IsTrue is_latin → IsTrue (fits_latin text.now)) };

    /// Begins anew with the job and the folder that the editor names, if it names them.
    fn begin(
        &mut self,
        alloc: Global,
        job: Option<&str>,
        folder: Option<&str>,
    ) -> Result<(), AllocError>
        ensures ok { IfOk result (λ _.
            begins self.old (option_map (λ j. j.now) job.entry) (option_map (λ f. f.now) folder.entry) self.new) }
        ensures err { OnErr result (self.new ≡ self.old) };

    /// Reads the files that aren't open and have changed on disk, and those that the run looks for and doesn't have. The
    /// files of open documents keep their texts. The error is that memory ran out for a file, which then keeps its text, too.
    fn refresh(&mut self, alloc: Global, documents: &[Document]) -> Result<(), AllocError>
        ensures { Follows (Self.text self.old) documents.now → Follows (Self.text self.new) documents.now };
}
