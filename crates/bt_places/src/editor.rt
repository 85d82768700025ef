//! What the editor holds open, what was found in it, and how the editor counts in the texts of files.

ghost use Rattle.std.specs.Prelude.{◌≡◌};
ghost use Rattle.bt_places.specs.Editor.{counting_in};

use crate::parameters::document_named;
use bt_documents::Document;
use bt_positions::Counting;
use bt_remarks::Checked;

/// The open documents, what was found in styles, and the units of positions in the texts of other files.
#[derive(Clone, Copy)]
pub struct Editor<'a> {
    pub documents: &'a [Document],
    pub checked: &'a [Checked],
    pub counting: Counting,
}

/// A paper, and the editor that works on it.
#[derive(Drop)]
pub struct Workspace<'a, P> {
    pub paper: &'a P,
    pub editor: Editor<'a>,
}

impl Editor<'_> {
    /// The units of positions in a file: its document's if it is open, else the editor's.
    pub fn counting_in(&self, uri: &[u8]) -> Counting
        ensures { result ≡ counting_in self.now.counting self.now.documents.now uri.now }
    {
        match document_named(self.documents, uri) {
            Some(document) => document.counting,
            None => self.counting,
        }
    }
}
