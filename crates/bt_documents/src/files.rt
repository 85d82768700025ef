//! What keeps the texts of files.

ghost use Rattle.std.specs.Prelude.{◌≡◌};
ghost use Rattle.bt_documents.specs.Written.{is_taken, is_waiting};

/// What files did with a text that they were given.
#[derive(Clone, Copy, Debug, PartialEq, Eq)]
pub enum Written {
    /// They have it.
    Taken,
    /// They don't admit its name or its size.
    Refused,
    /// They don't have it yet: memory ran out, or it is put off.
    Waiting,
}

impl Written {
    /// Whether the files have the text.
    pub fn is_taken(self) -> bool
        ensures { result ≡ is_taken self }
    {
        match self {
            Written::Taken => true,
            Written::Refused | Written::Waiting => false,
        }
    }

    /// Whether the files don't have the text yet.
    pub fn is_waiting(self) -> bool
        ensures { result ≡ is_waiting self }
    {
        match self {
            Written::Waiting => true,
            Written::Taken | Written::Refused => false,
        }
    }
}

/// What keeps the texts of files, such as a session by its `edit`.
pub trait Files {
    ghost use Rattle.std.specs.Prelude.{◌≡◌, ℕ, Bool, List, Option, Some, IsTrue, false};
    ghost use Rattle.std.specs.Str.{bytes_eq};
    ghost use Rattle.bt_documents.specs.Written.{is_taken, is_refused};

    /// The text of a file.
    ghost text: { Self → List ℕ → Option (List ℕ) };

    /// Whether they don't admit a text for a file.
    ghost refuses: { Self → List ℕ → List ℕ → Bool };

    /// Gives a file a text, and says whether the file has it. A text that isn't taken changes nothing. It is refused only
    /// if the files don't admit it.
    fn write(&mut self, name: &[u8], new: &[u8]) -> Written
        ensures kept { is_taken result ≡ false → self.new ≡ self.old }
        ensures others { (other : List ℕ) → bytes_eq other name.now ≡ false → text self.new other ≡ text self.old other }
        ensures written { IsTrue (is_taken result) → text self.new name.now ≡ Some new.now }
        ensures refused { IsTrue (is_refused result) → IsTrue (refuses self.old name.now new.now) };
}
