//! Where a message about an item belongs.
//!
//! An item's lines are relative to its own `@`, so an edit above it leaves the item as it was read. Only a message
//! needs the line in the database: the sum of the item's own line and the line in the item.

ghost use Rattle.std.specs.Prelude.{◌≡◌};
ghost use Rattle.bt_resolve.specs.Warnings.{line_at};

use bt_log::Place;

/// The place of an item, to which its lines are relative.
#[derive(Clone, Copy, PartialEq, Eq)]
pub struct Origin {
    /// The number of its database, from 1.
    pub database: usize,
    /// The line of its `@` there, from 1.
    pub line: usize,
}

impl Origin {
    /// A line of the item.
    pub fn place(self, line: usize) -> Place
        ensures { result ≡ line_at self line }
    {
        Place::DatabaseLine {
            database: self.database,
            line: self.line as u128 + line as u128,
            byte: None,
        }
    }
}
