//! What became of an entry's fields, in the report.

use crate::options::Format;
use crate::report::Report;
use bt_origins::{Fate, decimal};
use std::alloc::AllocError;

impl<'a> Report<'a> {
    fn add_fates(
        &mut self,
        key: &[u8],
        fate: Fate,
        heading: &'static [u8],
    ) -> Result<(), AllocError> {
        let mut between: &'static [u8] = heading;
        for placed in self.sources.fields_of(key, fate)? {
            let name = placed.field.name.as_slice();
            if self.format == Format::Json {
                self.add_json_fate(name, placed.file, placed.line, fate)?;
            } else {
                let line = decimal(self.sources.alloc, placed.line)?;
                self.text.append(between)?;
                self.text
                    .append_all(&[name, b" (", placed.file, b":", line.as_slice(), b")"])?;
                between = b", ";
            }
        }
        if between == b", ".as_slice() {
            self.text.append(b"\n")?;
        }
        Ok(())
    }

    /// Adds the fields of an entry that aren't in the bibliography.
    pub fn add_fields(&mut self, key: &[u8]) -> Result<(), AllocError> {
        self.add_fates(key, Fate::Read, b"only tested: ")?;
        self.add_fates(key, Fate::NeverRead, b"never read: ")
    }
}
