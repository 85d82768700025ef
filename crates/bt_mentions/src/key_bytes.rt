//! The bytes of keys.

ghost use Rattle.std.specs.Prelude.{◌≡◌};
ghost use Rattle.bt_mentions.specs.KeyBytes.{is_key_byte, is_cited_byte};

use bt_text::is_white;

/// Whether a byte can belong to a key in any entry, `crossref` field and citation.
pub fn is_key_byte(byte: u8) -> bool
    ensures { result ≡ is_key_byte byte }
{
    byte > b' ' && byte != b'"' && byte != b'%' && byte != b',' && byte != b'{' && byte != b'}'
}

/// Whether a byte of a citation belongs to a key. In LaTeX a `%` begins a comment.
pub fn is_cited_byte(in_latex: bool, byte: u8) -> bool
    ensures { result ≡ is_cited_byte in_latex byte }
{
    !is_white(byte) && byte != b',' && byte != b'{' && byte != b'}' && !(in_latex && byte == b'%')
}
