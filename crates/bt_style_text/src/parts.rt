//! Parts of a text.

ghost use Rattle.std.specs.Prelude.{◌≡◌};
ghost use Rattle.bt_style_text.specs.Parts.{part};

/// The bytes from one place up to another, as far as they are in the text.
pub fn part(text: &[u8], from: usize, to: usize) -> &[u8]
    ensures { result.now ≡ part from to text.now }
{
    let front = text.split_at(to.min(text.len())).0;
    front.split_at(from.min(front.len())).1
}
