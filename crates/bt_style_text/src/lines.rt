//! The first lines of a text.

ghost use Rattle.std.specs.Prelude.{◌≡◌, ◌≤◌, length};
ghost use Rattle.bt_style_text.specs.Lines.{lines_len, first_lines};

/// How many bytes a text has before the line feed of this number, from 1; all if there are fewer.
pub fn lines_len(bytes: &[u8], most: usize) -> usize
    ensures value { result ≡ lines_len most bytes.now }
    ensures within { result ≤ length bytes.now }
{
    let mut count = 0;
    let mut left = most;
    let mut rest = bytes;
    'bytes: while let [byte, behind @ ..] = rest {
        if *byte == b'\n' {
            if left <= 1 {
                return count;
            }
            left -= 1;
        }
        count += 1;
        rest = behind;
    }
    count
}

/// The first lines of a text, without the last one's line feed.
pub fn first_lines(bytes: &[u8], most: usize) -> &[u8]
    ensures { result.now ≡ first_lines most bytes.now }
{
    bytes.split_at(lines_len(bytes, most)).0
}
