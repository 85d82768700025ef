//! What a line of a header says of the length of the body.

ghost use Rattle.std.specs.Prelude.{◌≡◌, ◌≤◌, length};
ghost use Rattle.bt_frames.specs.Headers.{behind_spaces, length_of, without_cr, said_by};

use bt_streams::number;

fn behind_spaces(text: &[u8]) -> &[u8]
    ensures { result.now ≡ behind_spaces text.now }
{
    let mut rest = text;
    'spaces: while let [b' ', others @ ..] = rest {
        rest = others;
    }
    rest
}

/// How many bytes the body has by this line, which has no line end; nothing if the line says something else.
fn length_of(line: &[u8]) -> Option<usize>
    ensures { result ≡ length_of line.now }
{
    if line.len() < 15 {
        return None;
    }
    let (name, value) = line.split_at(15);
    if name.eq_ignore_ascii_case(b"content-length:") {
        number(behind_spaces(value))
    } else {
        None
    }
}

/// The line without the CR at its end.
pub fn without_cr(line: &[u8]) -> &[u8]
    ensures { result.now ≡ without_cr line.now }
{
    let count = line.len();
    if count > 0 && line[count - 1] == b'\r' {
        line.split_at(count - 1).0
    } else {
        line
    }
}

/// What is known of the length after one more line, of at most 255 bytes.
pub fn said_by(known: Option<usize>, line: &[u8]) -> Option<usize>
    requires { length line.now ≤ 255 }
    ensures { result ≡ said_by known line.now }
{
    match length_of(without_cr(line)) {
        Some(count) => Some(count),
        None => known,
    }
}
