// Blanks and comments.
ghost use Rattle.std.specs.Prelude.{◌≡◌, ◌≤◌, ◌==◌, length, drop};
ghost use Rattle.std.specs.List.{after_first};
ghost use Rattle.civl_lex.specs.inner.Front.{behind_gap};
ghost use Rattle.civl_lex.specs.Gap.{is_blank};

use crate::run::line_len;

fn is_blank(byte: u8) -> bool
    ensures { result ≡ is_blank byte }
{
    matches!(byte, b'\t' | b'\n' | b'\r' | b' ')
}

/// The place behind the first line feed from `start` on, or the end.
fn line_end(bytes: &[u8], start: usize) -> usize
    requires { start ≤ length bytes.now }
    ensures within { result ≤ length bytes.now }
    ensures later { start ≤ result }
    ensures rest { drop result bytes.now ≡ after_first (λ byte. byte == 10) (drop start bytes.now) }
{
    let rest = &bytes[start..];
    let length = line_len(rest);
    if length < rest.len() {
        start + length + 1
    } else {
        bytes.len()
    }
}

/// The first place from `start` on that is outside blanks and comments, or the end.
pub fn gap_end(bytes: &[u8], start: usize) -> usize
    requires { start ≤ length bytes.now }
    ensures within { result ≤ length bytes.now }
    ensures later { start ≤ result }
    ensures rest { drop result bytes.now ≡ behind_gap (drop start bytes.now) }
{
    let mut at = start;
    while at < bytes.len() {
        if is_blank(bytes[at]) {
            at += 1;
        } else if bytes[at..].starts_with(b"//") {
            at = line_end(bytes, at + 2);
        } else {
            return at;
        }
    }
    at
}
