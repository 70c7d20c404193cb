//! The bytes of a text.
ghost use Rattle.std.specs.Prelude.{◌≡◌, ◌↔◌, true, ◌≤◌, ◌<◌, ◌≢◌, Some, None, length, nat_eq, IfSome, MatchOption, count_by, ◌++◌};
ghost use Rattle.std.specs.List.{common_prefix_len};
ghost use Rattle.act_audit.specs.Text.{first_difference, has_work_line, is_feed, last_line_at, text_in};

/// A text, and whether a line of work stands behind it.
#[derive(Clone, Copy)]
pub(crate) struct Parts<'a> {
    pub(crate) text: &'a [u8],
    pub(crate) has_work: bool,
}

/// The parts of the bytes of a text.
pub(crate) fn parts_of(bytes: &[u8]) -> Parts<'_>
    ensures text { result.text.now ≡ text_in bytes.now }
    ensures work { result.has_work ≡ has_work_line bytes.now }
{
    let at = last_line_at(bytes);
    if bytes[at..].starts_with(b"work") {
        Parts {
            text: &bytes[..at],
            has_work: true,
        }
    } else {
        Parts {
            text: bytes,
            has_work: false,
        }
    }
}

/// The place at which the last line begins.
fn last_line_at(bytes: &[u8]) -> usize
    ensures place { result ≡ last_line_at bytes.now }
    ensures within { result ≤ length bytes.now }
{
    let mut at = bytes.len().saturating_sub(1);
    'bytes: while at > 0 && bytes[at - 1] != b'\n' {
        at -= 1;
    }
    at
}

/// The number, from 1, of the first line in which a text differs from another, which is given in two parts, or None where both are the same.
pub(crate) fn first_difference(text: &[u8], front: &[u8], rest: &[u8]) -> Option<u64>
    ensures { MatchOption result (text.now ≡ front.now ++ rest.now)
        (λ line. (text.now ≢ front.now ++ rest.now) × (line ≡ first_difference text.now (front.now ++ rest.now))) }
{
    if is_both(text, front, rest) {
        return None;
    }
    let same = common_len_of(text, front, rest);
    Some(feeds(&text[..same]) + 1)
}

/// Whether a text is another, which is given in two parts.
fn is_both(text: &[u8], front: &[u8], rest: &[u8]) -> bool
    ensures { (result ≡ true) ↔ (text.now ≡ front.now ++ rest.now) }
{
    match text.strip_prefix(front) {
        Some(behind) => behind == rest,
        None => false,
    }
}

/// How many bytes a text and another, which is given in two parts, begin with alike.
fn common_len_of(text: &[u8], front: &[u8], rest: &[u8]) -> usize
    ensures same { result ≡ common_prefix_len nat_eq text.now (front.now ++ rest.now) }
    ensures within { result ≤ length text.now }
{
    let same = common_len(text, front);
    if same < front.len() {
        same
    } else {
        same + common_len(&text[same..], rest)
    }
}

/// How many bytes two texts begin with alike.
fn common_len(text: &[u8], right: &[u8]) -> usize
    ensures same { result ≡ common_prefix_len nat_eq text.now right.now }
    ensures within { result ≤ length text.now }
{
    let mut same = 0;
    'bytes: while same < text.len() && same < right.len() && text[same] == right[same] {
        same += 1;
    }
    same
}

/// How many line feeds there are.
fn feeds(bytes: &[u8]) -> u64
    ensures count { result ≡ count_by is_feed bytes.now }
    ensures within { result ≤ length bytes.now }
{
    bytes.iter().filter(|byte| is_feed(**byte)).count() as u64
}

/// Whether a byte is a line feed.
fn is_feed(byte: u8) -> bool
    ensures { result ≡ is_feed byte }
{
    byte == b'\n'
}
