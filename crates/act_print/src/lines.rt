//! The lines of bytes.
ghost use Rattle.std.specs.Prelude.{◌≡◌, ◌<◌, ◌^◌, ◌-◌, ◌∷◌, [], ◌==◌, length, position, IfSome};
ghost use Rattle.std.specs.Option.{option_map_or};
ghost use Rattle.act_print.specs.Faults.{lines_of};
ghost use Rattle.act_print.specs.Giving.{is_ended};

/// The first line, without its line feed, and what stands behind it; None where there is none.
pub(crate) fn first_line(bytes: &[u8]) -> Option<(&[u8], &[u8])>
    ensures lines { lines_of bytes.now ≡ option_map_or (λ l. l.0.now ∷ lines_of l.1.now) result [] }
    ensures shorter { IfSome result (λ l. length l.1.now < length bytes.now) }
{
    if bytes.is_empty() {
        return None;
    }
    match first_feed(bytes) {
        Some(end) => Some((&bytes[..end], &bytes[end + 1..])),
        None => Some((bytes, &[])),
    }
}

/// The place of the first line feed.
fn first_feed(bytes: &[u8]) -> Option<usize>
    ensures { result ≡ position (λ byte. byte == 10) bytes.now }
{
    bytes.iter().position(|byte| *byte == b'\n')
}

/// How many lines there are.
pub(crate) fn count_lines(bytes: &[u8]) -> u32
    requires { length (lines_of bytes.now) < 2 ^ 32 - 1 }
    ensures { result ≡ length (lines_of bytes.now) }
{
    let mut count = 0;
    let mut rest = bytes;
    'lines: while let Some((_, behind)) = first_line(rest) {
        count += 1;
        rest = behind;
    }
    count
}

/// Whether the last line has a line feed.
pub(crate) fn is_ended(bytes: &[u8]) -> bool
    ensures { result ≡ is_ended bytes.now }
{
    bytes.ends_with(b"\n")
}
