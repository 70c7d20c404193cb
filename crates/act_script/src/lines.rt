//! The lines of a text.
ghost use Rattle.std.specs.Prelude.{◌≡◌, ◌<◌, ◌∷◌, [], ◌==◌, length, position, IfSome};
ghost use Rattle.std.specs.List.{slice_split};
ghost use Rattle.std.specs.Option.{option_map_or};
ghost use Rattle.act_script.specs.Lines.{is_blank};

use memchr::memchr;

/// The first line of a text, without its line feed, and what stands behind that, where it has one.
pub(crate) fn first_line(text: &[u8]) -> (&[u8], Option<&[u8]>)
    ensures lines { slice_split (λ byte. byte == 10) text.now
        ≡ result.0.now ∷ option_map_or (λ behind. slice_split (λ byte. byte == 10) behind.now) result.1 [] }
    ensures shorter { IfSome result.1 (λ behind. length behind.now < length text.now) }
{
    match first_line_feed(text) {
        Some(end) => (&text[..end], Some(&text[end + 1..])),
        None => (text, None),
    }
}

/// The place of the first line feed.
fn first_line_feed(text: &[u8]) -> Option<usize>
    ensures { result ≡ position (λ byte. byte == 10) text.now }
{
    memchr(b'\n', text)
}

/// Whether a line says nothing: it has spaces, tabs and carriage returns alone.
pub(crate) fn is_blank(line: &[u8]) -> bool
    ensures { result ≡ is_blank line.now }
{
    line.iter().all(|byte| matches!(byte, b' ' | b'\t' | b'\r'))
}
