//! A text cut in two.
ghost use Rattle.std.specs.Prelude.{◌≡◌, ◌==◌, ◌+◌, ◌<◌, ◌∷◌, [], length, nat_eq, IfNone, IfSome};
ghost use Rattle.std.specs.List.{slice_split, starts_with};
ghost use Rattle.std.specs.Option.{option_map};
ghost use Rattle.text_core.specs.Cut.{cut};
ghost use Rattle.text_core.specs.Parts.{BeginsWithLine, IsUnended};

use memchr::memchr;

fn begins_with(text: &[u8], mark: &[u8]) -> bool
    requires text { 0 < length text.now }
    requires mark { 0 < length mark.now }
    ensures { result ≡ starts_with nat_eq text.now mark.now }
{
    text[0] == mark[0] && text.starts_with(mark)
}

/// The text before the first mark, and the text after it.
pub fn cut<'a>(text: &'a [u8], mark: &[u8]) -> Option<(&'a [u8], &'a [u8])>
    requires { 0 < length mark.now }
    ensures parts { option_map (λ parts. (parts.0.now, parts.1.now)) result ≡ cut mark.now text.now }
    ensures shorter { IfSome result (λ parts. length parts.1.now < length text.now) }
{
    for at in 0..text.len() {
        if begins_with(&text[at..], mark) {
            return Some((&text[..at], &text[at + mark.len()..]));
        }
    }
    None
}

/// The text before the first such byte, and the text after it.
pub fn cut_at(text: &[u8], mark: u8) -> Option<(&[u8], &[u8])>
    ensures parts { option_map (λ parts. (parts.0.now, parts.1.now)) result ≡ cut (mark ∷ []) text.now }

    // Of the parts that the byte separates, the first comes before it, and the others are those of the rest.
    ensures some { IfSome result (λ parts. slice_split (λ byte. byte == mark) text.now
        ≡ parts.0.now ∷ slice_split (λ byte. byte == mark) parts.1.now) }
    ensures none { IfNone result (slice_split (λ byte. byte == mark) text.now ≡ text.now ∷ []) }
    ensures shorter { IfSome result (λ parts. length parts.1.now < length text.now) }
{
    match memchr(mark, text) {
        Some(at) => Some((&text[..at], &text[at + 1..])),
        None => None,
    }
}

/// The first line that ends in the text, without its LF, and the text after it.
pub fn cut_line(text: &[u8]) -> Option<(&[u8], &[u8])>
    ensures line { IfSome result (λ cut. BeginsWithLine text.now cut.0.now cut.1.now) }
    ensures less { IfSome result (λ cut. length cut.1.now < length text.now) }
    ensures none { IfNone result (IsUnended text.now) }
{
    match memchr(b'\n', text) {
        Some(at) => Some((&text[..at], &text[at + 1..])),
        None => None,
    }
}
