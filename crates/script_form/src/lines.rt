//! The lines of a text.

ghost use Rattle.std.specs.Prelude.{◌≡◌, ◌==◌, ◌∷◌, ◌<◌, length, position};
ghost use Rattle.std.specs.Str.Lines.{lines, strip_carriage_return};

/// The first line of a text without its end, and what stands behind it. A line ends with a line feed, before which a
/// carriage return is
/// dropped; the last line may lack its end.
#[tactic(auto, using(crate::proofs::FirstLine::line_with_end, crate::proofs::FirstLine::line_without_end))]
pub fn first_line(text: &[u8]) -> (&[u8], &[u8])
    requires { 0 < length text.now }
    ensures lines { lines text.now ≡ result.0.now ∷ lines result.1.now }
    ensures shorter { length result.1.now < length text.now }
{
    match line_length(text) {
        Some(end) => (without_return(&text[..end]), &text[end + 1..]),
        None => (text, &[]),
    }
}

/// How many bytes stand before the first line feed, if there is one.
fn line_length(text: &[u8]) -> Option<usize>
    ensures { result ≡ position (λ byte. byte == 10) text.now }
{
    text.iter().position(|byte| *byte == b'\n')
}

/// A line without the carriage return at its end, if it has one.
fn without_return(line: &[u8]) -> &[u8]
    ensures { result.now ≡ strip_carriage_return line.now }
{
    match line.split_last() {
        Some((last, front)) if *last == b'\r' => front,
        _ => line,
    }
}
