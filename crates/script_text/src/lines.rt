//! Lines of a text, cut off one by one without a copy.

ghost use Rattle.std.specs.Prelude.{◌≡◌, ◌<◌, ◌==◌, ◌∷◌, ◌++◌, length, position};
ghost use Rattle.cm_document.specs.Lines.{raw_lines, without_last, bare};

/// The first line of a text, with its line feed where it has one, and what stands after it.
#[tactic(auto, using(cm_document::proofs::LineLemmas::cutting_lines))]
pub fn first_line(text: &[u8]) -> (&[u8], &[u8])
    requires { 0 < length text.now }
    ensures cut { raw_lines text.now ≡ result.0.now ∷ raw_lines result.1.now }
    ensures whole { text.now ≡ result.0.now ++ result.1.now }
    ensures shorter { length result.1.now < length text.now }
{
    match line_feed(text) {
        Some(feed) => text.split_at(feed + 1),
        None => text.split_at(text.len()),
    }
}

/// Where the first line feed stands.
fn line_feed(text: &[u8]) -> Option<usize>
    ensures { result ≡ position (λ b. b == 10) text.now }
{
    text.iter().position(|byte| *byte == b'\n')
}

/// A line without its line feed and without a carriage return before it.
pub fn bare_line(line: &[u8]) -> &[u8]
    ensures { result.now ≡ bare line.now }
{
    without_last(b'\r', without_last(b'\n', line))
}

/// The text without this byte at its end, if it stands there.
#[tactic(auto, using(cm_document::proofs::LineLemmas::cutting_ends))]
fn without_last(end: u8, text: &[u8]) -> &[u8]
    ensures { result.now ≡ without_last end text.now }
{
    match text.split_last() {
        Some((last, front)) if *last == end => front,
        _ => text,
    }
}
