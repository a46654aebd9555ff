//! Words of a line, found one by one without a copy.

ghost use Rattle.std.specs.Prelude.{◌≡◌, not, [], ◌∷◌, position, option_map, MatchOption};
ghost use Rattle.cm_document.specs.Lines.{is_blank, is_comment, words};
ghost use Rattle.script_text.specs.FewWords.{only, pair};

/// The first word of a text and what stands after it; nothing where the text has no word.
#[tactic(auto, using(cm_document::proofs::LineLemmas::cutting_words))]
pub fn next_word(text: &[u8]) -> Option<(&[u8], &[u8])>
    ensures { MatchOption result (words text.now ≡ []) (λ cut. words text.now ≡ cut.0.now ∷ words cut.1.now) }
{
    let Some(start) = word_start(text) else {
        return None;
    };
    let (_, from) = text.split_at(start);
    match blank(from) {
        Some(end) => Some(from.split_at(end)),
        None => Some(from.split_at(from.len())),
    }
}

/// The word of a text that has one word alone.
pub fn only_word(text: &[u8]) -> Option<&[u8]>
    ensures { option_map (λ word. word.now) result ≡ only (words text.now) }
{
    let Some((word, more)) = next_word(text) else {
        return None;
    };
    match next_word(more) {
        None => Some(word),
        Some(_) => None,
    }
}

/// The words of a text that has two words alone.
pub fn two_words(text: &[u8]) -> Option<(&[u8], &[u8])>
    ensures { option_map (λ cut. (cut.0.now, cut.1.now)) result ≡ pair (words text.now) }
{
    let Some((first, more)) = next_word(text) else {
        return None;
    };
    match only_word(more) {
        Some(second) => Some((first, second)),
        None => None,
    }
}

/// Whether a line whose first word is this one is a comment.
pub fn begins_comment(word: &[u8]) -> bool
    ensures { result ≡ is_comment word.now }
{
    match word.first() {
        Some(byte) => *byte == b'#',
        None => false,
    }
}

/// Where the first word begins.
fn word_start(text: &[u8]) -> Option<usize>
    ensures { result ≡ position (λ b. not (is_blank b)) text.now }
{
    text.iter().position(|byte| !is_blank(*byte))
}

/// Where the first blank stands.
fn blank(text: &[u8]) -> Option<usize>
    ensures { result ≡ position is_blank text.now }
{
    text.iter().position(|byte| is_blank(*byte))
}

/// Whether this byte stands between words: a space or a tab.
fn is_blank(byte: u8) -> bool
    ensures { result ≡ is_blank byte }
{
    byte == b' ' || byte == b'\t'
}
