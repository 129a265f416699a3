//! Cuts a line into words.
ghost use Rattle.std.specs.Prelude.{◌≡◌, ◌≢◌, ℕ, List, [], ◌∷◌, MatchOption, MatchResult, slice_index};
ghost use Rattle.std.specs.Option.{option_copied, option_to_list};
ghost use Rattle.card_trace.specs.ScriptWords.{words_in, words_of};

use crate::script::places::place_of;
use crate::script::reason::LineReason;

/// Returns the first word of a line, and what follows it; `None` if the line has no words. Spaces
/// alone separate words. A comment, which starts with `#`, has none.
pub fn first_of_line(line: &[u8]) -> Option<(&[u8], &[u8])>
    ensures { MatchOption result (words_of line.now ≡ [])
        (λ cut. words_of line.now ≡ cut.0.now ∷ words_in cut.1.now) }
{
    match line {
        [b'#', ..] => None,
        _ => first_word(line),
    }
}

/// Returns the first word, and what follows it; `None` if there are only spaces.
fn first_word(text: &[u8]) -> Option<(&[u8], &[u8])>
    ensures { MatchOption result (words_in text.now ≡ [])
        (λ cut. words_in text.now ≡ cut.0.now ∷ words_in cut.1.now) }
{
    let text = without_spaces(text);
    if text.is_empty() {
        return None;
    }
    match place_of(b' ', text) {
        None => Some((text, &[])),
        Some(end) => Some((&text[..end], &text[end + 1..])),
    }
}

/// Returns the text without its leading spaces.
fn without_spaces(text: &[u8]) -> &[u8]
    ensures words { words_in result.now ≡ words_in text.now }
    ensures start { slice_index result.now 0 ≢ 0x20 }
{
    let mut left = text;
    while let [b' ', rest @ ..] = left {
        left = rest;
    }
    left
}

/// Accepts a rest without words. Any word is `WrongWordCount`.
pub fn no_word(rest: &[u8]) -> Result<(), LineReason>
    ensures { MatchResult result (λ _. words_in rest.now ≡ [])
        (λ reason. (reason ≡ LineReason.WrongWordCount) × (words_in rest.now ≢ [])) }
{
    match first_word(rest) {
        None => Ok(()),
        Some(_) => Err(LineReason::WrongWordCount),
    }
}

/// Returns the one word of the rest. Another number of words is `WrongWordCount`.
pub fn one_word(rest: &[u8]) -> Result<&[u8], LineReason>
    ensures { MatchResult result (λ word. words_in rest.now ≡ word.now ∷ [])
        (λ reason. (reason ≡ LineReason.WrongWordCount)
        × ((word : List ℕ) → words_in rest.now ≢ word ∷ [])) }
{
    let (word, rest) = first_word(rest).ok_or(LineReason::WrongWordCount)?;
    no_word(rest)?;
    Ok(word)
}

/// Returns the two words of the rest. Another number of words is `WrongWordCount`.
pub fn two_words(rest: &[u8]) -> Result<(&[u8], &[u8]), LineReason>
    ensures { MatchResult result
        (λ words. words_in rest.now ≡ words.0.now ∷ words.1.now ∷ [])
        (λ reason. (reason ≡ LineReason.WrongWordCount)
        × ((first second : List ℕ) → words_in rest.now ≢ first ∷ second ∷ [])) }
{
    let (first, rest) = first_word(rest).ok_or(LineReason::WrongWordCount)?;
    let second = one_word(rest)?;
    Ok((first, second))
}

/// Returns the one word of the rest, or `None` if it has no words. More words are `WrongWordCount`.
pub fn at_most_one_word(rest: &[u8]) -> Result<Option<&[u8]>, LineReason>
    ensures { MatchResult result
        (λ word. words_in rest.now ≡ option_to_list (option_copied word))
        (λ reason. (reason ≡ LineReason.WrongWordCount) × (words_in rest.now ≢ [])
        × ((word : List ℕ) → words_in rest.now ≢ word ∷ [])) }
{
    match first_word(rest) {
        None => Ok(None),
        Some((word, rest)) => {
            no_word(rest)?;
            Ok(Some(word))
        }
    }
}
