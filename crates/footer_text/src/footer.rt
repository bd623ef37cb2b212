//! Lines that are footers.

ghost use Rattle.std.specs.Prelude.{◌≡◌, ℕ, ◌++◌, ◌∷◌, List, [], MatchOption, false};
ghost use Rattle.std.specs.List.{AllByRecursion};
ghost use Rattle.footer_text.specs.Lines.{IsBlank, BeginsBare, EndsBare, HasBare, IsFooter};

/// The value of a line of a commit message that is a footer `Depends-On:`, in any case. It costs O(n) for n bytes, and
/// takes no memory.
pub fn footer_value(line: &str) -> Option<&str>
    ensures { MatchOption result ((value : List ℕ) → ¬ (IsFooter line.now value))
        (λ value. IsFooter line.now value.now) }
{
    if !begins_with_d(line) {
        return None;
    }
    let (word, rest) = line.split_once(':')?;
    if !word.eq_ignore_ascii_case("Depends-On") {
        return None;
    }
    Some(without_blanks(rest))
}

/// Whether a line begins with the first letter of a footer's word: of most lines nothing else is looked at.
fn begins_with_d(line: &str) -> bool
    ensures { result ≡ false → (value : List ℕ) → ¬ (IsFooter line.now value) }
{
    matches!(line.as_bytes().first(), Some(b'D' | b'd'))
}

/// The text without the blanks round it.
fn without_blanks(text: &str) -> &str
    ensures { HasBare text.now result.now }
{
    without_last_blanks(without_first_blanks(text))
}

/// The text without the blanks at its front.
fn without_first_blanks(text: &str) -> &str
    ensures whole { (before : List ℕ) × AllByRecursion IsBlank before
        × (text.now ≡ before ++ result.now) }
    ensures begins { BeginsBare result.now }
{
    let mut rest = text;
    while let Some(after) = after_blank(rest) {
        rest = after;
    }
    rest
}

/// The text without the blanks at its end.
fn without_last_blanks(text: &str) -> &str
    ensures whole { (after : List ℕ) × AllByRecursion IsBlank after
        × (text.now ≡ result.now ++ after) }
    ensures ends { EndsBare result.now }
{
    let mut rest = text;
    while let Some(before) = before_blank(rest) {
        rest = before;
    }
    rest
}

/// What follows a blank at the front.
fn after_blank(text: &str) -> Option<&str>
    ensures { MatchOption result (BeginsBare text.now)
        (λ rest. (b : ℕ) × IsBlank b × (text.now ≡ b ∷ rest.now)) }
{
    if let Some(rest) = text.strip_prefix(' ') {
        return Some(rest);
    }
    if let Some(rest) = text.strip_prefix('\t') {
        return Some(rest);
    }
    text.strip_prefix('\r')
}

/// What precedes a blank at the end.
fn before_blank(text: &str) -> Option<&str>
    ensures { MatchOption result (EndsBare text.now)
        (λ rest. (b : ℕ) × IsBlank b × (text.now ≡ rest.now ++ b ∷ [])) }
{
    if let Some(rest) = text.strip_suffix(' ') {
        return Some(rest);
    }
    if let Some(rest) = text.strip_suffix('\t') {
        return Some(rest);
    }
    text.strip_suffix('\r')
}
