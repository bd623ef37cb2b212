//! Reads the change that a footer's value names under a base.

ghost use Rattle.std.specs.Prelude.{◌≡◌, ℕ, ◌≢◌, ◌↔◌, ◌++◌, List, [], codes, IsTrue, IsSomeAnd, IfSome, MatchOption};
ghost use Rattle.std.specs.List.{AllByRecursion};
ghost use Rattle.std.specs.Str.Parse.{digits_value};
ghost use Rattle.footer_text.specs.Readings.{IsNumeral, SpellsChange, IsPatch, IsNumberAndTail, IsForm, ReadsAs};

/// The change as which the value of a footer reads under this base. It costs O(n) for n bytes, and takes no memory.
pub fn read_value(base: &str, value: &str) -> Option<u32>
    ensures { MatchOption result ((change : ℕ) → ¬ (ReadsAs base.now value.now change))
        (ReadsAs base.now value.now) }
{
    read_number(after_form(value.strip_prefix(base)?)?)
}

/// What follows what may be between a base and a number.
fn after_form(text: &str) -> Option<&str>
    ensures form { IfSome result
        (λ number. (form : List ℕ) × IsForm form × (text.now ≡ form ++ number.now)) }
    ensures only { (form number : List ℕ) (change : ℕ)
        → IsForm form → IsNumberAndTail number change → text.now ≡ form ++ number
        → IsSomeAnd result (λ found. found.now ≡ number) }
{
    if let Some(number) = text.strip_prefix("#/c/") {
        return Some(number);
    }
    match text.strip_prefix("c/") {
        Some(project) => after_project(project),
        None => Some(text),
    }
}

/// What follows a project, which isn't empty, and `/+/`. The last `/+/` ends it: no `+` is in
/// what follows.
fn after_project(text: &str) -> Option<&str>
    ensures project { IfSome result (λ number. (project : List ℕ) × (project ≢ [])
        × (text.now ≡ project ++ (codes "/+/" ++ number.now))) }
    ensures only { (project number : List ℕ)
        → project ≢ [] → AllByRecursion (λ b. b ≢ 43) number
        → text.now ≡ project ++ (codes "/+/" ++ number)
        → IsSomeAnd result (λ found. found.now ≡ number) }
{
    let (before, after) = text.rsplit_once('+')?;
    let project = before.strip_suffix('/')?;
    if project.is_empty() {
        return None;
    }
    after.strip_prefix('/')
}

/// A change's number and an optional tail.
fn read_number(text: &str) -> Option<u32>
    ensures { MatchOption result ((change : ℕ) → ¬ (IsNumberAndTail text.now change))
        (IsNumberAndTail text.now) }
{
    match text.split_once('/') {
        None => change_number(text),
        Some((digits, patch)) => {
            if !is_patch(patch) {
                return None;
            }
            change_number(digits)
        }
    }
}

/// The number of 1 to 10 digits, from 1 to 4294967295.
fn change_number(digits: &str) -> Option<u32>
    ensures { MatchOption result ((change : ℕ) → ¬ (SpellsChange digits.now change))
        (SpellsChange digits.now) }
{
    let number = numeral(digits)?;
    if number == 0 || number > u64::from(u32::MAX) {
        return None;
    }
    Some(number as u32)
}

/// Nothing, a patch set's number, or such a number and a `/`.
fn is_patch(patch: &str) -> bool
    ensures { IsTrue result ↔ IsPatch patch.now }
{
    if patch.is_empty() {
        return true;
    }
    match patch.strip_suffix('/') {
        Some(digits) => numeral(digits).is_some(),
        None => numeral(patch).is_some(),
    }
}

/// How many digits a number may have.
const MOST_DIGITS: usize = 10;

/// The number that 1 to 10 digits spell.
fn numeral(digits: &str) -> Option<u64>
    ensures { MatchOption result (¬ (IsNumeral digits.now))
        (λ number. IsNumeral digits.now × (digits_value 10 digits.now ≡ number)) }
{
    if digits.len() > MOST_DIGITS || digits.starts_with('+') {
        return None;
    }
    digits.parse::<u64>().ok()
}
