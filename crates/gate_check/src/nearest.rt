//! The nearest of names.

ghost use Rattle.std.specs.Prelude.{◌≡◌, ℕ, List, IfOk, IfSome, map, option_map, string_bytes};
ghost use Rattle.gate_check.specs.Nearest.{if_near, most_edits, nearer, nearest};
ghost use Rattle.gate_check.specs.Near.{IsNearName};

use lattice_core::NoMemory;
use std::alloc::Global;
use std::collections::BTreeSet;
use strsim::levenshtein;

/// A name, and how far it is from the one that is asked for.
#[derive(Clone, Copy)]
struct Near<'n> {
    name: &'n str,
    edits: usize,
}

/// The first of those names, in byte order, that are nearest to one, unless that is too far. It costs O(m n) for names
/// of m bytes in all and one of n, and O(n) memory beside the longest name.
pub fn nearest<'n>(
    alloc: Global,
    name: &str,
    names: &'n BTreeSet<String>,
) -> Result<Option<&'n str>, NoMemory>
    ensures { IfOk result
        (λ found. option_map (λ text. text.now) found ≡ nearest name.now (map string_bytes names.now.keys)) }
{
    let mut best = None;
    for other in names {
        let other = other.as_str();
        let edits = levenshtein(alloc, name, other)?;
        best = Some(nearer(best, Near { name: other, edits }));
    }
    Ok(if_near(name, best))
}

/// The nearer of two, and the first where both are as near.
fn nearer<'n>(best: Option<Near<'n>>, other: Near<'n>) -> Near<'n>
    ensures { (name : List ℕ) → IfSome best.entry (IsNearName name) → IsNearName name other.entry
        → IsNearName name result
        × (result.name.now ≡ nearer name (option_map (λ near. near.name.now) best.entry) other.entry.name.now) }
{
    match best {
        Some(best) if best.edits <= other.edits => best,
        _ => other,
    }
}

/// The name that was found, unless it is too far.
fn if_near<'n>(name: &str, best: Option<Near<'n>>) -> Option<&'n str>
    requires { IfSome best (IsNearName name.now) }
    ensures { option_map (λ text. text.now) result ≡ if_near name.now (option_map (λ near. near.name.now) best.entry) }
{
    let best = best?;
    if best.edits > most_edits(name) {
        return None;
    }
    Some(best.name)
}

/// How far from a name the nearest may be: a third of its bytes, and one at least.
fn most_edits(name: &str) -> usize
    ensures { result ≡ most_edits name.now }
{
    (name.len() / 3).max(1)
}
