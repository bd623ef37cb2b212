//! Values that a lattice can keep as keys or in registers.

ghost use Rattle.std.specs.Prelude.{◌≡◌, ℕ, ℤ, List, Bool, Option, IfOk, refl, string_bytes};
ghost use Rattle.std.specs.Ordering.{nat_cmp, int_cmp, bool_cmp};
ghost use Rattle.std.specs.Option.{option_cmp, option_map};
ghost use Rattle.std.specs.Cmp.Lexicographic.{slice_cmp};
ghost use Rattle.std.specs.declared.cmp.Ordering.{Ordering};
ghost use Rattle.lattice_core.specs.Keep.{IsExactOrder, numbers_exact, integers_exact, flags_exact, texts_exact};
ghost use Rattle.lattice_core.specs.Keep.{options_exact, option_cmp-map};

use super::memory::NoMemory;
use std::alloc::Allocator;

/// A value that a lattice can keep as a key or in a register.
///
/// Its order is total, and values that compare alike have one shape.
pub trait Keep: Ord + Drop {
    /// What values are, wherever they lie in memory.
    ghost Shape: { Type 0 };

    /// The shape of a value.
    ghost shape: { Self → Shape };

    /// The order of shapes.
    ghost order: { Shape → Shape → Ordering };

    /// An equal value.
    fn copy(&self) -> Result<Self, NoMemory>
    where
        Self: Sized,
        ensures { IfOk result (λ kept. shape kept ≡ shape self.now) };

    ghost compares: { (a b : Self) → Self.cmp a b ≡ order (shape a) (shape b) };

    ghost ordered: { IsExactOrder order };
}

impl Keep for u8 {
    ghost Shape = { ℕ };

    ghost shape = { λ n. n };

    ghost order = { nat_cmp };

    ghost compares = { λ a b. refl };

    ghost ordered = { numbers_exact };

    fn copy(&self) -> Result<u8, NoMemory>
        ensures { result ≡ Ok self.now }
    {
        Ok(*self)
    }
}

impl Keep for u16 {
    ghost Shape = { ℕ };

    ghost shape = { λ n. n };

    ghost order = { nat_cmp };

    ghost compares = { λ a b. refl };

    ghost ordered = { numbers_exact };

    fn copy(&self) -> Result<u16, NoMemory>
        ensures { result ≡ Ok self.now }
    {
        Ok(*self)
    }
}

impl Keep for u32 {
    ghost Shape = { ℕ };

    ghost shape = { λ n. n };

    ghost order = { nat_cmp };

    ghost compares = { λ a b. refl };

    ghost ordered = { numbers_exact };

    fn copy(&self) -> Result<u32, NoMemory>
        ensures { result ≡ Ok self.now }
    {
        Ok(*self)
    }
}

impl Keep for u64 {
    ghost Shape = { ℕ };

    ghost shape = { λ n. n };

    ghost order = { nat_cmp };

    ghost compares = { λ a b. refl };

    ghost ordered = { numbers_exact };

    fn copy(&self) -> Result<u64, NoMemory>
        ensures { result ≡ Ok self.now }
    {
        Ok(*self)
    }
}

impl Keep for usize {
    ghost Shape = { ℕ };

    ghost shape = { λ n. n };

    ghost order = { nat_cmp };

    ghost compares = { λ a b. refl };

    ghost ordered = { numbers_exact };

    fn copy(&self) -> Result<usize, NoMemory>
        ensures { result ≡ Ok self.now }
    {
        Ok(*self)
    }
}

impl Keep for u128 {
    ghost Shape = { ℕ };

    ghost shape = { λ n. n };

    ghost order = { nat_cmp };

    ghost compares = { λ a b. refl };

    ghost ordered = { numbers_exact };

    fn copy(&self) -> Result<u128, NoMemory>
        ensures { result ≡ Ok self.now }
    {
        Ok(*self)
    }
}

impl Keep for i8 {
    ghost Shape = { ℤ };

    ghost shape = { λ n. n };

    ghost order = { int_cmp };

    ghost compares = { λ a b. refl };

    ghost ordered = { integers_exact };

    fn copy(&self) -> Result<i8, NoMemory>
        ensures { result ≡ Ok self.now }
    {
        Ok(*self)
    }
}

impl Keep for i16 {
    ghost Shape = { ℤ };

    ghost shape = { λ n. n };

    ghost order = { int_cmp };

    ghost compares = { λ a b. refl };

    ghost ordered = { integers_exact };

    fn copy(&self) -> Result<i16, NoMemory>
        ensures { result ≡ Ok self.now }
    {
        Ok(*self)
    }
}

impl Keep for i32 {
    ghost Shape = { ℤ };

    ghost shape = { λ n. n };

    ghost order = { int_cmp };

    ghost compares = { λ a b. refl };

    ghost ordered = { integers_exact };

    fn copy(&self) -> Result<i32, NoMemory>
        ensures { result ≡ Ok self.now }
    {
        Ok(*self)
    }
}

impl Keep for i64 {
    ghost Shape = { ℤ };

    ghost shape = { λ n. n };

    ghost order = { int_cmp };

    ghost compares = { λ a b. refl };

    ghost ordered = { integers_exact };

    fn copy(&self) -> Result<i64, NoMemory>
        ensures { result ≡ Ok self.now }
    {
        Ok(*self)
    }
}

impl Keep for i128 {
    ghost Shape = { ℤ };

    ghost shape = { λ n. n };

    ghost order = { int_cmp };

    ghost compares = { λ a b. refl };

    ghost ordered = { integers_exact };

    fn copy(&self) -> Result<i128, NoMemory>
        ensures { result ≡ Ok self.now }
    {
        Ok(*self)
    }
}

impl Keep for isize {
    ghost Shape = { ℤ };

    ghost shape = { λ n. n };

    ghost order = { int_cmp };

    ghost compares = { λ a b. refl };

    ghost ordered = { integers_exact };

    fn copy(&self) -> Result<isize, NoMemory>
        ensures { result ≡ Ok self.now }
    {
        Ok(*self)
    }
}

impl Keep for bool {
    ghost Shape = { Bool };

    ghost shape = { λ b. b };

    ghost order = { bool_cmp };

    ghost compares = { λ a b. refl };

    ghost ordered = { flags_exact };

    fn copy(&self) -> Result<bool, NoMemory>
        ensures { result ≡ Ok self.now }
    {
        Ok(*self)
    }
}

/// A text is kept by its bytes; a copy costs O(n) for n bytes.
impl<A: Allocator + Clone> Keep for String<A> {
    ghost Shape = { List ℕ };

    ghost shape = { string_bytes };

    ghost order = { slice_cmp nat_cmp };

    ghost compares = { λ a b. refl };

    ghost ordered = { texts_exact };

    fn copy(&self) -> Result<String<A>, NoMemory> {
        Ok(self.clone()?)
    }
}

/// `None` is the least.
impl<K: Keep> Keep for Option<K> {
    ghost Shape = { Option K.Shape };

    ghost shape = { option_map K.shape };

    ghost order = { option_cmp K.order };

    ghost compares = { option_cmp-map K.cmp K.order K.shape K.compares };

    ghost ordered = { options_exact K.ordered };

    fn copy(&self) -> Result<Option<K>, NoMemory> {
        match self {
            Some(kept) => Ok(Some(kept.copy()?)),
            None => Ok(None),
        }
    }
}
