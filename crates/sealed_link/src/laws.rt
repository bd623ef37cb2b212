//! What the two sides of a connection do.

ghost use Rattle.std.specs.Prelude.{◌≡◌, ◌≢◌, ℕ, List, Err, Ok, Result, take};
ghost use Rattle.sealed_link.specs.Lines.{IsOtherSide, OpensCame, SendsSealed};
ghost use Rattle.sealed_link.specs.Wires.{Wiring};
ghost use Rattle.sealed_link.specs.declared.fault.WireFault.{WireFault as AnyFault};
ghost use Rattle.sealed_link.specs.declared.fault.WireFault.TheVariants.{BadLine};

/// What a wire sealed of a text the other side opens to just that, and is where it was to the wire again; and it never
/// says that a line of it is badly sealed.
pub fn what_is_sealed_is_opened()
    ensures opens { (old new other after : Wiring) (text added : List ℕ) (count : ℕ)
        (sends : SendsSealed old text count new)
        → IsOtherSide old other → OpensCame other sends.sent added (Ok (tt {0})) after
        → (added ≡ take count text) × IsOtherSide new after }
    ensures none_is_bad { (old new other after : Wiring) (text added : List ℕ) (count : ℕ)
        (sends : SendsSealed old text count new)
        (result : Result (Unit {0}) AnyFault) → IsOtherSide old other → OpensCame other sends.sent added result after
        → result ≢ Err BadLine }
{}
