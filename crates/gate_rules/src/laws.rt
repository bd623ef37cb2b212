//! Laws about what the contracts of this crate cite. A call does nothing.
ghost use Rattle.gate_rules.specs.FirstFaults.{FindsFirstMember, FindsFirstItem};
ghost use Rattle.gate_rules.specs.Tried.{TriesEach};

/// The fault that the walk finds at an object is at one of its members, and no member before that has one; where it
/// finds none, no member has one. The same holds of the items of a list.
pub fn the_first_fault_is_found()
    ensures members { FindsFirstMember }
    ensures items { FindsFirstItem }
{}

/// Of the conditions that are tried for an item each is one that the gate has, with whether the item breaks it, and
/// each condition that the gate has is among them.
pub fn each_condition_is_tried()
    ensures { TriesEach }
{}
