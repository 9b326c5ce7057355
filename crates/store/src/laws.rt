//! What holds of every store, as contracts: a caller that needs a law calls the function that bears it.
ghost use Rattle.store.specs.Laws.{ChangesKeep, AdditionsAccepted, ToldByLookups, NextIsLeast, NumbersWalked, PastLast, ParentsLead};

/// A change that is not refused keeps a store sound and differs from before in just its number, and what may be added is added.
pub fn stores_change_one_number()
    ensures kept { ChangesKeep }
    ensures accepted { AdditionsAccepted }
{}

/// Contents are their capacity, their limit and what each number finds; and what the next number above another is.
pub fn lookups_tell_contents()
    ensures told { ToldByLookups }
    ensures least { NextIsLeast }
    ensures walked { NumbersWalked }
    ensures past { PastLast }
{}

/// In a sound store every parent is the root or a folder, and every chain of parents reaches the root.
pub fn parents_lead_to_the_root()
    ensures { ParentsLead }
{}
