#![tactic(auto)]
// Theorems about edits, loads, books and histories, and a table of worked cases. Each function's contract states one; none has
// code.
ghost use Rattle.theorems.specs.EditLaws.{EditsKeepBlocksOnce, SwapTwice, TurnTwice, PutInTakeOut};
ghost use Rattle.theorems.specs.Presence.{PresenceByLast, LoadsAreWhole, BooksAreSound, PresenceInBooks};
ghost use Rattle.theorems.specs.Histories.{LeavingOut, PrunedIsWithout, PrunedIsLasting};
ghost use Rattle.theorems.specs.Worked.{WorkedCases};

pub fn edits_keep_blocks_once()
    ensures { EditsKeepBlocksOnce }
{}

pub fn swap_twice()
    ensures { SwapTwice }
{}

pub fn turn_twice()
    ensures { TurnTwice }
{}

pub fn put_in_take_out()
    ensures { PutInTakeOut }
{}

pub fn presence_by_last()
    ensures { PresenceByLast }
{}

pub fn loads_are_whole()
    ensures { LoadsAreWhole }
{}

pub fn books_are_sound()
    ensures { BooksAreSound }
{}

pub fn presence_in_books()
    ensures { PresenceInBooks }
{}

pub fn leaving_out()
    ensures { LeavingOut }
{}

pub fn pruned_is_without()
    ensures { PrunedIsWithout }
{}

pub fn pruned_is_lasting()
    ensures { PrunedIsLasting }
{}

pub fn worked_cases()
    ensures { WorkedCases }
{}
