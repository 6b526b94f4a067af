//! Laws on list files: functions with an empty body, whose contract is the law.

ghost use Rattle.std.specs.Prelude.{◌≡◌, ℕ, List, Result};
ghost use Rattle.command_plans.specs.declared.list_fault.ListFault.{ListFault};
ghost use Rattle.command_plans.specs.declared.listing.Listing.{Listing};
ghost use Rattle.command_plans.specs.Listing.{ReadsAs};

/// Each list file has a listing or a fault.
pub fn list_meaning()
    ensures { (bytes : List ℕ) → (read : Result Listing ListFault) × ReadsAs bytes read }
{}

/// A list file has one listing or one fault, and never both.
pub fn one_reading()
    ensures { (bytes : List ℕ) (one other : Result Listing ListFault) → ReadsAs bytes one → ReadsAs bytes other → one ≡ other }
{}
