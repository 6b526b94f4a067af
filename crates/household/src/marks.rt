//! Which inputs occurred so far.
ghost use Rattle.std.specs.Prelude.{◌≡◌, ◌<◌, ◌++◌, ◌∷◌, [], not, length, List, ℕ};
ghost use Rattle.household.specs.Household.{is_input_among};
ghost use Rattle.household.specs.Marks.{Marks};

/// Marks an input, and returns whether it was unmarked before. Takes no memory.
pub fn mark(marked: &mut [bool], input: u32) -> bool
    requires { input < length marked.old }
    ensures fresh { (inputs : List ℕ) → Marks marked.old inputs → result ≡ not (is_input_among input inputs) }
    ensures marks { (inputs : List ℕ) → Marks marked.old inputs → Marks marked.new (inputs ++ input ∷ []) }
{
    let fresh = !marked[input as usize];
    marked[input as usize] = true;
    fresh
}
