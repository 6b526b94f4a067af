//! Laws of the semantics: empty functions whose contracts are the laws.

ghost use Rattle.std.specs.Prelude.{◌≡◌, ◌<◌, ℕ, length};
ghost use Rattle.micro_m.specs.Trees.{Tree};
ghost use Rattle.micro_m.specs.declared.base.Base.{Base};
ghost use Rattle.micro_m.specs.Values.{Environment, term_value, value_in, value_of, IsSolution};
ghost use Rattle.micro_m.specs.Reads.{TermReads, HasNoCycle};

/// The value of a term depends only on the cells that it reads.
pub fn only_reads_matter()
    ensures { (term : Tree) (e f : Environment) → ((c : ℕ) → TermReads term c → e c ≡ f c) → term_value e term ≡ term_value f term }
{}

/// The values of a base without cycles solve its definitions, read as equations.
pub fn values_solve()
    ensures { (base : Base) (given : Environment) → HasNoCycle base → IsSolution base given (value_of base given) }
{}

/// The solution of a base without cycles is unique. To show that a computation gives the values of
/// a base, show that it gives a solution.
pub fn solution_is_one()
    ensures { (base : Base) (given values : Environment) → HasNoCycle base → IsSolution base given values → (c : ℕ) → values c ≡ value_of base given c }
{}

/// Turns beyond the number of definitions change nothing.
pub fn further_turns_change_nothing()
    ensures { (base : Base) (given : Environment) → HasNoCycle base → (turns c : ℕ) → length base.definitions < turns
        → value_in base given turns c ≡ value_of base given c }
{}
