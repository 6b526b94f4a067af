//! Laws of the definitions: a text has one list of lines or one first error, and not both.

ghost use Rattle.std.specs.Prelude.{◌≡◌, ℕ, List};
ghost use Rattle.mpp_lexer.specs.declared.piece.Line.{Line};
ghost use Rattle.mpp_lexer.specs.Lines.{Lexes, FirstBadToken};

/// Texts have at most one list of lines.
pub fn one_list_of_lines()
    ensures { (n : ℕ) (texts : List (List ℕ)) (lines others : List Line) →
        Lexes n texts lines → Lexes n texts others → lines ≡ others }
{}

/// Texts with a list of lines have no error.
pub fn no_lines_and_fault()
    ensures { (n : ℕ) (texts : List (List ℕ)) (lines : List Line) (fault : ℕ) →
        Lexes n texts lines → FirstBadToken n texts fault → ⊥ }
{}

/// Texts have at most one first error.
pub fn one_fault()
    ensures { (n : ℕ) (texts : List (List ℕ)) (fault other : ℕ) →
        FirstBadToken n texts fault → FirstBadToken n texts other → fault ≡ other }
{}
