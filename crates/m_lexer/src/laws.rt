//! Laws of the definitions: a file has either a unique list of tokens or a unique first error, and
//! their positions are in the file.

ghost use Rattle.std.specs.Prelude.{◌≡◌, ◌++◌, ℕ, List, All};
ghost use Rattle.m_places.specs.declared.place.Place.{Place};
ghost use Rattle.m_lexer.specs.declared.token.Token.{Token};
ghost use Rattle.m_lexer.specs.declared.fault.LexFault.{LexFault};
ghost use Rattle.m_lexer.specs.Tokens.{Lexes, FirstFault, IsTokenOf, IsFaultAt, behind};

/// A file has at most one list of tokens.
pub fn one_list()
    ensures { (p : Place) (bytes : List ℕ) (tokens others : List Token) →
        Lexes p bytes tokens → Lexes p bytes others → tokens ≡ others }
{}

/// A file with a list of tokens has no error.
pub fn no_list_and_fault()
    ensures { (p : Place) (bytes : List ℕ) (tokens : List Token) (fault : LexFault) →
        Lexes p bytes tokens → FirstFault p bytes fault → ⊥ }
{}

/// A file has at most one first error.
pub fn one_first_fault()
    ensures { (p : Place) (bytes : List ℕ) (fault other : LexFault) →
        FirstFault p bytes fault → FirstFault p bytes other → fault ≡ other }
{}

/// Each token is at its position: that many bytes and lines into the file.
pub fn tokens_in_place()
    ensures { (p : Place) (bytes : List ℕ) (tokens : List Token) →
        Lexes p bytes tokens → All (IsTokenOf p bytes) tokens }
{}

/// The first error is at its position: that many bytes and lines into the file.
pub fn fault_in_place()
    ensures { (p : Place) (bytes : List ℕ) (fault : LexFault) → FirstFault p bytes fault →
        (before : List ℕ) × (others : List ℕ) × (bytes ≡ before ++ others) × IsFaultAt (behind before p) fault }
{}
