//! Laws of the grammar: empty functions whose contracts are the laws.
ghost use Rattle.std.specs.Prelude.{◌≡◌, ◌⊎◌, List, []};
ghost use Rattle.m_lexer.specs.declared.token.Token.{Token};
ghost use Rattle.m_ast.specs.declared.item.Item.{Item};
ghost use Rattle.m_items.specs.declared.fault.ParseFault.{ParseFault};
ghost use Rattle.m_items.specs.Grammar.{SpellsItems};
ghost use Rattle.m_items.specs.Faults.{IsShallow, IsParseFault};

/// The grammar is unambiguous: each prefix of the tokens, and thus all of them, parses as at most
/// one list of items.
pub fn one_item_list()
    ensures { (is js : List Item) (tokens rest : List Token) → SpellsItems is tokens rest → SpellsItems js tokens rest → is ≡ js }
{}

/// Tokens have at most one fault.
pub fn one_fault()
    ensures { (tokens : List Token) (f g : ParseFault) → IsParseFault tokens f → IsParseFault tokens g → f ≡ g }
{}

/// Tokens that parse as items, and are nowhere too deep, have no fault.
pub fn no_items_and_fault()
    ensures { (is : List Item) (tokens : List Token) (fault : ParseFault) → IsShallow tokens → SpellsItems is tokens [] → IsParseFault tokens fault → ⊥ }
{}

/// Tokens either parse as items and are nowhere too deep, or have a fault.
pub fn items_or_fault()
    ensures { (tokens : List Token) → (IsShallow tokens × ((items : List Item) × SpellsItems items tokens []))
        ⊎ ((fault : ParseFault) × IsParseFault tokens fault) }
{}
