//! Laws of the grammar of declarations: empty functions whose contracts are the laws.
ghost use Rattle.std.specs.Prelude.{◌≡◌, ℕ, List};
ghost use Rattle.m_lexer.specs.declared.token.Token.{Token};
ghost use Rattle.m_ast.specs.declared.item.Item.{Item};
ghost use Rattle.m_items.specs.DeclarationGrammar.{SpellsDeclaration, SpellsApplications};
ghost use Rattle.m_items.specs.Standing.{BeginsDeclaration, EndsApplications};

/// The grammar is unambiguous: at most one prefix of the tokens parses as a declaration, and only
/// as one.
pub fn one_declaration()
    ensures { (i j : Item) (ts r s : List Token) → SpellsDeclaration i ts r → SpellsDeclaration j ts s → (i ≡ j) × (r ≡ s) }
{}

/// At most one prefix of the tokens that no comma follows parses as a list of applications, and
/// only as one.
pub fn one_list_of_applications()
    ensures { (a b : List (List ℕ)) (ts r s : List Token) → SpellsApplications a ts r → EndsApplications r
        → SpellsApplications b ts s → EndsApplications s → (a ≡ b) × (r ≡ s) }
{}

/// The first tokens of a declaration satisfy `BeginsDeclaration`.
pub fn declarations_begin()
    ensures { (i : Item) (ts rest : List Token) → SpellsDeclaration i ts rest → BeginsDeclaration ts }
{}
