//! The reserved words of M.

ghost use Rattle.std.specs.Prelude.{◌≡◌, ◌≢◌, ◌<◌, MatchOption, Contains, length, slice_index};
ghost use Rattle.m_lexer.specs.declared.token.Key.{Key};
ghost use Rattle.m_lexer.specs.Spellings.{key_spelling};

use crate::token::Key;

impl Key {
    /// The spelling of the word.
    pub(crate) fn spelling(self) -> &'static [u8]
        ensures { result.now ≡ key_spelling self }
    {
        match self {
            Key::Regle => b"regle",
            Key::Verif => b"verif",
            Key::Application => b"application",
            Key::Enchaineur => b"enchaineur",
            Key::Si => b"si",
            Key::Alors => b"alors",
            Key::Sinon => b"sinon",
            Key::Finsi => b"finsi",
            Key::Erreur => b"erreur",
            Key::Saisie => b"saisie",
            Key::Calculee => b"calculee",
            Key::Const => b"const",
            Key::Tableau => b"tableau",
            Key::Alias => b"alias",
            Key::TypeKey => b"type",
            Key::Pour => b"pour",
            Key::Un => b"un",
            Key::Dans => b"dans",
            Key::Et => b"et",
            Key::Ou => b"ou",
            Key::Non => b"non",
            Key::Somme => b"somme",
            Key::Present => b"present",
            Key::Positif => b"positif",
            Key::PositifOuNul => b"positif_ou_nul",
            Key::Null => b"null",
            Key::Arr => b"arr",
            Key::Inf => b"inf",
            Key::Abs => b"abs",
            Key::Max => b"max",
            Key::Min => b"min",
            Key::Anomalie => b"anomalie",
            Key::Discordance => b"discordance",
            Key::Informative => b"informative",
            Key::X => b"X",
        }
    }
}

// The reserved words that begin with this byte.
fn keys_from(first: u8) -> &'static [Key]
    ensures { (k : Key) → slice_index (key_spelling k) 0 ≡ first → Contains result.now k }
{
    match first {
        b'X' => &[Key::X],
        b'a' => &[
            Key::Application,
            Key::Alors,
            Key::Alias,
            Key::Arr,
            Key::Abs,
            Key::Anomalie,
        ],
        b'c' => &[Key::Calculee, Key::Const],
        b'd' => &[Key::Dans, Key::Discordance],
        b'e' => &[Key::Enchaineur, Key::Erreur, Key::Et],
        b'f' => &[Key::Finsi],
        b'i' => &[Key::Inf, Key::Informative],
        b'm' => &[Key::Max, Key::Min],
        b'n' => &[Key::Non, Key::Null],
        b'o' => &[Key::Ou],
        b'p' => &[Key::Pour, Key::Present, Key::Positif, Key::PositifOuNul],
        b'r' => &[Key::Regle],
        b's' => &[Key::Si, Key::Sinon, Key::Saisie, Key::Somme],
        b't' => &[Key::Tableau, Key::TypeKey],
        b'u' => &[Key::Un],
        b'v' => &[Key::Verif],
        _ => &[],
    }
}

/// The reserved word with this spelling.
pub fn key_of(word: &[u8]) -> Option<Key>
    requires { 0 < length word.now }
    ensures { MatchOption result
        ((k : Key) → word.now ≢ key_spelling k)
        (λ k. word.now ≡ key_spelling k) }
{
    for key in keys_from(word[0]) {
        if word == key.spelling() {
            return Some(*key);
        }
    }
    None
}
