use m_fixed::Amount;
use m_places::{Name, Place};

/// A reserved word of M.
#[derive(Clone, Copy, Debug, PartialEq, Eq)]
pub enum Key {
    Regle,
    Verif,
    Application,
    Enchaineur,
    Si,
    Alors,
    Sinon,
    Finsi,
    Erreur,
    Saisie,
    Calculee,
    Const,
    Tableau,
    Alias,
    TypeKey,
    Pour,
    Un,
    Dans,
    Et,
    Ou,
    Non,
    Somme,
    Present,
    Positif,
    PositifOuNul,
    Null,
    Arr,
    Inf,
    Abs,
    Max,
    Min,
    Anomalie,
    Discordance,
    Informative,
    X,
}

/// A sign of M.
#[derive(Clone, Copy, Debug, PartialEq, Eq)]
pub enum Sign {
    Plus,
    Minus,
    Star,
    Slash,
    Equal,
    NotEqual,
    Less,
    LessEqual,
    Greater,
    GreaterEqual,
    OpenParen,
    CloseParen,
    OpenBracket,
    CloseBracket,
    Comma,
    Semicolon,
    Colon,
    Range,
}

/// The kind of a token, with its value.
#[derive(Drop)]
pub enum Kind {
    /// A word that isn't reserved, as spelled.
    Word(Name),
    /// A number: its amount, rounded at the sixth decimal, and its spelling.
    Number(Amount, Name),
    /// The bytes between the quotes of a text.
    Text(Name),
    /// A reserved word.
    Key(Key),
    /// A sign.
    Sign(Sign),
}

/// A token and the place of its first byte.
#[derive(Drop)]
pub struct Token {
    pub kind: Kind,
    pub place: Place,
}
