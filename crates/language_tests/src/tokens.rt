//! Tokens in edge cases, first faults, and very long words and numbers.
use crate::readings::{Reading, check_all, is_read};
use crate::texts::{add, add_number, add_place, add_word};
use m_lexer::{Key, Kind, LexFault, Sign, Token};
use m_places::Place;
use std::alloc::Global;
use std::test::Fail;

// Texts, and their tokens: a word, a number with its millionths, or a text, each with its bytes; or a key or a sign.
// After each token its byte and its line.
static TOKENS: [(&str, &str); 20] = [
    ("", ""),
    ("# to the end", ""),
    (" \t\r\n# a\n", ""),
    ("1AJ 1_000 _", " word 1AJ 0:1 word 1_000 4:1 word _ 10:1"),
    (
        "08..10",
        " number 8000000 08 0:1 Range 2:1 number 10000000 10 4:1",
    ),
    ("1 ..", " number 1000000 1 0:1 Range 2:1"),
    ("1..", " number 1000000 1 0:1 Range 1:1"),
    ("a..b", " word a 0:1 Range 1:1 word b 3:1"),
    ("1.5A", " number 1500000 1.5 0:1 word A 3:1"),
    (
        "<= < = != >= > =",
        " LessEqual 0:1 Less 3:1 Equal 5:1 NotEqual 7:1 GreaterEqual 10:1 Greater 13:1 Equal 15:1",
    ),
    ("<<==", " Less 0:1 LessEqual 1:1 Equal 3:1"),
    (
        "+-*/()[],;:",
        " Plus 0:1 Minus 1:1 Star 2:1 Slash 3:1 OpenParen 4:1 CloseParen 5:1 OpenBracket 6:1 CloseBracket 7:1 Comma 8:1 Semicolon 9:1 Colon 10:1",
    ),
    (
        "si sinon positif positif_ou_nul X XA sI",
        " Si 0:1 Sinon 3:1 Positif 9:1 PositifOuNul 17:1 X 32:1 word XA 34:1 word sI 37:1",
    ),
    ("\"\"\"a\"", " text  0:1 text a 2:1"),
    ("\"a\nb\" c\n\"#\"", " text a\nb 0:1 word c 6:2 text # 8:3"),
    ("a\tb\r\nc", " word a 0:1 word b 2:1 word c 5:2"),
    ("a#b\"\nc", " word a 0:1 word c 5:2"),
    (
        "10000000000000.0000004",
        " number 10000000000000000000 10000000000000.0000004 0:1",
    ),
    (
        "0.0000005 0.0000004",
        " number 1 0.0000005 0:1 number 0 0.0000004 10:1",
    ),
    (
        "regle verif application enchaineur si alors sinon finsi erreur saisie calculee const tableau alias type pour un dans et ou non somme \
          present positif positif_ou_nul null arr inf abs max min anomalie discordance informative X",
        " Regle 0:1 Verif 6:1 Application 12:1 Enchaineur 24:1 Si 35:1 Alors 38:1 Sinon 44:1 Finsi 50:1 Erreur 56:1 Saisie 63:1 Calculee 70:1 \
          Const 79:1 Tableau 85:1 Alias 93:1 TypeKey 99:1 Pour 104:1 Un 109:1 Dans 112:1 Et 117:1 Ou 120:1 Non 123:1 Somme 127:1 Present 133:1 \
          Positif 141:1 PositifOuNul 149:1 Null 164:1 Arr 169:1 Inf 173:1 Abs 177:1 Max 181:1 Min 185:1 Anomalie 189:1 Discordance 198:1 \
          Informative 210:1 X 222:1",
    ),
];

// Texts that have no tokens, each with its first fault, and the byte and the line of the fault.
static FAULTS: [(&str, &str); 15] = [
    ("1.", "bad byte 1:1"),
    ("!", "bad byte 0:1"),
    (".", "bad byte 0:1"),
    ("a.b", "bad byte 1:1"),
    ("a !b", "bad byte 2:1"),
    ("12.5.3", "bad byte 4:1"),
    ("a \né", "bad byte 3:2"),
    ("\"abc", "open 0:1"),
    ("a\n \"b\nc", "open 3:2"),
    ("\"a\n\" \"", "open 5:2"),
    ("\" 99999999999999", "open 0:1"),
    ("99999999999999", "too great 0:1"),
    ("10000000000000.0000005", "too great 0:1"),
    ("a\n99999999999999 \"", "too great 2:2"),
    (
        "REV : saisie revenu classe = 0 alias 1AJ : \"s",
        "open 43:1",
    ),
];

// The tables as functions, so that proofs about their users don't expand them.

fn all_tokens() -> &'static [(&'static str, &'static str)] {
    &TOKENS
}

fn all_faults() -> &'static [(&'static str, &'static str)] {
    &FAULTS
}

fn add_key(alloc: Global, out: &mut Vec<u8>, key: Key) {
    if let Ok(name) = format!(in alloc; " {key:?}") {
        add(out, name.as_bytes());
    }
}

fn add_sign(alloc: Global, out: &mut Vec<u8>, sign: Sign) {
    if let Ok(name) = format!(in alloc; " {sign:?}") {
        add(out, name.as_bytes());
    }
}

fn add_kind(alloc: Global, out: &mut Vec<u8>, kind: &Kind) {
    match kind {
        Kind::Word(name) => {
            add(out, b" word");
            add_word(out, name.bytes());
        }
        Kind::Number(amount, name) => {
            add(out, b" number ");
            add_number(alloc, out, amount.millionths());
            add_word(out, name.bytes());
        }
        Kind::Text(name) => {
            add(out, b" text");
            add_word(out, name.bytes());
        }
        Kind::Key(key) => add_key(alloc, out, *key),
        Kind::Sign(sign) => add_sign(alloc, out, *sign),
    }
}

/// Adds tokens.
pub fn add_tokens(alloc: Global, out: &mut Vec<u8>, tokens: &[Token]) {
    for token in tokens {
        add_kind(alloc, out, &token.kind);
        add_place(alloc, out, token.place);
    }
}

fn add_at(alloc: Global, out: &mut Vec<u8>, words: &[u8], place: Place) {
    add(out, words);
    add_place(alloc, out, place);
}

/// Adds the error of a text that has no tokens.
pub fn add_fault(alloc: Global, out: &mut Vec<u8>, fault: LexFault) {
    match fault {
        LexFault::BadByte(place) => add_at(alloc, out, b"bad byte", place),
        LexFault::OpenString(place) => add_at(alloc, out, b"open", place),
        LexFault::NumberTooGreat(place) => add_at(alloc, out, b"too great", place),
        LexFault::Memory => add(out, b"memory"),
    }
}

#[test]
fn tokens_at_the_edges(rt: HostRuntime) -> Result<(), Fail> {
    check_all(rt.alloc(), Reading::Tokens, all_tokens())
}

#[test]
fn first_faults(rt: HostRuntime) -> Result<(), Fail> {
    check_all(rt.alloc(), Reading::Tokens, all_faults())
}

// Bytes that aren't UTF-8 are allowed in comments and texts, and nowhere else.
#[test]
fn bytes_above_127(rt: HostRuntime) {
    assert!(rt;
        is_read(
            rt.alloc(),
            Reading::Tokens,
            b"# \xe9\n\"\xe9\"",
            b" text \xe9 4:2"
        )
    );
    assert!(rt;
        is_read(
            rt.alloc(),
            Reading::Tokens,
            b"# \xe9\n\xe9",
            b"bad byte 4:2"
        )
    );
}

// Whether a text of these bytes is one token, which is printed as these words before the text.
fn is_one(alloc: Global, text: &[u8], words: &[u8]) -> bool {
    let mut wanted = Vec::new(alloc);
    add(&mut wanted, words);
    add_word(&mut wanted, text);
    add(&mut wanted, b" 0:1");
    is_read(alloc, Reading::Tokens, text, &wanted)
}

#[test]
fn large_words(rt: HostRuntime) -> Result<(), Fail> {
    let word = vec![in rt.alloc(); b'A'; 16_777_216]?;
    assert!(rt; is_one(rt.alloc(), &word, b" word"));
    Ok(())
}

#[test]
fn large_numbers(rt: HostRuntime) -> Result<(), Fail> {
    let mut number = vec![in rt.alloc(); b'0'; 10_000]?;
    number[9_999] = b'7';
    assert!(rt; is_one(rt.alloc(), &number, b" number 7000000"));
    number[0] = b'9';
    assert!(rt; is_read(rt.alloc(), Reading::Tokens, &number, b"too great 0:1"));
    Ok(())
}
