//! Declarations that are read, with their trees as texts, and texts that don't begin with a declaration.
use crate::items::add_item;
use crate::readings::{Reading, check_all};
use crate::terms::add_end;
use crate::texts::{add, add_number, add_word, add_words};
use m_ast::{ErrorItem, Role, VariableItem};
use m_fixed::Amount;
use m_items::{ItemFault, read_applications, read_declaration};
use m_lexer::Token;
use m_places::{ErrorKind, Name};
use std::alloc::Global;
use std::test::Fail;

// Texts that begin with a declaration; the declaration as `add_item` prints it, with the byte and the line of its
// first token; and the number of its tokens.
static DECLARATIONS: [(&str, &str); 21] = [
    (
        "REV : saisie revenu classe = 0 alias 1AJ : \"s\" ;",
        "REV input 1AJ revenu classe=0 0:1 to 12",
    ),
    (
        "\n REV : saisie alias 1AJ : \"s\" type REEL ; IRN",
        "REV input 1AJ type REEL 2:2 to 10",
    ),
    ("REV:saisie alias REV:\"\";", "REV input REV 0:1 to 8"),
    (
        "A : saisie b c = -1.5 restituee d = 2 e = -0 alias F : \"g\" type H ;",
        "A input F b restituee c=-1500000 d=2000000 e=0 type H 0:1 to 23",
    ),
    ("IRN : calculee : \"n\" ;", "IRN computed 0:1 to 6"),
    (
        "IRN : calculee base restituee : \"n\" ;",
        "IRN computed base restituee 0:1 to 8",
    ),
    (
        "IRN : calculee avfisc = 1 : \"n\" type BOOLEEN ;",
        "IRN computed avfisc=1000000 type BOOLEEN 0:1 to 11",
    ),
    ("T : tableau[3] calculee : \"t\" ;", "T table 3 0:1 to 10"),
    (
        "T : tableau[010] calculee restituee : \"t\" ;",
        "T table 10 restituee 0:1 to 11",
    ),
    (
        "T : tableau[999999999] calculee : \"t\" ;",
        "T table 999999999 0:1 to 10",
    ),
    (
        "SEUIL : const = 1000 ;",
        "SEUIL constant 1000000000 0:1 to 6",
    ),
    ("TX : const = -0.1 ;", "TX constant -100000 0:1 to 7"),
    ("1A : const = 0 ; ; ;", "1A constant 0 0:1 to 6"),
    (
        "A20 : anomalie : \"A\" : \"20\" : \"00\" : \"revenu nul\" : \"N\" ;",
        "A20 anomalie <A> <20> <00> <revenu nul> <N> 0:1 to 14",
    ),
    (
        "E1 : discordance : \"E\" : \"1\" : \"0\" : \"negative\" ;",
        "E1 discordance <E> <1> <0> <negative> 0:1 to 12",
    ),
    (
        "I : informative : \"\" : \"a:b\" : \"\n\" : \"\" : \"\" ; \"\"",
        "I informative <> <a:b> <\n> <> <> 0:1 to 14",
    ),
    ("application iliad ;", "silent 0:1 to 3"),
    ("# a\n\tapplication Iliad ; ", "silent 5:2 to 3"),
    ("enchaineur ench application : iliad ;", "silent 0:1 to 6"),
    (
        "enchaineur ench application : iliad , batch ;",
        "silent 0:1 to 8",
    ),
    (
        "A : calculee : \"t\" ; B : calculee : \"t\" ;",
        "A computed 0:1 to 6",
    ),
];

// Texts that don't begin with a declaration.
static NONE: [(&str, &str); 41] = [
    ("", "none"),
    (";", "none"),
    ("A = 1 ;", "none"),
    ("T[1] = 1 ;", "none"),
    ("regle 1 : application : iliad ; A = 1 ;", "none"),
    (
        "verif 1 : application : iliad ; si A alors erreur E ;",
        "none",
    ),
    ("Rev : const = 1 ;", "none"),
    ("REVi : calculee : \"s\" ;", "none"),
    ("X : calculee : \"s\" ;", "none"),
    ("12 : calculee : \"s\" ;", "none"),
    ("A const = 1 ;", "none"),
    ("A : const 1 ;", "none"),
    ("A : const = ;", "none"),
    ("A : const = - - 1 ;", "none"),
    ("A : const = B ;", "none"),
    ("A : const = 1", "none"),
    ("A : const = 1 : \"t\" ;", "none"),
    ("REV : saisie revenu classe = 0 : \"s\" ;", "none"),
    ("REV : saisie alias : \"s\" ;", "none"),
    ("REV : saisie alias 1 : \"s\" ;", "none"),
    ("REV : saisie alias 1AJ ;", "none"),
    ("REV : saisie alias 1AJ : s ;", "none"),
    ("REV : saisie alias 1AJ restituee : \"s\" ;", "none"),
    ("REV : tableau[3] saisie alias 1AJ : \"s\" ;", "none"),
    ("IRN : calculee alias 1AJ : \"s\" ;", "none"),
    ("IRN : calculee classe = : \"s\" ;", "none"),
    ("IRN : calculee classe = a : \"s\" ;", "none"),
    ("IRN : calculee 1 : \"s\" ;", "none"),
    ("IRN : calculee : \"s\" type ;", "none"),
    ("IRN : calculee : \"s\" type REEL", "none"),
    ("T : tableau[1234567890] calculee : \"t\" ;", "none"),
    ("T : tableau[3.0] calculee : \"t\" ;", "none"),
    ("T : tableau[N] calculee : \"t\" ;", "none"),
    ("T : tableau 3 calculee : \"t\" ;", "none"),
    ("E : anomalie : \"A\" : \"1\" : \"0\" ;", "none"),
    (
        "E : anomalie : \"A\" : \"1\" : \"0\" : \"b\" : \"N\" : \"\" ;",
        "none",
    ),
    ("E : anomalie \"A\" : \"1\" : \"0\" : \"b\" ;", "none"),
    ("E : erreur : \"A\" : \"1\" : \"0\" : \"b\" ;", "none"),
    ("application : iliad ;", "none"),
    ("enchaineur ench ;", "none"),
    ("enchaineur ench application : iliad , ;", "none"),
];

// Texts and the applications at their start, with the number of their tokens.
static APPLICATIONS: [(&str, &str); 3] = [
    ("application : iliad ;", " iliad to 3"),
    ("application : iliad , batch ;", " iliad batch to 5"),
    ("application : A", " A to 3"),
];

// Texts without applications, or with a comma after them.
static NO_APPLICATIONS: [(&str, &str); 5] = [
    ("", "none"),
    ("application iliad ;", "none"),
    ("application : ;", "none"),
    ("application : iliad , ;", "none"),
    ("application : 1 ;", "none"),
];

// The tables as functions, so that proofs about their users don't expand them.

fn all_declarations() -> &'static [(&'static str, &'static str)] {
    &DECLARATIONS
}

fn all_without() -> &'static [(&'static str, &'static str)] {
    &NONE
}

fn all_applications() -> &'static [(&'static str, &'static str)] {
    &APPLICATIONS
}

fn all_without_applications() -> &'static [(&'static str, &'static str)] {
    &NO_APPLICATIONS
}

fn add_pairs(alloc: Global, text: &mut Vec<u8>, pairs: &[(Name, Amount)]) {
    for (name, amount) in pairs {
        add_word(text, name.bytes());
        add(text, b"=");
        add_number(alloc, text, amount.millionths());
    }
}

fn add_texts(text: &mut Vec<u8>, texts: &[Name]) {
    for one in texts {
        add(text, b" <");
        add(text, one.bytes());
        add(text, b">");
    }
}

fn add_role(alloc: Global, text: &mut Vec<u8>, role: &Role) {
    match role {
        Role::Input(code) => {
            add(text, b" input");
            add_word(text, code.bytes());
        }
        Role::Computed(None) => add_word(text, b"computed"),
        Role::Computed(Some(size)) => {
            add(text, b" table ");
            add_number(alloc, text, *size as i128);
        }
        Role::Constant(amount) => {
            add(text, b" constant ");
            add_number(alloc, text, amount.millionths());
        }
    }
}

/// Adds a variable's name, role, attributes without and with a number in millionths, and type.
pub fn add_variable(alloc: Global, text: &mut Vec<u8>, variable: &VariableItem) {
    add(text, variable.name.bytes());
    add_role(alloc, text, &variable.role);
    add_words(text, variable.words.as_slice());
    add_pairs(alloc, text, variable.pairs.as_slice());
    if let Some(word) = &variable.value_word {
        add(text, b" type");
        add_word(text, word.bytes());
    }
}

fn kind_word(kind: ErrorKind) -> &'static [u8] {
    match kind {
        ErrorKind::Anomalie => b"anomalie",
        ErrorKind::Discordance => b"discordance",
        ErrorKind::Informative => b"informative",
    }
}

/// Adds an error's name, kind and texts.
pub fn add_error(text: &mut Vec<u8>, error: &ErrorItem) {
    add(text, error.name.bytes());
    add_word(text, kind_word(error.kind));
    add_texts(text, error.texts.as_slice());
}

fn add_fault(out: &mut Vec<u8>, fault: ItemFault) {
    match fault {
        ItemFault::NoItem => add(out, b"none"),
        ItemFault::Memory => add(out, b"memory"),
    }
}

/// Adds the declaration at the start of the tokens, and its end.
pub fn add_declaration(alloc: Global, out: &mut Vec<u8>, tokens: &[Token]) {
    match read_declaration(alloc, tokens) {
        Ok((item, end)) => {
            add_item(alloc, out, &item);
            add_end(alloc, out, end);
        }
        Err(fault) => add_fault(out, fault),
    }
}

/// Adds the applications at the start of the tokens, and their end.
pub fn add_applications(alloc: Global, out: &mut Vec<u8>, tokens: &[Token]) {
    match read_applications(alloc, tokens) {
        Ok((names, end)) => {
            add_words(out, names.as_slice());
            add_end(alloc, out, end);
        }
        Err(fault) => add_fault(out, fault),
    }
}

#[test]
fn declarations(rt: HostRuntime) -> Result<(), Fail> {
    check_all(rt.alloc(), Reading::Declaration, all_declarations())
}

#[test]
fn no_declarations(rt: HostRuntime) -> Result<(), Fail> {
    check_all(rt.alloc(), Reading::Declaration, all_without())
}

#[test]
fn lists_of_applications(rt: HostRuntime) -> Result<(), Fail> {
    check_all(rt.alloc(), Reading::Applications, all_applications())
}

#[test]
fn no_applications(rt: HostRuntime) -> Result<(), Fail> {
    check_all(
        rt.alloc(),
        Reading::Applications,
        all_without_applications(),
    )
}
