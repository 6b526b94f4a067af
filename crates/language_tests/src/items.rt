//! Lists of items with their trees as texts, and the first faults of other texts with their places.
use crate::declarations::{add_error, add_variable};
use crate::readings::{Reading, check_all};
use crate::terms::{add_header, add_term};
use crate::texts::{add, add_number, add_place, add_word, add_words};
use m_ast::{CheckItem, Formula, Header, Item, RuleItem, Slot, VerifItem};
use m_items::{ParseFault, parse};
use m_lexer::Token;
use m_places::Place;
use std::alloc::Global;
use std::test::Fail;

// Texts that are lists of items. Each item is printed as a line, as `add_item` specifies; a place as its byte and its
// line.
static LISTS: [(&str, &str); 14] = [
    ("", ""),
    ("# nothing\n", ""),
    ("REV : saisie alias 1AJ : \"s\" ;", "REV input 1AJ 0:1\n"),
    (
        "IRN : calculee restituee : \"n\" ;\nT : tableau[3] calculee : \"t\" ;",
        "IRN computed restituee 0:1\nT table 3 33:2\n",
    ),
    ("SEUIL : const = 1000 ;", "SEUIL constant 1000000000 0:1\n"),
    (
        "A20 : anomalie : \"A\" : \"20\" : \"00\" : \"revenu nul\" : \"N\" ;",
        "A20 anomalie <A> <20> <00> <revenu nul> <N> 0:1\n",
    ),
    (
        "application iliad ; enchaineur ench application : iliad , batch ;",
        "silent 0:1\nsilent 20:1\n",
    ),
    (
        "regle 11 : application : iliad ; IRN = REV ;",
        "rule 11 0:1 iliad | IRN 33:1 = REV@39\n",
    ),
    (
        "regle taux Corrective 010 : application : iliad , batch ; enchaineur : ench ; a = 1 ; B = -1 ;",
        "rule 010 0:1 iliad batch chained | a 78:1 = 1000000 | B 86:1 = (Neg 1000000)\n",
    ),
    (
        "regle 1 : application : iliad ; pour i = V,C ; j = 1 : pour un k dans (1..3) : Tik = i ; U = 2 ;",
        "rule 1 0:1 iliad |{i@37 V C}{j@47 1}{k@63 1..3} Tik 79:1 = i@85 | U 89:1 = 2000000\n",
    ),
    (
        "regle 1 : application : iliad ; T[X] = X ; T[007] = 2 ; T = 3 ;",
        "rule 1 0:1 iliad | T 32:1 [X] = X@39 | T 43:1 [7] = 2000000 | T 56:1 = 3000000\n",
    ),
    (
        "verif 21 : application : iliad ; si A alors erreur A20 ;",
        "verif 21 0:1 iliad | A20 33:1 = A@36\n",
    ),
    (
        "verif stricte 0021 : application : iliad ;\nsi A alors erreur A20 ;\nsi (B) alors erreur A21 taux base ;",
        "verif 0021 0:1 iliad | A20 43:2 = A@46 | A21 67:3 = B@71\n",
    ),
    (
        "regle 1 : application : iliad ; A = 1 ; B : const = 2 ; verif 1 : application : iliad ; si A alors erreur E ; \
         regle 1 : application : iliad ; C = 3 ; application x ;",
        "rule 1 0:1 iliad | A 32:1 = 1000000\nB constant 2000000 40:1\nverif 1 56:1 iliad | E 88:1 = A@91\nrule 1 110:1 iliad | C 142:1 = 3000000\n\
         silent 150:1\n",
    ),
];

// Texts with a fault, and the byte and the line of its token.
static FAULTS: [(&str, &str); 38] = [
    ("regle 11", "syntax 0:1"),
    ("A : calculee : \"a\" ;\nregle 11", "syntax 21:2"),
    ("application iliad ; 12", "syntax 20:1"),
    ("application iliad ;\napplication iliad", "syntax 20:2"),
    ("regle 1 : application : iliad ; ", "syntax 0:1"),
    (
        "regle 1 : application : iliad ; A : const = 1 ;",
        "syntax 0:1",
    ),
    ("regle 1 : application : iliad ; A = ;", "syntax 0:1"),
    ("regle 1 : application : iliad ; A = 1", "syntax 0:1"),
    ("regle 1 : application : iliad ; A[-1] = 1 ;", "syntax 0:1"),
    ("regle 1 : application : iliad ; A[1.0] = 1 ;", "syntax 0:1"),
    (
        "regle 1 : application : iliad ; A = 1 alors ;",
        "syntax 0:1",
    ),
    (
        "regle 1 : application : iliad ; pour I = 1 : A = 1 ;",
        "syntax 0:1",
    ),
    (
        "regle 1 : application : iliad ; pour i = 1 ; A = 1 ;",
        "syntax 0:1",
    ),
    (
        "regle 1 : application : iliad ; enchaineur : ; A = 1 ;",
        "syntax 0:1",
    ),
    ("regle 1 : application : iliad ; A == 1 ; ", "syntax 0:1"),
    (
        "regle 1 : application : iliad ; A = 1 ; B + 2 ;",
        "syntax 40:1",
    ),
    (
        "regle 1 : application : iliad ; A = 1 ;\npour i = 1 : B = (2 ;",
        "syntax 40:2",
    ),
    (
        "regle 1 : application : iliad ; A = 1 ; B = 2",
        "syntax 40:1",
    ),
    (
        "regle 1 : application : iliad ; A = 1 ; si A alors erreur E ;",
        "syntax 40:1",
    ),
    (
        "regle 1 : application : iliad ; A = 1 ; b : const = 2 ;",
        "syntax 40:1",
    ),
    (
        "regle 1 : application : iliad ; A = 1 ; enchaineur : e ; B = 2 ;",
        "syntax 40:1",
    ),
    ("regle : application : iliad ; A = 1 ;", "syntax 0:1"),
    ("regle 1.0 : application : iliad ; A = 1 ;", "syntax 0:1"),
    (
        "regle 1234567890 : application : iliad ; A = 1 ;",
        "syntax 0:1",
    ),
    ("regle 1 : application : iliad , ; A = 1 ;", "syntax 0:1"),
    ("regle 1 2 : application : iliad ; A = 1 ;", "syntax 0:1"),
    ("A = 1 ;", "syntax 0:1"),
    ("si A alors erreur E ;", "syntax 0:1"),
    ("verif 1 : application : iliad ; ", "syntax 0:1"),
    ("verif 1 : application : iliad ; A = 1 ;", "syntax 0:1"),
    (
        "verif 1 : application : iliad ; si A alors erreur ;",
        "syntax 0:1",
    ),
    (
        "verif 1 : application : iliad ; si A alors erreur E",
        "syntax 0:1",
    ),
    (
        "verif 1 : application : iliad ; si A alors E ;",
        "syntax 0:1",
    ),
    (
        "verif 1 : application : iliad ; si A sinon erreur E ;",
        "syntax 0:1",
    ),
    (
        "verif 1 : application : iliad ; si A alors erreur E ; si B alors erreur anomalie ;",
        "syntax 54:1",
    ),
    (
        "verif 1 : application : iliad ; si A alors erreur E ; A = 1 ;",
        "syntax 54:1",
    ),
    ("; application iliad ;", "syntax 0:1"),
    ("# c\n)", "syntax 4:2"),
];

// The tables as functions, so that proofs about their users don't expand them.

fn all_lists() -> &'static [(&'static str, &'static str)] {
    &LISTS
}

fn all_faults() -> &'static [(&'static str, &'static str)] {
    &FAULTS
}

fn add_placed(alloc: Global, text: &mut Vec<u8>, name: &[u8], place: Place) {
    add_word(text, name);
    add_place(alloc, text, place);
}

fn add_loops(alloc: Global, text: &mut Vec<u8>, loops: &[Header]) {
    for header in loops {
        add_header(alloc, text, header);
    }
}

fn add_slot(alloc: Global, text: &mut Vec<u8>, slot: Slot) {
    match slot {
        Slot::Whole => {}
        Slot::Every => add(text, b" [X]"),
        Slot::Cell(number) => {
            add(text, b" [");
            add_number(alloc, text, number as i128);
            add(text, b"]");
        }
    }
}

fn add_formula(alloc: Global, text: &mut Vec<u8>, formula: &Formula) {
    add(text, b" |");
    add_loops(alloc, text, formula.loops.as_slice());
    add_placed(alloc, text, formula.target.bytes(), formula.place);
    add_slot(alloc, text, formula.slot);
    add(text, b" = ");
    add_term(alloc, text, &formula.term);
}

fn add_chained(text: &mut Vec<u8>, chained: bool) {
    if chained {
        add(text, b" chained");
    }
}

fn add_rule(alloc: Global, text: &mut Vec<u8>, rule: &RuleItem) {
    add(text, b"rule");
    add_placed(alloc, text, rule.number.bytes(), rule.place);
    add_words(text, rule.applications.as_slice());
    add_chained(text, rule.chained);
    for formula in rule.formulas.as_slice() {
        add_formula(alloc, text, formula);
    }
}

fn add_check(alloc: Global, text: &mut Vec<u8>, check: &CheckItem) {
    add(text, b" |");
    add_placed(alloc, text, check.error.bytes(), check.place);
    add(text, b" = ");
    add_term(alloc, text, &check.condition);
}

fn add_verification(alloc: Global, text: &mut Vec<u8>, verification: &VerifItem) {
    add(text, b"verif");
    add_placed(alloc, text, verification.number.bytes(), verification.place);
    add_words(text, verification.applications.as_slice());
    for check in verification.checks.as_slice() {
        add_check(alloc, text, check);
    }
}

/// Adds an item: a declaration and its place; a rule's number, place and applications, whether it is chained, and its formulas: loops,
/// target, place, index and term; a verification's number, place and applications, and its checks: error, place and condition.
pub fn add_item(alloc: Global, text: &mut Vec<u8>, item: &Item) {
    match item {
        Item::Variable(variable) => {
            add_variable(alloc, text, variable);
            add_place(alloc, text, variable.place);
        }
        Item::Error(error) => {
            add_error(text, error);
            add_place(alloc, text, error.place);
        }
        Item::Silent(place) => {
            add(text, b"silent");
            add_place(alloc, text, *place);
        }
        Item::Rule(rule) => add_rule(alloc, text, rule),
        Item::Verif(verification) => add_verification(alloc, text, verification),
    }
}

fn add_all(alloc: Global, text: &mut Vec<u8>, items: &[Item]) {
    for item in items {
        add_item(alloc, text, item);
        add(text, b"\n");
    }
}

fn add_at(alloc: Global, text: &mut Vec<u8>, words: &[u8], place: Place) {
    add(text, words);
    add_place(alloc, text, place);
}

/// Adds the items of these tokens, or their error.
pub fn add_items(alloc: Global, text: &mut Vec<u8>, tokens: &[Token]) {
    match parse(alloc, tokens) {
        Ok(items) => add_all(alloc, text, items.as_slice()),
        Err(ParseFault::TooDeep(place)) => add_at(alloc, text, b"deep", place),
        Err(ParseFault::Syntax(place)) => add_at(alloc, text, b"syntax", place),
        Err(ParseFault::Memory) => add(text, b"memory"),
    }
}

#[test]
fn lists_of_items(rt: HostRuntime) -> Result<(), Fail> {
    check_all(rt.alloc(), Reading::Items, all_lists())
}

#[test]
fn first_faults(rt: HostRuntime) -> Result<(), Fail> {
    check_all(rt.alloc(), Reading::Items, all_faults())
}
