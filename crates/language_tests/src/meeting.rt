//! Rule files that one worker can't read alone: the first waits for the last, and the last for the first.
ghost use Rattle.std.specs.Prelude.{◌≡◌, ◌≤◌, IfOk, length};
ghost use Rattle.m_places.specs.SourceLimits.{TextsAreWithin, EachIsWithin};

use m_ast::Item;
use m_places::{Gate, Name, Seq, Text};
use rule_base::read_all;
use std::alloc::{AllocError, Global};
use std::sync::atomic::{AtomicU64, Ordering};
use std::test::Fail;
use std::thread::Threads;

// The rules of each text: a constant, an input, a computed variable, and a rule.
const RULES: &[u8] =
    b"SEUIL : const = 1000 ;\nREV : saisie alias 1AJ : \"r\" ;\nIRN : calculee : \"i\" ;\nregle 1 : application : iliad ; IRN = max(0, REV - SEUIL) ;\n";

// The number of files.
const FILES: usize = 256;

// The flags are 1 once the worker of the file has arrived, and the `saw` values once it has seen the other's flag.
#[derive(Drop)]
struct Both {
    first: AtomicU64,
    last: AtomicU64,
    first_saw: AtomicU64,
    last_saw: AtomicU64,
}

fn meet(own: &AtomicU64, other: &AtomicU64, saw: &AtomicU64) {
    own.store(1, Ordering::SeqCst);
    for _ in 0..200_000_000u64 {
        if other.load(Ordering::SeqCst) == 1 {
            saw.store(1, Ordering::SeqCst);
            return;
        }
    }
}

impl Gate for Both {
    fn pass(&self, n: u32) {
        match n {
            0 => meet(&self.first, &self.last, &self.first_saw),
            255 => meet(&self.last, &self.first, &self.last_saw),
            _ => {}
        }
    }
}

/// A text with these rules.
pub fn text_of(alloc: Global, rules: &[u8]) -> Result<Text, AllocError>
    requires { length rules.now ≤ 4096 }
    ensures { IfOk result (λ text. length text.bytes ≤ 4096) }
{
    Ok(Text {
        name: Name::new(alloc, b"a.m")?,
        bytes: Seq::from_vec(Vec::from_slice(alloc, rules)?),
    })
}

// This many texts with these rules.
fn texts_of(alloc: Global, rules: &[u8], count: usize) -> Result<Vec<Text>, AllocError>
    requires rules { length rules.now ≤ 4096 }
    requires count { count ≤ 1024 }
    ensures { IfOk result (λ texts. TextsAreWithin texts.items) }
{
    let mut texts = Vec::new(alloc);
    for _ in 0..count {
        texts.push(text_of(alloc, rules)?)?;
    }
    Ok(texts)
}

// Whether these files have four items each.
fn are_rules(files: &[Seq<Item>]) -> bool {
    for items in files {
        if items.as_slice().len() != 4 {
            return false;
        }
    }
    true
}

// Whether this many files are read, each as four items.
fn are_read<R: Threads + Sync>(rt: &R, alloc: Global, texts: &[Text], gate: &Both) -> bool
    requires { TextsAreWithin texts.now }
{
    match read_all(rt, alloc, texts, gate) {
        Ok(files) => files.as_slice().len() == FILES && are_rules(files.as_slice()),
        Err(_) => false,
    }
}

#[test]
fn two_workers_meet(rt: HostRuntime) -> Result<(), Fail> {
    let gate = Both {
        first: AtomicU64::new(0),
        last: AtomicU64::new(0),
        first_saw: AtomicU64::new(0),
        last_saw: AtomicU64::new(0),
    };
    let texts = texts_of(rt.alloc(), RULES, FILES)?;
    assert!(rt; are_read(&rt, rt.alloc(), &texts, &gate));
    assert!(rt; gate.first_saw.load(Ordering::SeqCst) == 1);
    assert!(rt; gate.last_saw.load(Ordering::SeqCst) == 1);
    Ok(())
}
