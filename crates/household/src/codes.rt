ghost use Rattle.std.specs.Prelude.{◌≡◌, ◌<◌, IfOk, IfSome, length, map};
ghost use Rattle.m_names.specs.Names.{AreDistinct, index_of};
ghost use Rattle.observables.specs.Inputs.{codes_of, is_of_type};
ghost use Rattle.household.specs.Household.{input_type};
ghost use Rattle.household.specs.Table.{are_fitting};

use crate::Pair;
use m_fixed::Amount;
use m_names::{Key, Names, NamesDigest};
use observables::{Coded, InputType, is_of_type};
use std::alloc::{AllocError, Global};
use std::marker::Model;

/// The inputs, indexed by code: each has a number, its position among all inputs from 0, and a
/// type. Contracts see the list of inputs.
#[derive(Drop)]
pub struct Codes {
    names: Names,
    kinds: Vec<InputType>,
    count: u32,
}

impl Model for Codes {
    ghost use Rattle.std.specs.Prelude.{◌≡◌, ◌<◌, ◌^◌, List, length};
    ghost use Rattle.observables.specs.declared.inputs.Coded.{Coded};
    ghost use Rattle.household.specs.inner.Kept.{inputs_kept};

    ghost Value = { List Coded };

    ghost view = { λ c. inputs_kept c.names c.kinds.items };

    ghost invariant = { λ c. (length c.kinds.items ≡ length c.names) × ((c.count ≡ length c.names) × (c.count < 2 ^ 32)) };
}

impl Codes {
    /// Indexes `count` inputs, given in the order of their numbers. Its only error is running out
    /// of memory.
    pub fn new(alloc: Global, inputs: &[Coded], count: u32) -> Result<Codes, AllocError>
        requires distinct { AreDistinct (codes_of inputs.now) }
        requires count { count ≡ length inputs.now }
        ensures { IfOk result (λ codes. codes ≡ inputs.now) }
    {
        let names = names_of(alloc, inputs)?;
        let kinds = kinds_of(alloc, inputs)?;
        Ok(Codes {
            names,
            kinds,
            count,
        })
    }

    /// The number of inputs. Takes no memory.
    pub fn len(&self) -> u32
        ensures { result ≡ length self.now }
    {
        self.count
    }

    /// The number of the input with a code, if there is one. Takes no memory.
    pub fn find(&self, code: &[u8]) -> Option<u32>
        ensures number { result ≡ index_of code.now (codes_of self.now) }
        ensures within { IfSome result (λ number. number < length self.now) }
    {
        self.names.number(code)
    }

    /// Whether an amount is of the type of the input with this number: 2.5 isn't if that is
    /// `Whole`. A number without an input accepts every amount. Takes no memory.
    pub fn fits(&self, input: u32, amount: Amount) -> bool
        ensures { result ≡ is_of_type (input_type self.now input) amount }
    {
        match self.kinds.get(input as usize) {
            Some(kind) => is_of_type(*kind, amount),
            None => true,
        }
    }

    /// Whether each of these amounts is of the type of its input. Takes no memory.
    pub fn all_fit(&self, pairs: &[Pair]) -> bool
        ensures { result ≡ are_fitting self.now pairs.now }
    {
        for pair in pairs {
            if !self.fits(pair.input(), pair.amount()) {
                return false;
            }
        }
        true
    }
}

// The index of the codes.
fn names_of(alloc: Global, inputs: &[Coded]) -> Result<Names, AllocError>
    requires { AreDistinct (codes_of inputs.now) }
    ensures { IfOk result (λ names. names ≡ codes_of inputs.now) }
{
    let mut names = Names::under(alloc, key_of(inputs));
    for input in inputs {
        let _fresh = names.add(alloc, input.code.bytes())?;
    }
    Ok(names)
}

// The types, by input number.
fn kinds_of(alloc: Global, inputs: &[Coded]) -> Result<Vec<InputType>, AllocError>
    ensures { IfOk result (λ kinds. kinds.items ≡ map (λ input. input.kind) inputs.now) }
{
    let mut kinds = Vec::with_capacity(alloc, inputs.len())?;
    for input in inputs {
        kinds.push(input.kind)?;
    }
    Ok(kinds)
}

// A hash key made from all codes, so that codes can't be chosen to collide.
fn key_of(inputs: &[Coded]) -> Key {
    let mut digest = NamesDigest::new();
    for input in inputs {
        digest.take(input.code.bytes());
    }
    digest.key()
}
