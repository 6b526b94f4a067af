//! The facts of nodes as a builder stores them: 24 bytes for each node.
ghost use Rattle.std.specs.Prelude.{◌≡◌, ◌<◌, ◌≤◌, ◌∷◌, [], ◌++◌, length, take, OnOk, OnErr, slice_index_or};
ghost use Rattle.m_fixed.specs.Amounts.{IsAmount, most};
ghost use Rattle.m_fixed.specs.Rounding.{signed};
ghost use Rattle.definedness.specs.Facts.{Possible, IsFact, fact_of_input};
ghost use Rattle.fold_terms.specs.inner.Packed.{unpacked};

use definedness::Fact;
use m_fixed::Amount;
use std::alloc::{AllocError, Global};
use std::marker::Model;

/// A stored fact: whether undefined, `Over` and numbers are possible, and sign and magnitude of the
/// least and the greatest number.
#[derive(Clone, Copy)]
pub struct PackedFact {
    pub undef: bool,
    pub over: bool,
    pub numbers: bool,
    pub low_negative: bool,
    pub high_negative: bool,
    pub low: u64,
    pub high: u64,
}

// A number as sign and magnitude, in millionths.
#[derive(Clone, Copy)]
struct Signed {
    negative: bool,
    size: u64,
}

fn signed_of(amount: Amount) -> Signed
    ensures { signed result.negative result.size ≡ amount }
{
    let millionths = amount.millionths();
    Signed {
        negative: millionths < 0,
        size: millionths.unsigned_abs() as u64,
    }
}

fn amount_of(negative: bool, size: u64) -> Amount
    requires { IsAmount (signed negative size) }
    ensures { result ≡ signed negative size }
{
    let millionths = if negative {
        -(size as i128)
    } else {
        size as i128
    };
    match Amount::new(millionths) {
        Some(amount) => amount,
        None => Amount::zero(),
    }
}

// Encodes a fact.
fn packed(fact: Fact) -> PackedFact
    ensures { unpacked result ≡ fact }
{
    match fact.range {
        None => PackedFact {
            undef: fact.undef,
            over: fact.over,
            numbers: false,
            low_negative: false,
            high_negative: false,
            low: 0,
            high: 0,
        },
        Some((low, high)) => {
            let low = signed_of(low);
            let high = signed_of(high);
            PackedFact {
                undef: fact.undef,
                over: fact.over,
                numbers: true,
                low_negative: low.negative,
                high_negative: high.negative,
                low: low.size,
                high: high.size,
            }
        }
    }
}

// Decodes a fact.
fn opened_fact(packed: PackedFact) -> Fact
    requires { IsFact (unpacked packed) }
    ensures { result ≡ unpacked packed }
{
    let range = if packed.numbers {
        Some((
            amount_of(packed.low_negative, packed.low),
            amount_of(packed.high_negative, packed.high),
        ))
    } else {
        None
    };
    Fact {
        undef: packed.undef,
        over: packed.over,
        range,
    }
}

/// The facts of nodes, in order. Contracts see them as their list.
#[derive(Drop)]
pub struct KnownFacts {
    packed: Vec<PackedFact>,
}

impl Model for KnownFacts {
    ghost use Rattle.std.specs.Prelude.{List};
    ghost use Rattle.definedness.specs.Facts.{Possible};
    ghost use Rattle.fold_terms.specs.inner.Packed.{facts_kept};

    ghost Value = { List Possible };

    ghost view = { λ known. facts_kept known.packed.items };
}

impl KnownFacts {
    /// No facts. Takes no memory.
    pub fn new(alloc: Global) -> KnownFacts
        ensures { result ≡ [] }
    {
        KnownFacts {
            packed: Vec::new(alloc),
        }
    }

    /// The fact at a place, from 0.
    pub fn at(&self, place: u32) -> Fact
        requires within { place < length self.now }
        requires fact { IsFact (slice_index_or self.now place fact_of_input) }
        ensures { result ≡ slice_index_or self.now place fact_of_input }
    {
        opened_fact(self.packed[place as usize])
    }

    /// Appends a fact.
    pub fn push(&mut self, fact: Fact) -> Result<(), AllocError>
        ensures ok { OnOk result (self.new ≡ self.old ++ fact ∷ []) }
        ensures err { OnErr result (self.new ≡ self.old) }
    {
        self.packed.push(packed(fact))?;
        Ok(())
    }

    /// Keeps the first `count` facts.
    pub fn truncate(&mut self, count: usize)
        ensures { self.new ≡ take count self.old }
    {
        self.packed.truncate(count);
    }
}
