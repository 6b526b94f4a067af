//! Programs in the tidy form.
ghost use Rattle.std.specs.Prelude.{◌≡◌};
ghost use Rattle.flat_code.specs.Runs.{IsFlat};
ghost use Rattle.flat_code.specs.Tidy.{IsTidy};

use crate::Flat;
use std::marker::Model;

/// A valid program in the tidy form. Contracts see it as that program.
#[derive(Drop)]
pub struct Tidy {
    flat: Flat,
}

impl Model for Tidy {
    ghost use Rattle.flat_code.specs.declared.program.Flat.{Flat};
    ghost use Rattle.flat_code.specs.Runs.{IsFlat};
    ghost use Rattle.flat_code.specs.Tidy.{IsTidy};

    ghost Value = { Flat };

    ghost view = { λ t. t.flat };

    ghost invariant = { λ t. IsFlat t.flat × IsTidy t.flat };
}

impl Tidy {
    /// Wraps a program that is in the tidy form. Takes no memory.
    pub fn new(flat: Flat) -> Tidy
        requires valid { IsFlat flat }
        requires tidy { IsTidy flat }
        ensures { result ≡ flat }
    {
        Tidy { flat }
    }

    /// The program. Takes no memory.
    pub fn flat(&self) -> &Flat
        ensures program { result.now ≡ self.now }
        ensures valid { IsFlat self.now }
        ensures tidy { IsTidy self.now }
    {
        &self.flat
    }
}
