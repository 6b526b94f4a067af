//! An input in memory, for tests: its contents are known, and chosen calls fail.
ghost use Rattle.std.specs.Prelude.{◌≡◌, ◌<◌, ◌≤◌, ◌↔◌, [], min, length, take, IfOk, OnErr, IsErr, IsTrue};
ghost use Rattle.m_ports.specs.Counts.{is_failing};
ghost use Rattle.m_ports.specs.MemStream.{new_stream, after_fault, after_take};

use crate::counts::{count_up, is_failing};
use crate::{Failed, Source};
use std::marker::Model;

/// An input in memory. Contracts see the bytes that are left, and the counts.
#[derive(Drop)]
pub struct MemSource {
    content: Vec<u8>,
    taken: usize,
    piece: usize,
    failing: Vec<u64>,
    calls: u64,
    faults: u64,
}

impl Model for MemSource {
    ghost use Rattle.std.specs.Prelude.{◌≤◌, length, drop};
    ghost use Rattle.m_ports.specs.MemStream.{MemStream};

    ghost Value = { MemStream };

    ghost view = { λ s. record { bytes = drop s.taken s.content.items; piece = s.piece; failing = s.failing.items; calls = s.calls; faults = s.faults } };

    ghost invariant = { λ s. (s.taken ≤ length s.content.items) × (1 ≤ s.piece) };
}

impl MemSource {
    /// An input of these bytes whose calls move at most `piece` bytes each. The calls whose
    /// numbers, from 1, are in `failing` fail. Takes no memory.
    pub fn new(bytes: Vec<u8>, piece: usize, failing: Vec<u64>) -> MemSource
        requires { 1 ≤ piece }
        ensures { result ≡ new_stream bytes.items piece failing.items }
    {
        MemSource {
            content: bytes,
            taken: 0,
            piece,
            failing,
            calls: 0,
            faults: 0,
        }
    }

    /// The number of bytes that are left.
    pub fn left(&self) -> usize
        ensures { result ≡ length self.now.bytes }
    {
        self.content.len() - self.taken
    }
}

impl Source for MemSource {
    ghost use Rattle.std.specs.Prelude.{Some};

    ghost left = { λ s. Some s.bytes };

    ghost faults = { λ s. s.faults };

    /// Fails exactly if the number of the call is listed, and otherwise moves as many bytes as the
    /// limit of a call, the piece and the input allow.
    fn take(&mut self, piece: &mut [u8]) -> Result<usize, Failed>
        requires { 0 < length piece.old }

        ensures fails { IsErr result ↔ IsTrue (is_failing self.old.failing self.old.calls) }
        ensures count { IfOk result (λ n. n ≡ min self.old.piece (min (length piece.old) (length self.old.bytes))) }
        ensures end { IfOk result (λ n. n ≡ 0 → self.old.bytes ≡ []) }
        ensures moved { IfOk result (λ n. take n piece.new ≡ take n self.old.bytes) }
        ensures after { IfOk result (λ n. self.new ≡ after_take self.old n) }
        ensures after_fault { OnErr result (self.new ≡ after_fault self.old) }
        ensures counted { self.old.faults ≤ self.new.faults }
    {
        let fails = is_failing(&self.failing, self.calls);
        self.calls = count_up(self.calls);
        if fails {
            self.faults = count_up(self.faults);
            return Err(Failed);
        }
        let left = &self.content[self.taken..];
        let count = left.len().min(piece.len()).min(self.piece);
        piece[..count].copy_from_slice(&left[..count]);
        self.taken += count;
        Ok(count)
    }
}
