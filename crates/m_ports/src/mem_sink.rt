//! An output in memory, for tests: its contents are known, and chosen calls fail.
ghost use Rattle.std.specs.Prelude.{◌≡◌, ◌<◌, ◌≤◌, ◌-◌, ◌↔◌, ◌⊎◌, [], min, length, IfOk, OnOk, OnErr, IsErr, IsTrue};
ghost use Rattle.m_ports.specs.Counts.{is_failing};
ghost use Rattle.m_ports.specs.MemStream.{new_stream, after_fault, after_give};

use crate::counts::{count_up, is_failing};
use crate::{Failed, Sink};
use std::alloc::{AllocError, Global};
use std::marker::Model;

/// The capacity of an output in memory, in bytes.
pub const ROOM: usize = 1_048_576;

/// An output in memory of `ROOM` bytes, allocated at its creation because `give` takes no memory.
/// Contracts see the written bytes and the counts.
#[derive(Drop)]
pub struct MemSink {
    content: Vec<u8>,
    piece: usize,
    failing: Vec<u64>,
    calls: u64,
    faults: u64,
}

impl Model for MemSink {
    ghost use Rattle.std.specs.Prelude.{◌≤◌, length, vec_capacity};
    ghost use Rattle.m_ports.specs.MemStream.{MemStream};
    ghost use Rattle.m_ports.specs.declared.mem_sink.TheConstants.{ROOM};

    ghost Value = { MemStream };

    ghost view = { λ s. record { bytes = s.content.items; piece = s.piece; failing = s.failing.items; calls = s.calls; faults = s.faults } };

    ghost invariant = { λ s. (length s.content.items ≤ ROOM) × (ROOM ≤ vec_capacity s.content) × (1 ≤ s.piece) };
}

impl MemSink {
    /// An empty output whose calls append at most `piece` bytes each. The calls whose numbers are
    /// in `failing` fail; calls with at least one byte are numbered from 1. Its only error is
    /// running out of memory, and no later call takes memory.
    pub fn new(alloc: Global, piece: usize, failing: Vec<u64>) -> Result<MemSink, AllocError>
        requires { 1 ≤ piece }
        ensures { IfOk result (λ sink. sink ≡ new_stream [] piece failing.items) }
    {
        Ok(MemSink {
            content: Vec::with_capacity(alloc, ROOM)?,
            piece,
            failing,
            calls: 0,
            faults: 0,
        })
    }

    /// The written bytes. Takes no memory.
    pub fn written(&self) -> &[u8]
        ensures { result.now ≡ self.now.bytes }
    {
        self.content.as_slice()
    }
}

impl Sink for MemSink {
    ghost use Rattle.std.specs.Prelude.{Some};

    ghost written = { λ s. Some s.bytes };

    ghost faults = { λ s. s.faults };

    /// An empty piece is accepted and not counted. Any other call fails exactly if its number is
    /// listed or the capacity is reached, and otherwise appends as many bytes as the limit of a
    /// call, the piece and the capacity allow.
    fn give(&mut self, piece: &[u8]) -> Result<usize, Failed>
        ensures empty { piece.now ≡ [] → (result ≡ Ok 0) × (self.new ≡ self.old) }
        ensures fails { 0 < length piece.now →
            (IsErr result ↔ (IsTrue (is_failing self.old.failing self.old.calls) ⊎ (length self.old.bytes ≡ ROOM))) }
        ensures count { IfOk result (λ n. n ≡ min self.old.piece (min (length piece.now) (ROOM - length self.old.bytes))) }
        ensures some { IfOk result (λ n. 0 < length piece.now → 0 < n) }
        ensures after { 0 < length piece.now → IfOk result (λ n. self.new ≡ after_give self.old piece.now n) }
        ensures after_fault { OnErr result (self.new ≡ after_fault self.old) }
        ensures counted { self.old.faults ≤ self.new.faults }
    {
        if piece.is_empty() {
            return Ok(0);
        }
        let fails = is_failing(&self.failing, self.calls) || self.content.len() == ROOM;
        self.calls = count_up(self.calls);
        if fails {
            self.faults = count_up(self.faults);
            return Err(Failed);
        }
        let count = piece.len().min(self.piece).min(ROOM - self.content.len());
        match self.content.extend_from_slice(&piece[..count]) {
            Ok(()) => Ok(count),
            Err(_) => unreachable!(),
        }
    }
}
