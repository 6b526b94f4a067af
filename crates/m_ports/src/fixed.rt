//! A text of a fixed capacity.
ghost use Rattle.std.specs.Prelude.{◌≡◌, ◌+◌, ◌<◌, ◌≤◌, [], ◌++◌, length, IfOk, OnOk, OnErr};
ghost use Rattle.m_ports.specs.Counts.{Rose};
ghost use Rattle.m_ports.specs.Texts.{no_text_in};

use crate::{Failed, Sink};
use std::alloc::{AllocError, Global};
use std::marker::Model;

/// A text in memory whose capacity is allocated at its creation: `give` appends the whole piece if
/// there is room for it, and otherwise fails and leaves the text unchanged. Contracts see the text,
/// the capacity and the count of failed calls.
///
/// Printing to it takes no memory, so a worker can print in parallel; lines without room are
/// printed to the output itself.
#[derive(Drop)]
pub struct FixedText {
    text: Vec<u8>,
    room: usize,
    faults: u64,
}

impl Model for FixedText {
    ghost use Rattle.std.specs.Prelude.{◌≤◌, length, vec_capacity};
    ghost use Rattle.m_ports.specs.Texts.{TextIn};

    ghost Value = { TextIn };

    ghost view = { λ t. record { bytes = t.text.items; room = t.room; faults = t.faults } };

    ghost invariant = { λ t. (length t.text.items ≤ t.room) × (t.room ≤ vec_capacity t.text) };
}

impl FixedText {
    /// An empty text with room for this many bytes. Its only error is running out of memory, and no
    /// later call takes memory.
    pub fn new(alloc: Global, room: usize) -> Result<FixedText, AllocError>
        ensures { IfOk result (λ text. text ≡ no_text_in room) }
    {
        Ok(FixedText {
            text: Vec::with_capacity(alloc, room)?,
            room,
            faults: 0,
        })
    }

    /// The text. Takes no memory.
    pub fn text(&self) -> &[u8]
        ensures { result.now ≡ self.now.bytes }
    {
        self.text.as_slice()
    }

    /// Empties the text. Takes no memory.
    pub fn clear(&mut self)
        ensures { self.new ≡ record { bytes = []; room = self.old.room; faults = self.old.faults } }
    {
        self.text.clear();
    }
}

impl Sink for FixedText {
    ghost use Rattle.std.specs.Prelude.{Some};

    ghost written = { λ t. Some t.bytes };

    ghost faults = { λ t. t.faults };

    /// Appends the whole piece, and fails exactly if there is no room for it. Takes no memory.
    fn give(&mut self, piece: &[u8]) -> Result<usize, Failed>
        ensures count { IfOk result (λ n. n ≡ length piece.now) }
        ensures fits { OnOk result (length self.old.bytes + length piece.now ≤ self.old.room) }
        ensures full { OnErr result (self.old.room < length self.old.bytes + length piece.now) }
        ensures text { OnOk result (self.new.bytes ≡ self.old.bytes ++ piece.now) }
        ensures kept { OnErr result (self.new.bytes ≡ self.old.bytes) }
        ensures room { self.new.room ≡ self.old.room }
        ensures failed { OnErr result (Rose self.old.faults self.new.faults) }
        ensures faultless { OnOk result (self.new.faults ≡ self.old.faults) }
        ensures counted { self.old.faults ≤ self.new.faults }
    {
        if self.room - self.text.len() < piece.len() {
            self.faults = self.faults.saturating_add(1);
            return Err(Failed);
        }
        match self.text.extend_from_slice(piece) {
            Ok(()) => Ok(piece.len()),
            Err(_) => unreachable!(),
        }
    }
}
