//! An output that gathers bytes in a buffer of a fixed size, and gives them to another output when
//! the buffer is full.
ghost use Rattle.std.specs.Prelude.{◌≡◌, ℕ, ◌≤◌, ◌<◌, ◌+◌, ◌-◌, ◌++◌, List, Option, IfOk, OnOk, OnErr, IsOk, length, min, take, drop};
ghost use Rattle.std.specs.Borrow.{GName};
ghost use Rattle.std.specs.Io.KnownBytes.{append_known};
ghost use Rattle.m_ports.specs.Counts.{Rose};
ghost use Rattle.m_ports.specs.Giving.{Gives};
ghost use Rattle.m_ports.specs.Buffers.{Extends, free_place, gathered, with_gathered};

use crate::{Failed, Sink};
use std::marker::{Brand, PhantomData};

/// Ghost data that identifies the output of a buffer, and what was written to it when the buffer
/// was made. Nothing is known of a reference that a function keeps once the function returns; so
/// whoever makes a buffer gets the reference back from `finish`, and proves by its name that it is
/// the same one. A caller passes `Brand`, and picks the values there.
pub trait Origin {
    /// The name of the reference to the output.
    ghost name: { GName };

    /// What was written, if it is known.
    ghost start: { Option (List ℕ) };
}

impl Origin for Brand {
    ghost use Rattle.std.specs.Prelude.{None};

    ghost name = { 0 };

    ghost start = { None };
}

/// An output after a text was printed to it, and the result.
#[derive(Drop)]
pub struct Printed<'a, K> {
    /// The output.
    pub out: &'a mut K,
    /// `Failed` if a write failed.
    pub result: Result<(), Failed>,
}

/// An output that gathers bytes in a buffer of at least one byte. When the buffer is full and
/// another byte arrives, the whole buffer is given to the output; `finish` gives the rest. So a
/// text takes one call per full buffer, if the output accepts all bytes of a call. The written
/// bytes are those given followed by those gathered; a failed write doesn't change them. No call
/// takes memory. Gathered bytes are lost if `finish` isn't called.
#[derive(Drop)]
pub struct BufferedSink<'a, K: Sink, O: Origin> {
    out: &'a mut K,
    room: &'a mut [u8],
    // The buffer has `filled` bytes, of which the first `given` are given.
    given: usize,
    filled: usize,
    origin: PhantomData<O>,
    ghost some: { 0 < length room.now },
    ghost order: { given ≤ filled },
    ghost within: { filled ≤ length room.now },
    ghost same: { out.ghost_name ≡ O.name },
    ghost grew: { Extends O.start (K.written out.now) },
}

impl<'a, K: Sink, O: Origin> BufferedSink<'a, K, O> {
    /// A buffer for an output, with nothing gathered.
    pub fn new(out: &'a mut K, room: &'a mut [u8]) -> BufferedSink<'a, K, O>
        requires name { out.ghost_name ≡ O.name }
        requires start { K.written out.old ≡ O.start }
        requires some { 0 < length room.old }
        ensures out { result.out.now ≡ out.old }
        ensures name { result.out.ghost_name ≡ out.entry.ghost_name }
        ensures size { length result.room.now ≡ length room.old }
        ensures none { result.filled ≡ 0 }
        ensures written { with_gathered (K.written result.out.now) result.given result.filled result.room.now ≡ K.written out.old }
    {
        BufferedSink {
            out,
            room,
            given: 0,
            filled: 0,
            origin: PhantomData,
        }
    }

    /// Gives the gathered bytes, if everything before was printed, and returns the output.
    pub fn finish(self, printed: Result<(), Failed>) -> Printed<'a, K>
        ensures name { result.out.ghost_name ≡ self.entry.out.ghost_name }
        ensures gives { OnOk printed (Gives K.written K.faults self.entry.out.now result.out.now result.result
            (gathered self.entry.given self.entry.filled self.entry.room.now)) }
        ensures failed { OnErr printed ((result.out.now ≡ self.entry.out.now) × (result.result ≡ printed)) }
    {
        let mut last = self;
        let result = match printed {
            Ok(()) => last.flush(),
            Err(Failed) => Err(Failed),
        };
        let BufferedSink { out, .. } = last;
        Printed { out, result }
    }

    // Gives the gathered bytes. On a failure a prefix of them was given, and the rest stays
    // gathered.
    fn flush(&mut self) -> Result<(), Failed>
        ensures gives { Gives K.written K.faults self.old.out.now self.new.out.now result (gathered self.old.given self.old.filled self.old.room.now) }
        ensures written { with_gathered (K.written self.new.out.now) self.new.given self.new.filled self.new.room.now
            ≡ with_gathered (K.written self.old.out.now) self.old.given self.old.filled self.old.room.now }
        ensures none { OnOk result (self.new.given ≡ self.new.filled) }
        ensures filled { self.new.filled ≡ self.old.filled }
        ensures size { length self.new.room.now ≡ length self.old.room.now }
    {
        let room = &mut *self.room;
        let mut given = self.given;
        let result = give_room(self.out, room, self.filled, &mut given);
        self.given = given;
        result
    }

    // The size of the buffer.
    fn size(&self) -> usize
        ensures { result ≡ length self.now.room.now }
    {
        self.room.len()
    }
}

impl<'a, K: Sink, O: Origin> Sink for BufferedSink<'a, K, O> {
    ghost written = { λ s. with_gathered (K.written s.out.now) s.given s.filled s.room.now };

    ghost faults = { λ s. K.faults s.out.now };

    /// Gathers as many bytes of the piece as the buffer has space for. Only if it is full, all of
    /// it is given first.
    fn give(&mut self, piece: &[u8]) -> Result<usize, Failed>
        ensures count { IfOk result (λ n. n ≡ min (length piece.now) (free_place self.old.filled (length self.old.room.now))) }
        ensures waits { self.old.filled < length self.old.room.now → IsOk result × (self.new.out.now ≡ self.old.out.now) }
        ensures size { length self.new.room.now ≡ length self.old.room.now }
        ensures within { IfOk result (λ n. n ≤ length piece.now) }
        ensures some { IfOk result (λ n. 0 < length piece.now → 0 < n) }
        ensures appended { IfOk result (λ n. with_gathered (K.written self.new.out.now) self.new.given self.new.filled self.new.room.now
            ≡ append_known (with_gathered (K.written self.old.out.now) self.old.given self.old.filled self.old.room.now) (take n piece.now)) }
        ensures failed { OnErr result (Rose (K.faults self.old.out.now) (K.faults self.new.out.now)) }
        ensures kept { OnErr result (with_gathered (K.written self.new.out.now) self.new.given self.new.filled self.new.room.now
            ≡ with_gathered (K.written self.old.out.now) self.old.given self.old.filled self.old.room.now) }
        ensures faultless { OnOk result (K.faults self.new.out.now ≡ K.faults self.old.out.now) }
        ensures counted { K.faults self.old.out.now ≤ K.faults self.new.out.now }
    {
        let size = self.size();
        if self.filled == size {
            self.flush()?;
            self.given = 0;
            self.filled = 0;
        }
        let count = piece.len().min(size - self.filled);
        let room = &mut *self.room;
        put(room, self.filled, &piece[..count]);
        self.filled += count;
        Ok(count)
    }
}

// Gives the bytes of a buffer between two positions, and moves the first to the end of those given.
fn give_room<K: Sink>(
    out: &mut K,
    room: &mut [u8],
    filled: usize,
    given: &mut usize,
) -> Result<(), Failed>
    requires order { given.old ≤ filled }
    requires within { filled ≤ length room.old }
    ensures gives { Gives K.written K.faults out.old out.new result (gathered given.old filled room.old) }
    ensures written { with_gathered (K.written out.new) given.new filled room.new ≡ with_gathered (K.written out.old) given.old filled room.old }
    ensures within { given.new ≤ filled }
    ensures all { OnOk result (given.new ≡ filled) }
    ensures grew { (before : Option (List ℕ)) → Extends before (K.written out.old) → Extends before (K.written out.new) }
    ensures size { length room.new ≡ length room.old }
{
    give_from(out, &room[..filled], given)
}

// The same for a text, from a position to its end.
fn give_from<K: Sink>(out: &mut K, text: &[u8], given: &mut usize) -> Result<(), Failed>
    requires { given.old ≤ length text.now }
    ensures gives { Gives K.written K.faults out.old out.new result (drop given.old text.now) }
    ensures written { append_known (K.written out.new) (drop given.new text.now) ≡ append_known (K.written out.old) (drop given.old text.now) }
    ensures within { given.new ≤ length text.now }
    ensures all { OnOk result (given.new ≡ length text.now) }
    ensures grew { (before : Option (List ℕ)) → Extends before (K.written out.old) → Extends before (K.written out.new) }
{
    while *given < text.len() {
        *given += out.give(&text[*given..])?;
    }
    Ok(())
}

// Copies a piece into a buffer after its first `filled` bytes.
fn put(room: &mut [u8], filled: usize, piece: &[u8])
    requires { filled + length piece.now ≤ length room.old }
    ensures size { length room.new ≡ length room.old }
    ensures text { take (filled + length piece.now) room.new ≡ take filled room.old ++ piece.now }
{
    room[filled..filled + piece.len()].copy_from_slice(piece);
}
