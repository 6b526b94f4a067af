//! Texts given to an output in pieces, without memory.
ghost use Rattle.m_ports.specs.Giving.{Gives};
ghost use Rattle.m_text.specs.Pieces.{text_of};

use crate::{Failed, Sink, give_all};

/// Gives the concatenation of the pieces: `give_pieces(out, &[b"refused ", b"syntax", b"\n"])`
/// gives `refused syntax` and a line feed. On a failure a prefix of the text was appended. Takes no
/// memory.
pub fn give_pieces<K: Sink>(out: &mut K, pieces: &[&[u8]]) -> Result<(), Failed>
    ensures { Gives K.written K.faults out.old out.new result (text_of pieces.now) }
{
    for piece in pieces {
        give_all(out, piece)?;
    }
    Ok(())
}
