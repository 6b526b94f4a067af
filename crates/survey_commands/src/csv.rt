//! A field of CSV that may have any bytes.
ghost use Rattle.std.specs.Prelude.{◌≡◌, ◌∷◌, []};
ghost use Rattle.std.specs.List.{list_any};
ghost use Rattle.m_ports.specs.Giving.{Gives};
ghost use Rattle.m_text.specs.Pieces.{joined};
ghost use Rattle.survey_commands.specs.Csv.{field_text, is_special, quote, quoted_byte, quoted_bytes};

use m_ports::{Failed, Sink, give_pieces};

/// Writes a field, quoted if necessary. If a write fails, a prefix of it was appended. Takes no memory.
pub(crate) fn give_field<K: Sink>(bytes: &[u8], out: &mut K) -> Result<(), Failed>
    ensures { Gives K.written K.faults out.old out.new result (field_text bytes.now) }
{
    if has_special(bytes) {
        give_quoted(bytes, out)
    } else {
        give_pieces(out, &[bytes])
    }
}

// Whether a field has a byte for which it must be quoted.
fn has_special(bytes: &[u8]) -> bool
    ensures { result ≡ list_any is_special bytes.now }
{
    for byte in bytes {
        if is_special(*byte) {
            return true;
        }
    }
    false
}

fn is_special(byte: u8) -> bool
    ensures { result ≡ is_special byte }
{
    byte == b',' || byte == b'"' || byte == b'\r'
}

// Writes bytes between quotes.
fn give_quoted<K: Sink>(bytes: &[u8], out: &mut K) -> Result<(), Failed>
    ensures { Gives K.written K.faults out.old out.new result (joined (quote ∷ quoted_bytes bytes.now ∷ quote ∷ [])) }
{
    give_pieces(out, &[b"\""])?;
    give_bytes(bytes, out)?;
    give_pieces(out, &[b"\""])
}

fn give_bytes<K: Sink>(bytes: &[u8], out: &mut K) -> Result<(), Failed>
    ensures { Gives K.written K.faults out.old out.new result (quoted_bytes bytes.now) }
{
    for byte in bytes {
        give_byte(*byte, out)?;
    }
    Ok(())
}

fn give_byte<K: Sink>(byte: u8, out: &mut K) -> Result<(), Failed>
    ensures { Gives K.written K.faults out.old out.new result (quoted_byte byte) }
{
    if byte == b'"' {
        give_pieces(out, &[b"\"\""])
    } else {
        give_one(byte, out)
    }
}

fn give_one<K: Sink>(byte: u8, out: &mut K) -> Result<(), Failed>
    ensures { Gives K.written K.faults out.old out.new result (byte ∷ []) }
{
    let piece = [byte];
    give_pieces(out, &[&piece])
}
