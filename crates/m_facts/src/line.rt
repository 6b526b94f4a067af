//! The line of a fact.
ghost use Rattle.std.specs.Prelude.{◌≡◌, ◌∷◌, [], codes};
ghost use Rattle.m_ports.specs.Giving.{Gives};
ghost use Rattle.m_text.specs.Pieces.{joined, new_line};
ghost use Rattle.m_fixed.specs.Text.{printed};
ghost use Rattle.m_facts.specs.Lines.{fact_line};
ghost use Rattle.m_facts.specs.inner.Parts.{words_alone, words_after};

use definedness::Fact;
use m_fixed::{Amount, write_amount};
use m_ports::{Failed, Sink, give_pieces};

/// Writes the line of a cell's name and fact, as `IRN 0 to 9000 or undefined`, with its line feed.
/// After a failure, a prefix of the line is written. Takes no memory.
pub(crate) fn print_fact<K: Sink>(name: &[u8], fact: Fact, out: &mut K) -> Result<(), Failed>
    ensures { Gives K.written K.faults out.old out.new result (fact_line name.now fact) }
{
    match fact.range {
        None => give_words(name, words_alone(fact.undef, fact.over), out),
        Some((low, high)) => {
            let words = words_after(fact.undef, fact.over);
            if low == high {
                print_number(name, low, words, out)
            } else {
                print_interval(name, low, high, words, out)
            }
        }
    }
}

// The text of a fact by which no number is possible.
fn words_alone(undef: bool, over: bool) -> &'static [u8]
    ensures { result.now ≡ words_alone undef over }
{
    if undef {
        if over {
            b"undefined or over"
        } else {
            b"undefined"
        }
    } else if over {
        b"over"
    } else {
        b""
    }
}

// The text after the possible numbers.
fn words_after(undef: bool, over: bool) -> &'static [u8]
    ensures { result.now ≡ words_after undef over }
{
    if undef {
        if over {
            b" or undefined or over"
        } else {
            b" or undefined"
        }
    } else if over {
        b" or over"
    } else {
        b""
    }
}

fn give_words<'a, K: Sink>(name: &'a [u8], words: &'a [u8], out: &mut K) -> Result<(), Failed>
    ensures { Gives K.written K.faults out.old out.new result (joined (name.now ∷ codes " " ∷ words.now ∷ new_line ∷ [])) }
{
    give_pieces(out, &[name, b" ", words, b"\n"])
}

fn print_number<K: Sink>(
    name: &[u8],
    number: Amount,
    words: &[u8],
    out: &mut K,
) -> Result<(), Failed>
    ensures { Gives K.written K.faults out.old out.new result (joined (name.now ∷ codes " " ∷ printed number ∷ words.now ∷ new_line ∷ [])) }
{
    let mut room = [0; 32];
    let length = write_amount(number, &mut room);
    give_number(name, &room[..length], words, out)
}

fn give_number<'a, K: Sink>(
    name: &'a [u8],
    number: &'a [u8],
    words: &'a [u8],
    out: &mut K,
) -> Result<(), Failed>
    ensures { Gives K.written K.faults out.old out.new result (joined (name.now ∷ codes " " ∷ number.now ∷ words.now ∷ new_line ∷ [])) }
{
    give_pieces(out, &[name, b" ", number, words, b"\n"])
}

fn print_interval<K: Sink>(
    name: &[u8],
    low: Amount,
    high: Amount,
    words: &[u8],
    out: &mut K,
) -> Result<(), Failed>
    ensures { Gives K.written K.faults out.old out.new result
        (joined (name.now ∷ codes " " ∷ printed low ∷ codes " to " ∷ printed high ∷ words.now ∷ new_line ∷ [])) }
{
    let mut room = [0; 32];
    let length = write_amount(low, &mut room);
    print_up_to(name, &room[..length], high, words, out)
}

fn print_up_to<K: Sink>(
    name: &[u8],
    low: &[u8],
    high: Amount,
    words: &[u8],
    out: &mut K,
) -> Result<(), Failed>
    ensures { Gives K.written K.faults out.old out.new result
        (joined (name.now ∷ codes " " ∷ low.now ∷ codes " to " ∷ printed high ∷ words.now ∷ new_line ∷ [])) }
{
    let mut room = [0; 32];
    let length = write_amount(high, &mut room);
    give_interval(name, low, &room[..length], words, out)
}

fn give_interval<'a, K: Sink>(
    name: &'a [u8],
    low: &'a [u8],
    high: &'a [u8],
    words: &'a [u8],
    out: &mut K,
) -> Result<(), Failed>
    ensures { Gives K.written K.faults out.old out.new result
        (joined (name.now ∷ codes " " ∷ low.now ∷ codes " to " ∷ high.now ∷ words.now ∷ new_line ∷ [])) }
{
    give_pieces(out, &[name, b" ", low, b" to ", high, words, b"\n"])
}
