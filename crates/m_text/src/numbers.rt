//! Whole numbers of one to nine digits.

ghost use Rattle.std.specs.Prelude.{◌≡◌, ◌≤◌, IsTrue, length};
ghost use Rattle.std.specs.List.{list_all};
ghost use Rattle.std.specs.Str.Parse.{digits_value};
ghost use Rattle.m_text.specs.Bytes.{is_digit};
ghost use Rattle.m_text.specs.Numbers.{whole_number};

/// The number that one to nine digits denote, and `None` for any other text. Takes no memory.
///
/// `010` is 10; `1.0`, `1234567890` and the empty text are none.
#[tactic(auto, unfolding(crate::specs::Numbers::whole_number))]
pub fn whole_number(text: &[u8]) -> Option<u32>
    ensures { result ≡ whole_number text.now }
{
    if only_digits(text) && text.len() > 0 && text.len() <= 9 {
        return Some(value_of(text));
    }
    None
}

// Whether every byte is a digit.
fn only_digits(text: &[u8]) -> bool
    ensures { result ≡ list_all is_digit text.now }
{
    text.iter().all(|byte| byte.is_ascii_digit())
}

// The value of the digits.
fn value_of(text: &[u8]) -> u32
    requires digits { IsTrue (list_all is_digit text.now) }
    requires short { length text.now ≤ 9 }
    ensures { result ≡ digits_value 10 text.now }
{
    let mut value = 0;
    for byte in text {
        value = value * 10 + (*byte - b'0') as u32;
    }
    value
}
