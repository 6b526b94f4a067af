//! The values of whole numbers.
ghost use Rattle.std.specs.Prelude.{◌≡◌, IsTrue};
ghost use Rattle.std.specs.Str.Parse.{digits_value};
ghost use Rattle.m_terms.specs.Tokens.{is_whole};

use m_places::Name;

/// The number that one to nine digits denote: 10 for `010`. Takes no memory.
pub fn whole_value(spelling: &Name) -> u32
    requires { IsTrue (is_whole spelling.now) }
    ensures { result ≡ digits_value 10 spelling.now }
{
    let mut value = 0;
    for byte in spelling.bytes() {
        value = value * 10 + (*byte - b'0') as u32;
    }
    value
}
