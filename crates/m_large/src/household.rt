ghost use Rattle.std.specs.Prelude.{◌≡◌, ◌∷◌, [], ◌++◌, ◌≤◌, IfOk, OnOk, codes};
ghost use Rattle.m_places.specs.declared.limits.TheConstants.{LARGE};
ghost use Rattle.m_text.specs.Pieces.{joined};
ghost use Rattle.m_text.specs.Pieces.{new_line};
ghost use Rattle.m_large.specs.Large.{household_text, rows};

use itoa::Buffer;
use m_text::append_pieces;
use std::alloc::{AllocError, Global};

/// The household of `large N`: a row for each input of `large_base`. The only error is out of memory.
///
/// For N = 3: `code,amount`, `C0,0`, `C1,997` and `C2,1994`.
pub fn large_household(alloc: Global, n: u32) -> Result<Vec<u8>, AllocError>
    requires some { 1 ≤ n }
    requires few { n ≤ LARGE }
    ensures { IfOk result (λ text. text.items ≡ household_text n) }
{
    let mut text = Vec::from_slice(alloc, b"code,amount\n")?;
    append_rows(&mut text, n)?;
    Ok(text)
}

fn append_rows(text: &mut Vec<u8>, n: u32) -> Result<(), AllocError>
    requires { n ≤ LARGE }
    ensures { OnOk result (text.new.items ≡ text.old.items ++ rows n) }
{
    for k in 0..n {
        let mut code_buffer = Buffer::new();
        let code = code_buffer.format(k).as_bytes();
        let mut amount_buffer = Buffer::new();
        let amount = amount_buffer.format(997 * k % 5000).as_bytes();
        append_row(text, code, amount)?;
    }
    Ok(())
}

fn append_row<'a>(text: &mut Vec<u8>, code: &'a [u8], amount: &'a [u8]) -> Result<(), AllocError>
    ensures { OnOk result (text.new.items ≡ text.old.items ++ joined (codes "C" ∷ code.now ∷ codes "," ∷ amount.now ∷ new_line ∷ [])) }
{
    append_pieces(text, &[b"C", code, b",", amount, b"\n"])
}
