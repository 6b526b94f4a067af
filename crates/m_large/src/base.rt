ghost use Rattle.std.specs.Prelude.{◌≡◌, ◌∷◌, [], ◌++◌, ◌+◌, ◌-◌, ◌<◌, ◌≤◌, ◌^◌, IfOk, OnOk, codes, decimal};
ghost use Rattle.m_places.specs.declared.limits.TheConstants.{LARGE};
ghost use Rattle.m_text.specs.Pieces.{joined};
ghost use Rattle.m_text.specs.Pieces.{new_line};
ghost use Rattle.m_large.specs.Large.{base_name, base_text, declarations, rule, rules, first_rule, check};

use itoa::Buffer;
use m_places::{Name, Seq, Text};
use m_text::append_pieces;
use std::alloc::{AllocError, Global};

/// The rule file `large.m` of `large N`, for the application `iliad`. The only error is out of memory.
///
/// For N = 1 it has `R0 : saisie revenu classe = 0 alias C0 : "r" ;`, `T0 : calculee : "t" ;`, a rule for T0 and a
/// verification of it.
pub fn large_base(alloc: Global, n: u32) -> Result<Text, AllocError>
    requires some { 1 ≤ n }
    requires few { n ≤ LARGE }
    ensures { IfOk result (λ text. (text.name ≡ base_name) × (text.bytes ≡ base_text n)) }
{
    let mut text = Vec::new(alloc);
    append_declarations(&mut text, n)?;
    append_rules(&mut text, n - 1)?;
    append_first_rule(&mut text)?;
    append_check(&mut text, n - 1)?;
    Ok(Text {
        name: Name::new(alloc, b"large.m")?,
        bytes: Seq::from_vec(text),
    })
}

fn append_declarations(text: &mut Vec<u8>, n: u32) -> Result<(), AllocError>
    ensures { OnOk result (text.new.items ≡ text.old.items ++ declarations n) }
{
    for k in 0..n {
        let mut buffer = Buffer::new();
        let number = buffer.format(k).as_bytes();
        append_pieces(
            text,
            &[
                b"R",
                number,
                b" : saisie revenu classe = 0 alias C",
                number,
                b" : \"r\" ;\nT",
                number,
                b" : calculee : \"t\" ;\n",
            ],
        )?;
    }
    Ok(())
}

// Appends the rules of the sums from this one down to 1.
fn append_rules(text: &mut Vec<u8>, last: u32) -> Result<(), AllocError>
    requires { last < LARGE }
    ensures { OnOk result (text.new.items ≡ text.old.items ++ rules last) }
{
    let mut k = last;
    while k > 0 {
        append_rule(text, k)?;
        k -= 1;
    }
    Ok(())
}

fn append_rule(text: &mut Vec<u8>, k: u32) -> Result<(), AllocError>
    requires some { 0 < k }
    requires few { k < LARGE }
    ensures { OnOk result (text.new.items ≡ text.old.items ++ rule (k + 1) k (k - 1)) }
{
    let mut rule_buffer = Buffer::new();
    let rule = rule_buffer.format(k + 1).as_bytes();
    let mut sum_buffer = Buffer::new();
    let sum = sum_buffer.format(k).as_bytes();
    let mut next_buffer = Buffer::new();
    let next = next_buffer.format(k - 1).as_bytes();
    append_sum(text, rule, sum, next)
}

fn append_sum<'a>(
    text: &mut Vec<u8>,
    rule: &'a [u8],
    sum: &'a [u8],
    next: &'a [u8],
) -> Result<(), AllocError>
    ensures { OnOk result (text.new.items ≡ text.old.items ++ joined
        (codes "regle " ∷ rule.now ∷ codes " : application : iliad ;" ∷ new_line
        ∷ codes "T" ∷ sum.now ∷ codes " = max(0, R" ∷ sum.now ∷ codes " - 1000) + T" ∷ next.now ∷ codes " ;" ∷ new_line ∷ [])) }
{
    append_pieces(
        text,
        &[
            b"regle ",
            rule,
            b" : application : iliad ;\nT",
            sum,
            b" = max(0, R",
            sum,
            b" - 1000) + T",
            next,
            b" ;\n",
        ],
    )
}

fn append_first_rule(text: &mut Vec<u8>) -> Result<(), AllocError>
    ensures { OnOk result (text.new.items ≡ text.old.items ++ first_rule) }
{
    append_pieces(
        text,
        &[b"regle 1 : application : iliad ;\nT0 = max(0, R0 - 1000) ;\n"],
    )
}

fn append_check(text: &mut Vec<u8>, last: u32) -> Result<(), AllocError>
    ensures { OnOk result (text.new.items ≡ text.old.items ++ check last) }
{
    let mut buffer = Buffer::new();
    let number = buffer.format(last).as_bytes();
    append_pieces(
        text,
        &[
            b"E1 : anomalie : \"E\" : \"1\" : \"0\" : \"negative\" ;\nverif 1 : application : iliad ;\nsi T",
            number,
            b" < 0 alors erreur E1 ;\n",
        ],
    )
}
