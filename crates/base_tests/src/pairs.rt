//! Pairs of inputs and amounts, which are stored in fewer bytes than both take.
use household::Pair;
use m_fixed::Amount;

/// The pair of an input and this many millionths, or None if they are no amount.
fn pair(input: u32, millionths: i128) -> Option<Pair> {
    let amount = Amount::new(millionths)?;
    Some(Pair::new(input, amount))
}

/// Whether a pair gives back this input and this many millionths.
fn is_kept(input: u32, millionths: i128) -> bool {
    match pair(input, millionths) {
        Some(pair) => pair.input() == input && pair.amount().millionths() == millionths,
        None => false,
    }
}

#[test]
fn pairs_are_given_back(rt: HostRuntime) {
    assert!(rt; is_kept(4_294_967_295, -10_000_000_000_000_000_000) && is_kept(2, -1));
    assert!(rt; pair(3, 0) == pair(3, 0) && pair(3, 0) != pair(4, 0));
    assert!(rt; std::mem::size_of::<Pair>() == 16);
}
