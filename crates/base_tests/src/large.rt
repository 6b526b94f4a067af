//! The whole rule base of `large N` for 1, 2 and 3, and its household.
use m_large::{large_base, large_household};
use std::alloc::Global;

const BASE_1: &str = "R0 : saisie revenu classe = 0 alias C0 : \"r\" ;
T0 : calculee : \"t\" ;
regle 1 : application : iliad ;
T0 = max(0, R0 - 1000) ;
E1 : anomalie : \"E\" : \"1\" : \"0\" : \"negative\" ;
verif 1 : application : iliad ;
si T0 < 0 alors erreur E1 ;
";

const BASE_2: &str = "R0 : saisie revenu classe = 0 alias C0 : \"r\" ;
T0 : calculee : \"t\" ;
R1 : saisie revenu classe = 0 alias C1 : \"r\" ;
T1 : calculee : \"t\" ;
regle 2 : application : iliad ;
T1 = max(0, R1 - 1000) + T0 ;
regle 1 : application : iliad ;
T0 = max(0, R0 - 1000) ;
E1 : anomalie : \"E\" : \"1\" : \"0\" : \"negative\" ;
verif 1 : application : iliad ;
si T1 < 0 alors erreur E1 ;
";

const BASE_3: &str = "R0 : saisie revenu classe = 0 alias C0 : \"r\" ;
T0 : calculee : \"t\" ;
R1 : saisie revenu classe = 0 alias C1 : \"r\" ;
T1 : calculee : \"t\" ;
R2 : saisie revenu classe = 0 alias C2 : \"r\" ;
T2 : calculee : \"t\" ;
regle 3 : application : iliad ;
T2 = max(0, R2 - 1000) + T1 ;
regle 2 : application : iliad ;
T1 = max(0, R1 - 1000) + T0 ;
regle 1 : application : iliad ;
T0 = max(0, R0 - 1000) ;
E1 : anomalie : \"E\" : \"1\" : \"0\" : \"negative\" ;
verif 1 : application : iliad ;
si T2 < 0 alors erreur E1 ;
";

// The bases as a function, so that proofs about its users don't expand them.
fn base_text(n: u32) -> &'static [u8] {
    match n {
        1 => BASE_1.as_bytes(),
        2 => BASE_2.as_bytes(),
        _ => BASE_3.as_bytes(),
    }
}

/// Whether the base of a number from 1 to 3 is made and has its text.
fn is_base(alloc: Global, n: u32) -> bool {
    if n < 1 || n > 3 {
        return false;
    }
    match large_base(alloc, n) {
        Ok(base) => {
            base.name.bytes() == b"large.m".as_slice() && base.bytes.as_slice() == base_text(n)
        }
        Err(_) => false,
    }
}

#[test]
fn bases(rt: HostRuntime) {
    assert!(rt; is_base(rt.alloc(), 1));
    assert!(rt; is_base(rt.alloc(), 2));
    assert!(rt; is_base(rt.alloc(), 3));
}

/// Whether the household with this many codes is made and has this text.
fn is_household(alloc: Global, n: u32, text: &[u8]) -> bool {
    if n < 1 || n > 7 {
        return false;
    }
    match large_household(alloc, n) {
        Ok(household) => household.as_slice() == text,
        Err(_) => false,
    }
}

#[test]
fn households(rt: HostRuntime) {
    let three = b"code,amount\nC0,0\nC1,997\nC2,1994\n";
    assert!(rt; is_household(rt.alloc(), 1, b"code,amount\nC0,0\n"));
    assert!(rt; is_household(rt.alloc(), 3, three));
}
