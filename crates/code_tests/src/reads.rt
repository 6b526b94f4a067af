//! Code files that are read: what was read is written as the same text.
use code_file::{Loaded, read_code, write_code};
use m_places::limits::CODE_FILE_BYTES;
use m_ports::{MemSink, Sink};
use std::alloc::Global;

const EXAMPLE: &[u8] = b"mcode 1
slots 0
input 1AJ
output IRN
code
in 0 0
lit 1 1000000000
do 0 sub 0 1
lit 1 0
do 0 max 1 0
out 0 0
end
";

const FORMS: &[u8] = b"mcode 1
slots 4294967295
input 1AJ
input 0CF whole
input 8ZZ truth
label verif 2000 A20 anomalie 413a32303a30303a726576656e75206e756c3a4e
label verif 1 B discordance 00ff0a
label verif 123456789 C informative 6e
label driver 4294967295
note 1
note 0
output IRN
output T[1023]
output T[0]
code
in 15 2
lit 0 undef
lit 1 over
lit 2 -10000000000000000000
lit 3 10000000000000000000
do 4 neg 2
do 5 choose 1 2 3
do 6 positif_ou_nul 2
st 4294967294 5
ld 7 4294967294
ck 1 7 0
co 1 7 3
out 0 7
out 1 6
out 2 5
out 3 4
out 4 3
end
";

// The two texts as functions, so that proofs about their users don't expand them.
fn example() -> &'static [u8] {
    EXAMPLE
}

fn forms() -> &'static [u8] {
    FORMS
}

// Whether this code is written as this text.
fn is_written(alloc: Global, loaded: &Loaded, bytes: &[u8]) -> bool {
    match MemSink::new(alloc, 5, Vec::new(alloc)) {
        Ok(mut out) => write_code(loaded, &mut out).is_ok() && out.written() == bytes,
        Err(_) => false,
    }
}

// Whether a text is read, and written as the same text.
fn reads_back(alloc: Global, bytes: &[u8]) -> bool {
    if bytes.len() as u64 > CODE_FILE_BYTES {
        return false;
    }
    match read_code(alloc, bytes) {
        Ok(loaded) => is_written(alloc, &loaded, bytes),
        Err(_) => false,
    }
}

#[test]
fn what_is_read_is_written_as_the_same(rt: HostRuntime) {
    assert!(rt; reads_back(rt.alloc(), example()));
    assert!(rt; reads_back(rt.alloc(), forms()));
}
