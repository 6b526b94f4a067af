//! Types that can be sent to other threads and shared with them. The test is that this compiles. All other trees are
//! parts of an item, and the kind, the key and the sign are parts of a token.
use m_ast::Item;
use m_items::ParseFault;
use m_lexer::{LexFault, Token};

fn crosses_threads<T: Send + Sync>() {}

#[test]
fn types_cross_threads() {
    crosses_threads::<Item>();
    crosses_threads::<ParseFault>();
    crosses_threads::<LexFault>();
    crosses_threads::<Token>();
}
