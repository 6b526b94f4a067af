//! The keys of hash tables of nodes.
ghost use Rattle.std.specs.Prelude.{◌≡◌, ◌+◌, ◌*◌, ◌<◌};
ghost use Rattle.common_terms.specs.inner.Chains.{hash_after, node_hash, node_words, value_words};

use flat_code::Node;
use m_fixed::Value;
use sha2::{Digest, Sha512};
use std::hash::{BuildHasher, DefaultHasher, Hash, Hasher};

/// A key of hashes: the state of a hasher to which the key was fed. Each hash continues from it.
#[derive(Clone, Copy)]
pub struct Key {
    start: DefaultHasher,
}

// The hash of a value.
fn hash_under<T: Hash + Copy>(key: &Key, value: &T) -> u32
    ensures { result ≡ hash_after key.now (T.hash_input value.now) }
{
    (key.hash_one(*value) % 4_294_967_296) as u32
}

// Two words that tell values apart.
fn words_of_value(value: Value) -> (u64, u64)
    ensures { result ≡ value_words value }
{
    match value {
        Value::Undef => (1, 0),
        Value::Over => (2, 0),
        Value::Num(amount) => {
            let millionths = amount.millionths();
            let kind = if millionths < 0 { 4 } else { 3 };
            (kind, millionths.unsigned_abs() as u64)
        }
    }
}

// Two words that tell nodes apart.
fn words_of(node: &Node) -> (u64, u64)
    ensures { result ≡ node_words node.now }
{
    match *node {
        Node::Input(n) => (0, n as u64),
        Node::Lit(value) => words_of_value(value),
        Node::Do(op, a, b, c) => (joined(5 + op as u32, a), joined(b, c)),
    }
}

// A word of two halves.
fn joined(low: u32, high: u32) -> u64
    ensures { result ≡ low + 4_294_967_296 * high }
{
    low as u64 + 4_294_967_296 * high as u64
}

impl Key {
    /// The hash of a node.
    pub(crate) fn hash_of(&self, node: &Node) -> u32
        ensures { result ≡ node_hash self.now node.now }
    {
        hash_under(self, &words_of(node))
    }
}

/// A digest (SHA-512) of nodes, from which a key is derived.
///
/// The key depends on all nodes, so nodes can't be chosen so that they collide under it.
#[derive(Drop)]
pub struct NodesDigest {
    digest: Sha512,
}

impl NodesDigest {
    /// The digest of no nodes.
    pub fn new() -> NodesDigest {
        NodesDigest {
            digest: Sha512::new(),
        }
    }

    /// Adds a node to the digest.
    pub fn take(&mut self, node: Node) {
        match node {
            Node::Input(n) => self.take_one(0, n),
            Node::Lit(value) => self.take_value(value),
            Node::Do(op, a, b, c) => self.take_operator(op as u8, a, b, c),
        }
    }

    fn take_value(&mut self, value: Value) {
        match value {
            Value::Undef => self.digest.update(&[1]),
            Value::Over => self.digest.update(&[2]),
            Value::Num(amount) => {
                let millionths = amount.millionths();
                let kind = if millionths < 0 { 200 } else { 3 };
                self.take_size(kind, millionths.unsigned_abs() as u64);
            }
        }
    }

    fn take_size(&mut self, kind: u8, size: u64) {
        let mut bytes = [kind; 9];
        bytes[1..].copy_from_slice(&size.to_le_bytes());
        self.digest.update(&bytes);
    }

    // Arguments that repeat the first are left out; the first byte says how many there are.
    fn take_operator(&mut self, op: u8, a: u32, b: u32, c: u32)
        requires { op < 60 }
    {
        if c != a {
            self.take_three(4 + op, a, b, c);
        } else if b != a {
            self.take_two(64 + op, a, b);
        } else {
            self.take_one(128 + op, a);
        }
    }

    fn take_one(&mut self, kind: u8, a: u32) {
        let mut bytes = [kind; 5];
        bytes[1..].copy_from_slice(&a.to_le_bytes());
        self.digest.update(&bytes);
    }

    fn take_two(&mut self, kind: u8, a: u32, b: u32) {
        let mut bytes = [kind; 9];
        bytes[1..5].copy_from_slice(&a.to_le_bytes());
        bytes[5..].copy_from_slice(&b.to_le_bytes());
        self.digest.update(&bytes);
    }

    fn take_three(&mut self, kind: u8, a: u32, b: u32, c: u32) {
        let mut bytes = [kind; 13];
        bytes[1..5].copy_from_slice(&a.to_le_bytes());
        bytes[5..9].copy_from_slice(&b.to_le_bytes());
        bytes[9..].copy_from_slice(&c.to_le_bytes());
        self.digest.update(&bytes);
    }

    /// The key derived from the nodes so far.
    pub fn key(self) -> Key {
        let NodesDigest { digest } = self;
        let mut start = DefaultHasher::new();
        start.write(&digest.finalize());
        Key { start }
    }
}

impl BuildHasher for Key {
    type Hasher = DefaultHasher;

    ghost build_hasher = { λ key. key.start };

    fn build_hasher(&self) -> DefaultHasher {
        self.start
    }
}
