//! What a term reads, tables apart.

ghost use Rattle.std.specs.Prelude.{◌≡◌, None, refl};
ghost use Rattle.micro_m.specs.Trees.{Tree, cell};
ghost use Rattle.micro_m.specs.Leaves.{literal_in};

/// A leaf of a term. In the terms of rules it is the number of a cell.
pub trait Leaf: Drop {
    /// The leaf as a term of rules.
    ghost leaf_tree: { Self → Tree };

    /// No leaf is a constant.
    ghost leaf_reads: { (leaf : Self) → literal_in (leaf_tree leaf) ≡ None };
}

impl Leaf for u32 {
    ghost leaf_tree = { cell };

    ghost leaf_reads = { λ c. refl };
}
