use m_ast::VariableItem;

/// A declared variable and its cells.
#[derive(Drop)]
pub struct Variable {
    /// Its declaration.
    pub item: VariableItem,
    /// The number of its first cell, from 0.
    pub first_cell: u32,
    /// The number of its cells: the size of a table, 1 otherwise.
    pub cells: u32,
}
