use definedness::Fact;
use m_places::Seq;

/// The findings about the requested cells of a program, given facts of its inputs.
#[derive(Drop)]
pub struct FactsFound {
    /// The fact of each output, in order.
    pub possible: Seq<Fact>,
    /// The checks of the base that never stop a run and are never noted, as ascending numbers.
    pub silent: Seq<u32>,
    /// The outputs whose name no earlier output has, as ascending numbers.
    pub firsts: Seq<u32>,
    /// For each of these the inputs on which its value may depend, as ascending numbers.
    pub reads: Seq<Seq<u32>>,
}
