//! Code with its face.
ghost use Rattle.std.specs.Prelude.{IsTrue};
ghost use Rattle.code_file.specs.Loading.{counts_agree};

use observables::Face;
use reg_machine::Code;

/// Register code and its face, which has as many inputs, labels and outputs as the code.
#[derive(Drop)]
pub struct Loaded {
    pub code: Code,
    pub face: Face,
    ghost agree: { IsTrue (counts_agree code face.inputs face.labels face.outputs) },
}
