//! What can be observed of a program in any form: the values that it accepts, the result of a run,
//! what stopped it, and its interface.
//!
//! Uses amounts, and names and labels of `m_places`. Knows nothing of rules, drivers, nodes,
//! instructions or printed lines.
#![tactic(auto)]

mod answer;
mod face;
mod inputs;
mod names;

pub use answer::{Answer, Stop};
pub use face::{Face, FaceLabel, FaceOutput};
pub use inputs::{Coded, InputType, is_of_type, type_of};
pub use names::named_face;
