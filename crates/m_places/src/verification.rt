use crate::SharedName;

/// The kind of an error that a verification raises.
#[derive(Clone, Copy, Debug, PartialEq, Eq)]
pub enum ErrorKind {
    Anomalie,
    Discordance,
    Informative,
}

/// What a failed verification prints: its number as spelled in the source, and the error's name,
/// kind and text. Labels of one verification share its number, and labels of one error its name and
/// text, so another label takes no memory for them.
#[derive(Drop)]
pub struct Label {
    pub verif: SharedName,
    pub error: SharedName,
    pub kind: ErrorKind,
    pub text: SharedName,
}
