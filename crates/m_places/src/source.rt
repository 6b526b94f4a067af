//! A source to compile, as bytes: the texts of rule files, a driver and requests.
use crate::{Name, Seq};

/// A rule file: its name, for error messages, and its bytes.
#[derive(Drop)]
pub struct Text {
    pub name: Name,
    pub bytes: Seq<u8>,
}

/// A source to compile: the application, the rule files in the order of the list, and optionally a
/// driver and requests.
#[derive(Drop)]
pub struct Source {
    /// The application: only rules and verifications that list this word are compiled.
    pub application: Name,
    pub texts: Seq<Text>,
    pub driver: Option<Seq<u8>>,
    pub requests: Option<Seq<u8>>,
}
