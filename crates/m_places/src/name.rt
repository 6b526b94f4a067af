ghost use Rattle.std.specs.Prelude.{◌≡◌, IfOk};

use arrayvec::ArrayVec;
use std::alloc::{AllocError, Global};
use std::marker::Model;
use std::sync::Arc;

/// A name: of a variable, a code, a file, a word. Contracts see it as its bytes, which need not be
/// UTF-8; names are equal if their bytes are. A name of up to 16 bytes, as nearly every name is, is
/// kept inline: allocating names was half of the work on tokens and trees. The copies of a longer
/// one share its bytes, so a copy takes neither time nor memory, however long the name is.
#[derive(Drop)]
pub struct Name {
    form: Form,
}

#[derive(Drop)]
enum Form {
    Short(ArrayVec<u8, 16>),
    Long(Arc<Vec<u8>, Global>),
}

/// A word of the command line.
pub type Word = Name;

impl Model for Name {
    ghost use Rattle.std.specs.Prelude.{List, ℕ};
    ghost use Rattle.m_places.specs.inner.Names.{bytes_of};

    ghost Value = { List ℕ };

    ghost view = { λ n. bytes_of n.form };
}

impl Name {
    /// A name of these bytes. Its only error is running out of memory.
    pub fn new(alloc: Global, bytes: &[u8]) -> Result<Name, AllocError>
        ensures { IfOk result (λ n. n ≡ bytes.now) }
    {
        match ArrayVec::try_from(bytes) {
            Ok(short) => Ok(Name {
                form: Form::Short(short),
            }),
            Err(_) => Name::long(alloc, Vec::from_slice(alloc, bytes)?),
        }
    }

    /// A name of these bytes, which it keeps without a copy. Its only error is running out of
    /// memory.
    pub fn long(alloc: Global, bytes: Vec<u8>) -> Result<Name, AllocError>
        ensures { IfOk result (λ n. n ≡ bytes.items) }
    {
        Ok(Name {
            form: Form::Long(Arc::new(alloc, bytes)?),
        })
    }

    /// The bytes of the name. Takes no memory.
    pub fn bytes(&self) -> &[u8]
        ensures { result.now ≡ self.now }
    {
        match &self.form {
            Form::Short(bytes) => bytes.as_slice(),
            Form::Long(bytes) => bytes.as_slice(),
        }
    }

    /// Another name of the same bytes. Takes no memory, unless the 63-bit count of a long name's
    /// owners is full. Its only error is running out of memory.
    pub fn copy(&self, alloc: Global) -> Result<Name, AllocError>
        ensures { IfOk result (λ n. n ≡ self.now) }
    {
        if let Form::Long(bytes) = &self.form
            && let Ok(bytes) = bytes.clone()
        {
            return Ok(Name {
                form: Form::Long(bytes),
            });
        }
        Name::new(alloc, self.bytes())
    }
}
