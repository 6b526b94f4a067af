//! Laws of the definitions: rule files parse to one list of items each, or have one error, and not
//! both.
ghost use Rattle.std.specs.Prelude.{◌≡◌, List};
ghost use Rattle.m_places.specs.declared.source.Text.{Text};
ghost use Rattle.m_ast.specs.declared.item.Item.{Item};
ghost use Rattle.rule_base.specs.Files.{SayEach, IsFirstFileFault};
ghost use Rattle.rule_base.specs.declared.read_fault.ReadFault.{ReadFault};

/// Rule files parse in one way.
pub fn one_reading()
    ensures { (texts : List Text) (files others : List (List Item)) → SayEach 0 texts files → SayEach 0 texts others → files ≡ others }
{}

/// Rule files have at most one error.
pub fn one_file_fault()
    ensures { (texts : List Text) (fault other : ReadFault) → IsFirstFileFault 0 texts fault → IsFirstFileFault 0 texts other → fault ≡ other }
{}

/// Rule files that parse have no error.
pub fn files_or_fault()
    ensures { (texts : List Text) (files : List (List Item)) (fault : ReadFault) → SayEach 0 texts files → IsFirstFileFault 0 texts fault → ⊥ }
{}
