//! The limits of the program, each defined once. Definitions cite the constants, so a wrong number
//! would be proved everywhere; the law `limits_are` states each as a literal.
ghost use Rattle.std.specs.Prelude.{◌≡◌};

/// The most bytes of a list, rule, driver, request, household or table file.
pub const FILE_BYTES: u64 = 16_777_216;

/// The most bytes of all rule files of a list together.
pub const RULE_BYTES: u64 = 67_108_864;

/// The most bytes of a code file, of findings or of a report.
pub const CODE_FILE_BYTES: u64 = 1_073_741_824;

/// The most rule files in a list.
pub const LIST_FILES: usize = 1_024;

/// The most bytes of a file's name in a list.
pub const FILE_NAME_BYTES: usize = 4_096;

/// The greatest depth of brackets and conditionals.
pub const BRACKET_DEPTH: u32 = 256;

/// The greatest level of a line of a driver.
pub const DRIVER_LEVEL: u32 = 64;

/// The most instances of one loop header.
pub const LOOP_INSTANCES: u32 = 10_000;

/// The most parts after expansion.
pub const PARTS: u32 = 2_000_000;

/// The most cells of a base.
pub const CELLS: u32 = 1_000_000;

/// The most cells of one table.
pub const TABLE_CELLS: u32 = 1_024;

/// The greatest weight of a driver.
pub const DRIVER_WEIGHT: u64 = 4_000_000;

/// The most requests, from a file or `-`.
pub const REQUESTS: u32 = 100_000;

/// The most rows of a household or a table.
pub const ROWS: u32 = 100_000;

/// The most bytes of a session's line, without its line feed.
pub const SESSION_LINE_BYTES: usize = 4_096;

/// The most bytes that a session takes from its input.
pub const INPUT_BYTES: u64 = 1_099_511_627_776;

/// The greatest number of `large N`.
pub const LARGE: u32 = 100_000;

/// Each limit is the number that the documents state.
pub fn limits_are()
    ensures file_bytes { FILE_BYTES ≡ 16777216 }
    ensures rule_bytes { RULE_BYTES ≡ 67108864 }
    ensures code_file_bytes { CODE_FILE_BYTES ≡ 1073741824 }
    ensures list_files { LIST_FILES ≡ 1024 }
    ensures file_name_bytes { FILE_NAME_BYTES ≡ 4096 }
    ensures bracket_depth { BRACKET_DEPTH ≡ 256 }
    ensures driver_level { DRIVER_LEVEL ≡ 64 }
    ensures loop_instances { LOOP_INSTANCES ≡ 10000 }
    ensures parts { PARTS ≡ 2000000 }
    ensures cells { CELLS ≡ 1000000 }
    ensures table_cells { TABLE_CELLS ≡ 1024 }
    ensures driver_weight { DRIVER_WEIGHT ≡ 4000000 }
    ensures requests { REQUESTS ≡ 100000 }
    ensures rows { ROWS ≡ 100000 }
    ensures session_line_bytes { SESSION_LINE_BYTES ≡ 4096 }
    ensures input_bytes { INPUT_BYTES ≡ 1099511627776 }
    ensures large { LARGE ≡ 100000 }
{}
