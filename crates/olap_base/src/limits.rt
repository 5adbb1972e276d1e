// The limits as numbers of the program. `specs/Limits.antt` says what each bounds.

/// Categories of a schema, `All` counted.
pub const MOST_CATEGORIES: usize = 256;

/// Edges of a schema.
pub const MOST_EDGES: usize = 1024;

/// Constraints of a schema.
pub const MOST_CONSTRAINTS: usize = 1024;

/// Nodes of a formula, of a constraint or of a question.
pub const MOST_NODES: usize = 4096;

/// Nodes of the formulas of all constraints together.
pub const MOST_SCHEMA_NODES: usize = 65_536;

/// Levels of a formula, where a leaf has one; open brackets of a formula's text.
pub const MOST_DEPTH: u16 = 64;

/// Distinct pairs of a category and a constant, in a schema and a question together.
pub const MOST_CONSTANTS: usize = 256;

/// Bytes of a category's name, of a constant, and of a member's id or name.
pub const MOST_TEXT_BYTES: usize = 255;

/// Members of an instance, `all` counted.
pub const MOST_MEMBERS: usize = 16_777_215;

/// Facts of a file.
pub const MOST_FACTS: u64 = 4_294_967_295;

/// Facts of a text that is read into a list.
pub const MOST_LISTED_FACTS: u64 = 1_048_576;

/// Views of a store.
pub const MOST_VIEWS: usize = 8;

/// The greatest count of a stored row.
pub const MOST_COUNT: u64 = 4_294_967_295;

/// The greatest magnitude of a stored row's sum: 2^95.
pub const MOST_SUM: i128 = 39_614_081_257_132_168_796_771_975_168;

/// Bytes of a schema's file.
pub const MOST_SCHEMA_BYTES: u64 = 67_108_864;

/// Bytes of a certificate's file.
pub const MOST_CERTIFICATE_BYTES: u64 = 67_108_864;

/// Bytes of an instance's file.
pub const MOST_INSTANCE_BYTES: u64 = 4_294_967_296;

/// Bytes of a file of stored views.
pub const MOST_STORE_BYTES: u64 = 17_179_869_184;

/// Words of a command line, the command counted.
pub const MOST_WORDS: usize = 64;

/// Frozen dimensions that are listed.
pub const MOST_FROZEN: usize = 4096;

/// Stores of an input that is made from a number.
pub const MOST_GENERATED: u32 = 200_000;
