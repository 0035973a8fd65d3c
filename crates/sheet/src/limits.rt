// The limits of a sheet, as document 01 has them, and the sizes of the tables that follow from them.

// Bytes of a sheet.
pub const SHEET_LIMIT: usize = 65536;

// Bytes of its source.
pub const SOURCE_LIMIT: usize = 32768;

// Bytes of any other text.
pub const TEXT_LIMIT: usize = 4096;

// Comments.
pub const COMMENT_LIMIT: usize = 1024;

// Groups.
pub const GROUP_LIMIT: usize = 1024;

// Levels of nodes, the root's among them.
pub const DEPTH_LIMIT: usize = 64;

// Properties of an Object.
pub const PROPERTY_LIMIT: usize = 64;

// Bytes of the sheet that a dependency takes at least.
pub const ENTRY_BYTES: usize = 9;

// Dependencies.
pub const ENTRY_LIMIT: usize = SHEET_LIMIT / ENTRY_BYTES;

// Positions in the index of the source: one for each 64 bytes, and one for what is left.
pub const INDEX_ROWS: usize = SOURCE_LIMIT / 64 + 1;
