// The limits of document 01, each named once, and those of patterns (02, W3).

// T, N and P of a book, the symbols of a right side or of a symbol string, and the bytes of the longest book.
pub const MOST_TOKENS: u8 = 62;

pub const MOST_NONTERMINALS: u8 = 64;

pub const MOST_PRODUCTIONS: u8 = 128;

pub const MOST_SYMBOLS: u8 = 16;

pub const LONGEST_BOOK: usize = 2566;

// The tokens of a string to run, and the productions of a list to expand.
pub const LONGEST_STRING: usize = 4096;

pub const LONGEST_LIST: usize = 65535;

// How many cells of a lent stack, list or output count.
pub const MOST_CELLS: usize = 65535;

// The patterns that cut a line, and their bytes and classes, all patterns together.
pub const MOST_PATTERNS: usize = 62;

pub const MOST_POSITIONS: usize = 256;

// The words of a set of positions, and of a set of points: positions, then the ends of patterns.
pub const POSITION_WORDS: usize = 4;

pub const POINT_WORDS: usize = 5;

// How many values a byte has; the states of a machine, and the cells of its row: for each byte one, then the token's.
pub const BYTE_VALUES: usize = 256;

pub const MOST_STATES: usize = 256;

pub const ROW_CELLS: usize = 257;
