// The numbers that 01 fixes, as specs/Limits.antt names them; the places of a frame's words are those of plain's specs/Flat.antt. What depends on the edition is in `readers::edition`.

// Words and bytes of an image's header; most objects, body words and body bytes.
pub const HEADER_WORDS: usize = 5;

pub const HEADER_BYTES: usize = 10;

pub const MOST_OBJECTS: u16 = 2047;

pub const MOST_BODY_WORDS: u16 = 24000;

pub const MOST_BODY_BYTES: usize = 48000;

// An entry: class, kind, start, size.
pub const ENTRY_WORDS: usize = 4;

// Kinds of objects. They, forms and flags stay numbers: they are compared with words of images that are not judged yet, which can be any.
pub const FIELDS: u16 = 0;

pub const BYTES: u16 = 1;

pub const CLASS: u16 = 2;

pub const LIST: u16 = 3;

pub const METHOD: u16 = 4;

// Forms of a class's objects: F fields, at least F, bytes, and last the other kinds and integers.
pub const FIXED: u16 = 0;

pub const INDEXED: u16 = 1;

pub const OF_BYTES: u16 = 2;

pub const OTHER: u16 = 3;

// A class body: its words by their places, how many, and the most fields that it can ask for.
pub const SUPERCLASS: usize = 0;

pub const DICTIONARY: usize = 1;

pub const FIELDS_WORD: usize = 2;

pub const FORM_WORD: usize = 3;

pub const CLASS_WORDS: u16 = 4;

pub const MOST_FIELDS: u16 = 255;

// The classes of the longest superclass chain.
pub const LONGEST_CHAIN: usize = 24;

// A method body: the places of its header, its home and its first literal.
pub const HEADER: usize = 0;

pub const HOME: usize = 1;

pub const LITERALS: usize = 2;

// Flags of a header: up to the first they are the argument count.
pub const LAST_COUNT: usize = 4;

pub const ANSWER_SELF: usize = 5;

pub const ANSWER_FIELD: usize = 6;

pub const PRIMITIVE: usize = 7;

// Words of a frame for temporaries and operands.
pub const SMALL_FRAME: usize = 12;

pub const LARGE_FRAME: usize = 32;

// and before them, which are, by their places:
pub const FRAME_HEADER: usize = 6;

pub const FRAME_SENDER: usize = 0;

pub const FRAME_POSITION: usize = 1;

pub const FRAME_DEPTH: usize = 2;

pub const FRAME_METHOD: usize = 3;

pub const FRAME_ZERO: usize = 4;

pub const FRAME_RECEIVER: usize = 5;

// A frame ends here or below.
pub const MOST_STACK_WORDS: usize = 65536;

// Objects with a fixed number, and the words of some.
pub const NIL_OBJECT: usize = 1;

pub const FALSE_OBJECT: usize = 2;

pub const TRUE_OBJECT: usize = 3;

pub const INTEGER_CLASS_OBJECT: usize = 4;

pub const SELECTORS_OBJECT: usize = 5;

pub const FAILURE_SELECTOR_OBJECT: usize = 6;

pub const MESSAGE_CLASS_OBJECT: usize = 7;

pub const ARRAY_CLASS_OBJECT: usize = 8;

pub const NIL: u16 = 2;

pub const FALSE: u16 = 4;

pub const TRUE: u16 = 6;

pub const INTEGER_CLASS: u16 = 8;

pub const SELECTORS: u16 = 10;

pub const SPECIAL_SELECTORS: u16 = 32;

pub const FAILURE_SELECTOR: u16 = 12;

pub const MESSAGE_CLASS: u16 = 14;

pub const ARRAY_CLASS: u16 = 16;

// A message: its selector and the array of its arguments.
pub const MESSAGE_FIELDS: u16 = 2;
