// What the interpreter asks of contents and bodies whose objects are right, and what it writes there. n and b say how many objects and body
// words stand there; the definitions are model's specs/, over the objects in the two buffers.
#![tactic(auto)]

ghost use Rattle.std.specs.Prelude.{◌≡◌, List, ℕ, ◌+◌, ◌-◌, ◌*◌, ◌/◌, ◌<◌, ◌≤◌, T, length, take, drop};
ghost use Rattle.bytecode.specs.Code.{byte_at, bytes_after, instruction_of, next_at};
ghost use Rattle.model.specs.Limits.{entry_words, class_kind, list_kind, method_kind, primitive_flag};
ghost use Rattle.model.specs.Word.{is_valid, object_number};
ghost use Rattle.model.specs.Objects.{objects_at, class_of, is_nil_or, superclass_word, dictionary_word, field_count, form, at_front};
ghost use Rattle.model.specs.Method.{header, home, literal, flag, literal_count, extension, primitive_number, argument_count};
ghost use Rattle.model.specs.Lookup.{find_in, lookup, dictionaries_read, pairs_in, pairs_read, in_chain};
ghost use Rattle.model.specs.Rules.{IsRight};
ghost use Rattle.model.specs.Primitive.{store_word, object_byte, store_byte};
ghost use Rattle.readers.specs.Places.{Inside};
ghost use Rattle.objects.specs.Lent.{Holds, CodeAt};
ghost use Rattle.objects.specs.Searches.{IsDictionary, FirstPlace, SearchIs};
ghost use Rattle.readers.specs.Lent.{objects_in, In};

use bytecode::Decoded;
use model::{Pointer, limits};
use readers::Memory;

// A method's code in bodies: its words stand from `from` up to `end`, `size` counts its bytes.
#[derive(Clone, Copy)]
pub struct Code {
    pub from: usize,
    pub end: usize,
    pub size: usize,
}

// What a search for a method comes to: what it found, how many dictionaries it read, and how many of their pairs.
#[derive(Clone, Copy)]
pub struct Search {
    pub found: Option<Pointer>,
    pub dictionaries: usize,
    pub pairs: usize,
}

// The class of a valid word. No body is read, so it is the same whatever the bodies hold.
pub fn class_of(memory: &Memory, w: u16) -> Pointer
    requires { T (is_valid memory.now.n w) × (entry_words * memory.now.n ≤ length memory.now.contents.now) }
    ensures { (b : ℕ) (bodies : List ℕ) → result.0 ≡ class_of (objects_at memory.now.n b memory.now.contents.now bodies) w }
{
    if w % 2 == 1 {
        Pointer(limits::INTEGER_CLASS)
    } else {
        Pointer(memory.class_word(w as usize / 2))
    }
}

// The one function that writes a word of an object that stands.
pub fn store_word(
    contents: &[u16],
    bodies: &mut [u16],
    n: usize,
    b: usize,
    p: Pointer,
    i: usize,
    w: u16,
)
    requires { Inside n b contents.now bodies.old p.0 i }
    ensures { bodies.new
        ≡ at_front (store_word (objects_at n b contents.now bodies.old) (object_number p.0) i w).bodies
        bodies.old }
{
    let k = p.0 as usize / 2;
    let memory = &Memory {
        contents,
        bodies,
        n,
        b,
    };
    let to = memory.start(k) as usize + i;
    bodies[to] = w;
}

// Byte i of an object's body, high byte of a word first.
pub fn byte_of(memory: &Memory, p: Pointer, i: usize) -> u8
    requires { In Inside memory.now p.0 (i / 2) }
    ensures { result ≡ object_byte (objects_in memory.now) (object_number p.0) i }
{
    let w = memory.word_of(p, i / 2);
    if i % 2 == 0 {
        (w / 256) as u8
    } else {
        (w % 256) as u8
    }
}

pub fn store_byte(
    contents: &[u16],
    bodies: &mut [u16],
    n: usize,
    b: usize,
    p: Pointer,
    i: usize,
    v: u8,
)
    requires { Inside n b contents.now bodies.old p.0 (i / 2) }
    ensures { bodies.new
        ≡ at_front (store_byte (objects_at n b contents.now bodies.old) (object_number p.0) i v).bodies
        bodies.old }
{
    let memory = &Memory {
        contents,
        bodies,
        n,
        b,
    };
    let w = memory.word_of(p, i / 2);
    if i % 2 == 0 {
        store_word(contents, bodies, n, b, p, i / 2, v as u16 * 256 + w % 256);
    } else {
        store_word(contents, bodies, n, b, p, i / 2, w / 256 * 256 + v as u16);
    }
}

// The four words of a class.
pub fn superclass(memory: &Memory, c: Pointer) -> Pointer
    requires { In (Holds class_kind) memory.now c.0 }
    ensures { result.0 ≡ superclass_word (objects_in memory.now) c.0 }
{
    Pointer(memory.word_of(c, limits::SUPERCLASS))
}

pub fn dictionary(memory: &Memory, c: Pointer) -> Pointer
    requires { In (Holds class_kind) memory.now c.0 }
    ensures { result.0 ≡ dictionary_word (objects_in memory.now) c.0 }
{
    Pointer(memory.word_of(c, limits::DICTIONARY))
}

pub fn field_count(memory: &Memory, c: Pointer) -> usize
    requires { In (Holds class_kind) memory.now c.0 }
    ensures { result ≡ field_count (objects_in memory.now) c.0 }
{
    memory.word_of(c, limits::FIELDS_WORD) as usize / 2
}

pub fn form_of(memory: &Memory, c: Pointer) -> usize
    requires { In (Holds class_kind) memory.now c.0 }
    ensures { result ≡ form (objects_in memory.now) c.0 }
{
    memory.word_of(c, limits::FORM_WORD) as usize / 2
}

// The words of a method.
pub fn header(memory: &Memory, m: Pointer) -> usize
    requires { In (Holds method_kind) memory.now m.0 }
    ensures { result ≡ header (objects_in memory.now) m.0 }
{
    memory.word_of(m, limits::HEADER) as usize
}

pub fn home(memory: &Memory, m: Pointer) -> Pointer
    requires { In (Holds method_kind) memory.now m.0 }
    ensures { result.0 ≡ home (objects_in memory.now) m.0 }
{
    Pointer(memory.word_of(m, limits::HOME))
}

pub fn literal(memory: &Memory, m: Pointer, i: usize) -> u16
    requires { In (Holds method_kind) memory.now m.0 × (i < literal_count (objects_in memory.now) m.0) }
    ensures { result ≡ literal (objects_in memory.now) m.0 i }
{
    memory.word_of(m, limits::LITERALS + i)
}

// The extension of a method with flag 7.
pub fn extension(memory: &Memory, m: Pointer) -> usize
    requires { In (Holds method_kind) memory.now m.0 × (flag (objects_in memory.now) m.0 ≡ primitive_flag) }
    ensures { result ≡ extension (objects_in memory.now) m.0 }
{
    let count = readers::literal_count(header(memory, m));
    literal(memory, m, count - 2) as usize
}

pub fn primitive_number(memory: &Memory, m: Pointer) -> usize
    requires { In (Holds method_kind) memory.now m.0 × (flag (objects_in memory.now) m.0 ≡ primitive_flag) }
    ensures { result ≡ primitive_number (objects_in memory.now) m.0 }
{
    extension(memory, m) / 2 % 256
}

pub fn argument_count(memory: &Memory, m: Pointer) -> usize
    requires { In (Holds method_kind) memory.now m.0 }
    ensures { result ≡ argument_count (objects_in memory.now) m.0 }
{
    memory.argument_count(m)
}

pub fn code_of(memory: &Memory, m: Pointer) -> Code
    requires { In (Holds method_kind) memory.now m.0 }
    ensures { In CodeAt memory.now m.0 result }
{
    let count = readers::literal_count(header(memory, m));
    let k = m.0 as usize / 2;
    let start = memory.start(k) as usize;
    let size = memory.size(k) as usize;
    Code {
        from: start + 2 + count,
        end: start + (size + 1) / 2,
        size: size - 4 - 2 * count,
    }
}

// The instruction at a position of the code whose words stand from `from` up to `end`. The run loop knows both, and reads no method to decode.
pub fn instruction_at(bodies: &[u16], from: usize, end: usize, at: usize) -> Decoded
    requires { (from ≤ end) × (end ≤ length bodies.now)
        × (next_at (take (end - from) (drop from bodies.now)) at ≤ 2 * length (take (end - from) (drop from bodies.now)))
        × (at < 65536) }
    ensures { (result.instruction
        ≡ instruction_of (byte_at (take (end - from) (drop from bodies.now)) at) (bytes_after (take (end - from) (drop from bodies.now)) at))
        × (result.next ≡ next_at (take (end - from) (drop from bodies.now)) at) }
{
    bytecode::instruction_at(&bodies[from..end], at)
}

// Where the first of a dictionary's pairs stands whose selector is not below the one sought; the last pair where all before it are below.
// Of the last the order is not asked: whether it is above or below, no more pairs are read.
fn first_place(bodies: &[u16], from: usize, count: usize, s: u16) -> usize
    requires { (0 < count) × (from + 2 * count ≤ length bodies.now) }
    ensures { FirstPlace bodies.now from count s result }
{
    for i in 0..count - 1 {
        if s <= bodies[from + 2 * i] {
            return from + 2 * i;
        }
    }
    from + 2 * (count - 1)
}

// The method under a selector in a dictionary. Selectors rise, so none behind the first that is not below is the one sought.
fn find_in(memory: &Memory, d: Pointer, s: u16) -> Search
    requires { In IsDictionary memory.now d.0 }
    ensures { SearchIs (find_in (objects_in memory.now) d.0 s) 1
        (pairs_in (objects_in memory.now) d.0 s) result }
{
    let k = d.0 as usize / 2;
    let from = memory.start(k) as usize;
    let count = memory.size(k) as usize / 2;
    if count == 0 {
        return Search {
            found: None,
            dictionaries: 1,
            pairs: 0,
        };
    }
    let at = first_place(memory.bodies, from, count, s);
    let pairs = (at - from) / 2 + 1;
    let found = if memory.bodies[at] == s {
        Some(Pointer(memory.bodies[at + 1]))
    } else {
        None
    };
    Search {
        found,
        dictionaries: 1,
        pairs,
    }
}

// The method under a selector in a class or the nearest class above it that has one.
pub fn lookup(memory: &Memory, s: u16, class: Pointer) -> Search
    requires { IsRight (objects_in memory.now) × T (is_nil_or (objects_in memory.now) class_kind class.0) }
    ensures { SearchIs (lookup (objects_in memory.now) s class.0)
        (dictionaries_read (objects_in memory.now) s class.0)
        (pairs_read (objects_in memory.now) s class.0) result }
{
    let mut c = class;
    let mut pairs = 0;
    for read in 0..limits::LONGEST_CHAIN {
        if c.0 == limits::NIL {
            return Search {
                found: None,
                dictionaries: read,
                pairs,
            };
        }
        // read before the search, so that the next turn need not wait for its end
        let above = superclass(memory, c);
        let d = dictionary(memory, c);
        let search = find_in(memory, d, s);
        pairs += search.pairs;
        if let Some(m) = search.found {
            return Search {
                found: Some(m),
                dictionaries: read + 1,
                pairs,
            };
        }
        c = above;
    }
    Search {
        found: None,
        dictionaries: limits::LONGEST_CHAIN,
        pairs,
    }
}

// Whether class a is another class or above it.
pub fn in_chain(memory: &Memory, a: Pointer, class: Pointer) -> bool
    requires { IsRight (objects_in memory.now) × T (is_nil_or (objects_in memory.now) class_kind class.0) }
    ensures { result ≡ in_chain (objects_in memory.now) a.0 class.0 }
{
    let mut c = class;
    for i in 0..limits::LONGEST_CHAIN {
        if c.0 == limits::NIL {
            return false;
        }
        if a.0 == c.0 {
            return true;
        }
        c = superclass(memory, c);
    }
    false
}
