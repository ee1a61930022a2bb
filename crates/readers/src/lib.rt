// Words, entries of the contents and words of the bodies, and what 01 fixes of them. Each reader asks no more than that its index is inside.
// The definitions are model's specs/, over the objects in the two buffers; n and b say how many objects and body words stand there.
#![tactic(auto)]

ghost use Rattle.std.specs.Prelude.{◌≡◌, List, ℕ, ◌*◌, ◌<◌, ◌≤◌, length, get_or, take};
ghost use Rattle.bytecode.specs.Test.{every};
ghost use Rattle.model.specs.Limits.{entry_words};
ghost use Rattle.model.specs.Word.{is_pointer, is_valid, object_number};
ghost use Rattle.model.specs.Objects.{objects_at, entry_word, class_word, kind, start, size, sized_in_bytes, body_words, body_end, body_word, is_kind, is_nil_or, entries_at};
ghost use Rattle.model.specs.Method.{argument_count};
ghost use Rattle.readers.specs.Places.{Entry, Inside, CountInside};
ghost use Rattle.readers.specs.Header.{flag_of, temporaries_of, literals_of, frame_of, runs_of};
ghost use Rattle.readers.specs.Lent.{objects_in, In};

use model::{Pointer, limits};

pub mod edition;

// An even word that names one of the objects 1 to n.
pub fn is_pointer(n: usize, w: u16) -> bool
    ensures { result ≡ is_pointer n w }
{
    w % 2 == 0 && 1 <= w / 2 && (w / 2) as usize <= n
}

// An integer, or the name of an object.
pub fn is_valid(n: usize, w: u16) -> bool
    ensures { result ≡ is_valid n w }
{
    w % 2 == 1 || is_pointer(n, w)
}

// Every word is valid.
pub fn valid_words(n: usize, words: &[u16]) -> bool
    ensures { result ≡ every (is_valid n) words.now }
{
    words.iter().all(|w| is_valid(n, *w))
}

// Kinds whose size is in bytes.
pub fn in_bytes(of: u16) -> bool
    ensures { result ≡ sized_in_bytes of }
{
    of == limits::BYTES || of == limits::METHOD
}

// The object memory in two lent buffers, and how many objects and body words stand there, for what only reads. What writes takes the four apart:
// each function that is handed a struct of `&mut` has to promise that the references in it stay the same.
#[derive(Clone, Copy)]
pub struct Memory<'a> {
    pub contents: &'a [u16],
    pub bodies: &'a [u16],
    pub n: usize,
    pub b: usize,
}

impl Memory<'_> {
    // Word i of the entry of object k.
    fn entry_word(&self, k: usize, i: usize) -> u16
        requires { Entry self.now.n k self.now.contents.now × (i < entry_words) }
        ensures { result ≡ entry_word (entries_at self.now.n self.now.contents.now) k i }
    {
        self.contents[limits::ENTRY_WORDS * (k - 1) + i]
    }

    pub fn class_word(&self, k: usize) -> u16
        requires { Entry self.now.n k self.now.contents.now }
        ensures { result ≡ class_word (entries_at self.now.n self.now.contents.now) k }
    {
        self.entry_word(k, 0)
    }

    pub fn kind(&self, k: usize) -> u16
        requires { Entry self.now.n k self.now.contents.now }
        ensures { result ≡ kind (entries_at self.now.n self.now.contents.now) k }
    {
        self.entry_word(k, 1)
    }

    pub fn start(&self, k: usize) -> u16
        requires { Entry self.now.n k self.now.contents.now }
        ensures { result ≡ start (entries_at self.now.n self.now.contents.now) k }
    {
        self.entry_word(k, 2)
    }

    pub fn size(&self, k: usize) -> u16
        requires { Entry self.now.n k self.now.contents.now }
        ensures { result ≡ size (entries_at self.now.n self.now.contents.now) k }
    {
        self.entry_word(k, 3)
    }

    // The word names an object of this kind.
    pub fn is_kind(&self, of: u16, w: u16) -> bool
        requires { entry_words * self.now.n ≤ length self.now.contents.now }
        ensures { (b : ℕ) (bodies : List ℕ) → result ≡ is_kind (objects_at self.now.n b self.now.contents.now bodies) of w }
    {
        is_pointer(self.n, w) && self.kind((w / 2) as usize) == of
    }

    // nil, or the name of an object of this kind.
    pub fn is_nil_or(&self, of: u16, w: u16) -> bool
        requires { entry_words * self.now.n ≤ length self.now.contents.now }
        ensures { (b : ℕ) (bodies : List ℕ) → result ≡ is_nil_or (objects_at self.now.n b self.now.contents.now bodies) of w }
    {
        w == limits::NIL || self.is_kind(of, w)
    }

    // How many words the body of object k has.
    pub fn body_words(&self, k: usize) -> u16
        requires { Entry self.now.n k self.now.contents.now }
        ensures { (b : ℕ) (bodies : List ℕ) → result ≡ body_words (objects_at self.now.n b self.now.contents.now bodies) k }
    {
        let size = self.size(k);
        if in_bytes(self.kind(k)) {
            size.div_ceil(2)
        } else {
            size
        }
    }

    // Where the body of object k ends.
    pub fn body_end(&self, k: usize) -> usize
        requires { Entry self.now.n k self.now.contents.now }
        ensures { (b : ℕ) (bodies : List ℕ) → result ≡ body_end (objects_at self.now.n b self.now.contents.now bodies) k }
    {
        self.start(k) as usize + self.body_words(k) as usize
    }

    // Word i of the bodies; 0 outside them.
    pub fn word_at(&self, i: usize) -> u16
        requires { self.now.b ≤ length self.now.bodies.now }
        ensures { result ≡ get_or (take self.now.b self.now.bodies.now) i 0 }
    {
        if i < self.b { self.bodies[i] } else { 0 }
    }

    // Word i of an object's body.
    pub fn word_of(&self, p: Pointer, i: usize) -> u16
        requires { In Inside self.now p.0 i }
        ensures { result ≡ body_word (objects_in self.now) (object_number p.0) i }
    {
        self.bodies[self.start(p.0 as usize / 2) as usize + i]
    }

    // How many arguments a method takes: its flag, or what its extension says, or none.
    pub fn argument_count(&self, m: Pointer) -> usize
        requires { In CountInside self.now m.0 }
        ensures { (result ≡ argument_count (objects_in self.now) m.0) × (result < 32) }
    {
        let header = self.word_of(m, limits::HEADER) as usize;
        let of = flag(header);
        if of <= limits::LAST_COUNT {
            of
        } else if of == limits::PRIMITIVE {
            let literals = literal_count(header);
            let extension = self.word_of(m, literals) as usize;
            extension / 512 % 32
        } else {
            0
        }
    }
}

// What a method's header says.
pub fn flag(header: usize) -> usize
    ensures { result ≡ flag_of header }
{
    header / 8192 % 8
}

pub fn temporary_count(header: usize) -> usize
    ensures { result ≡ temporaries_of header }
{
    header / 256 % 32
}

pub fn literal_count(header: usize) -> usize
    ensures { result ≡ literals_of header }
{
    header / 2 % 64
}

pub fn frame_words(header: usize) -> usize
    ensures { result ≡ frame_of header }
{
    if header / 128 % 2 == 1 {
        limits::LARGE_FRAME
    } else {
        limits::SMALL_FRAME
    }
}

// Whether the method's code can run.
pub fn runs_code(header: usize) -> bool
    ensures { result ≡ runs_of header }
{
    let of = flag(header);
    of <= limits::LAST_COUNT || of == limits::PRIMITIVE
}
