// Rules 14 and 6 of an object, in words whose layout is right. specs/Shape.antt has the parts of rule 6.
ghost use Rattle.std.specs.Prelude.{◌≡◌, true, ◌-◌, ◌*◌, ◌<◌, ◌≤◌, ltb, length};
ghost use Rattle.bytecode.specs.Test.{up_to, below, every, implies, all_of};
ghost use Rattle.model.specs.Limits.{has_messages, least_objects, entry_words, class_kind, list_kind, longest_chain};
ghost use Rattle.model.specs.Word.{is_natural};
ghost use Rattle.model.specs.Objects.{is_kind, is_nil_or, superclass_word, pair_count, pair_selector, entries_at};
ghost use Rattle.model.specs.Lookup.{ends_within};
ghost use Rattle.model.specs.Rules.{chain_fine, entry_fine, pair_fine, dictionary_fine, message_object_rules, known_object_rules};
ghost use Rattle.readers.specs.Places.{Laid};
ghost use Rattle.rules.specs.Shape.{fits_form, numbers_fine, kinds_fine, selectors_fine, rises_fine, shape_rules, shape_fine, class_is};
ghost use Rattle.readers.specs.Lent.{objects_in, In};

use model::{Pointer, limits};
use readers::Memory;

// Whether an object of this kind and size fits a class of this form and F. Kinds and forms stay numbers here, since a word of an image that is
// not yet checked can be any.
fn fits_form(form: u16, fields: u16, of: u16, words: u16) -> bool
    ensures { result ≡ fits_form form fields of words }
{
    match form {
        limits::FIXED => of == limits::FIELDS && words == fields,
        limits::INDEXED => of == limits::FIELDS && fields <= words,
        limits::OF_BYTES => of == limits::BYTES,
        limits::OTHER => limits::CLASS <= of && of <= limits::METHOD,
        _ => false,
    }
}

// The class of object k is one, and the object fits its form.
fn entry_fine(edition: u16, memory: &Memory, k: usize) -> bool
    requires { In Laid memory.now × ((1 ≤ k) × (k ≤ memory.now.n)) }
    ensures { result ≡ entry_fine edition (objects_in memory.now) k }
{
    let c = memory.class_word(k);
    if !memory.is_kind(limits::CLASS, c) {
        return false;
    }
    let form = memory.word_of(Pointer(c), limits::FORM_WORD) / 2;
    let fields = memory.word_of(Pointer(c), limits::FIELDS_WORD) / 2;
    fits_form(form, fields, memory.kind(k), memory.size(k))
}

// An integer from 0 to `most`.
fn is_natural(most: u16, w: u16) -> bool
    ensures { result ≡ is_natural most w }
{
    w % 2 == 1 && w / 2 <= most
}

// F is at most 255 and the form at most 3; the forms 2 and 3 have F = 0.
fn numbers_fine(edition: u16, fields: u16, form: u16) -> bool
    ensures { result ≡ numbers_fine edition fields form }
{
    is_natural(limits::MOST_FIELDS, fields)
        && is_natural(readers::edition::last_form(edition), form)
        && (form / 2 < limits::OF_BYTES || fields / 2 == 0)
}

// F of the class c is not below that of its superclass s.
fn rises_fine(memory: &Memory, c: u16, s: u16) -> bool
    requires { In Laid memory.now
        × ((is_kind (objects_in memory.now) class_kind c ≡ true)
        × ((s ≡ superclass_word (objects_in memory.now) c)
        × (is_nil_or (objects_in memory.now) class_kind s ≡ true))) }
    ensures { result ≡ rises_fine (objects_in memory.now) c }
{
    let fields = memory.word_of(Pointer(c), limits::FIELDS_WORD) / 2;
    s == limits::NIL || memory.word_of(Pointer(s), limits::FIELDS_WORD) / 2 <= fields
}

// The selector of pair i is above the one before it.
fn selector_rises(memory: &Memory, d: u16, i: usize) -> bool
    requires { In Laid memory.now
        × ((is_kind (objects_in memory.now) list_kind d ≡ true) × (i < pair_count (objects_in memory.now) d)) }
    ensures { result ≡ implies (ltb 0 i) (ltb (pair_selector (objects_in memory.now) d (i - 1))
        (pair_selector (objects_in memory.now) d i)) }
{
    let s = memory.word_of(Pointer(d), 2 * i);
    i == 0 || memory.word_of(Pointer(d), 2 * (i - 1)) < s
}

// Pair i is a selector and a method, and the selector rises.
fn pair_fine(memory: &Memory, d: u16, i: usize) -> bool
    requires { In Laid memory.now
        × ((is_kind (objects_in memory.now) list_kind d ≡ true) × (i < pair_count (objects_in memory.now) d)) }
    ensures { result ≡ pair_fine (objects_in memory.now) d i }
{
    let s = memory.word_of(Pointer(d), 2 * i);
    let m = memory.word_of(Pointer(d), 2 * i + 1);
    memory.is_kind(limits::BYTES, s)
        && memory.is_kind(limits::METHOD, m)
        && selector_rises(memory, d, i)
}

// The pairs of the list d.
fn pairs_fine(memory: &Memory, d: u16, count: usize) -> bool
    requires { In Laid memory.now
        × ((is_kind (objects_in memory.now) list_kind d ≡ true)
        × (count ≡ pair_count (objects_in memory.now) d)) }
    ensures { result ≡ below count (pair_fine (objects_in memory.now) d) }
{
    (0..count).all(|i| pair_fine(memory, d, i))
}

fn dictionary_fine(memory: &Memory, d: u16) -> bool
    requires { In Laid memory.now × (is_kind (objects_in memory.now) list_kind d ≡ true) }
    ensures { result ≡ dictionary_fine (objects_in memory.now) d }
{
    let words = memory.size((d / 2) as usize);
    words % 2 == 0 && pairs_fine(memory, d, (words / 2) as usize)
}

// The body of the class c.
fn class_fine(edition: u16, memory: &Memory, c: u16) -> bool
    requires { In Laid memory.now × (is_kind (objects_in memory.now) class_kind c ≡ true) }
    ensures { result ≡ all_of (shape_rules edition (objects_in memory.now) c) }
{
    let s = memory.word_of(Pointer(c), limits::SUPERCLASS);
    let d = memory.word_of(Pointer(c), limits::DICTIONARY);
    let fields = memory.word_of(Pointer(c), limits::FIELDS_WORD);
    let form = memory.word_of(Pointer(c), limits::FORM_WORD);
    memory.is_nil_or(limits::CLASS, s)
        && memory.is_kind(limits::LIST, d)
        && numbers_fine(edition, fields, form)
        && rises_fine(memory, c, s)
        && dictionary_fine(memory, d)
}

fn shape_fine(edition: u16, memory: &Memory, k: usize) -> bool
    requires { In Laid memory.now × ((1 ≤ k) × (k ≤ memory.now.n)) }
    ensures { result ≡ shape_fine edition (objects_in memory.now) k }
{
    entry_fine(edition, memory, k)
        && (memory.kind(k) != limits::CLASS || class_fine(edition, memory, (2 * k) as u16))
}

// Every object.
pub fn shapes(edition: u16, memory: &Memory) -> bool
    requires { In Laid memory.now }
    ensures { result ≡ up_to memory.now.n (shape_fine edition (objects_in memory.now)) }
{
    (1..=memory.n).all(|k| shape_fine(edition, memory, k))
}

// The chain from the word c has at most 24 classes.
fn ends(memory: &Memory, c: u16) -> bool
    requires { In Laid memory.now }
    ensures { result ≡ ends_within longest_chain (objects_in memory.now) c }
{
    let mut at = c;
    for _ in 0..limits::LONGEST_CHAIN {
        if !memory.is_kind(limits::CLASS, at) {
            return true;
        }
        at = memory.word_of(Pointer(at), limits::SUPERCLASS);
    }
    !memory.is_kind(limits::CLASS, at)
}

pub fn chain_fine(memory: &Memory, k: usize) -> bool
    requires { In Laid memory.now × ((1 ≤ k) × (k ≤ memory.now.n)) }
    ensures { result ≡ chain_fine (objects_in memory.now) k }
{
    memory.kind(k) != limits::CLASS || ends(memory, (2 * k) as u16)
}

// nil, false and true have fields, and 4 is a class.
fn known_kinds(memory: &Memory) -> bool
    requires { (entry_words * memory.now.n ≤ length memory.now.contents.now) × (5 ≤ memory.now.n) }
    ensures { result ≡ kinds_fine (entries_at memory.now.n memory.now.contents.now) }
{
    memory.kind(limits::NIL_OBJECT) == limits::FIELDS
        && memory.kind(limits::FALSE_OBJECT) == limits::FIELDS
        && memory.kind(limits::TRUE_OBJECT) == limits::FIELDS
        && memory.kind(limits::INTEGER_CLASS_OBJECT) == limits::CLASS
}

// Every word is nil or names an object of this kind.
fn nil_or_words(memory: &Memory, of: u16, words: &[u16]) -> bool
    requires { entry_words * memory.now.n ≤ length memory.now.contents.now }
    ensures { result ≡ every (is_nil_or (entries_at memory.now.n memory.now.contents.now) of) words.now }
{
    words.iter().all(|w| memory.is_nil_or(of, *w))
}

// 5 is a list of 32 words, each nil or a selector.
fn selectors_fine(memory: &Memory) -> bool
    requires { In Laid memory.now }
    ensures { result ≡ selectors_fine (objects_in memory.now) }
{
    let from = memory.start(limits::SELECTORS_OBJECT) as usize;
    let end = from + limits::SPECIAL_SELECTORS as usize;
    memory.kind(limits::SELECTORS_OBJECT) == limits::LIST
        && memory.size(limits::SELECTORS_OBJECT) == limits::SPECIAL_SELECTORS
        && nil_or_words(memory, limits::BYTES, &memory.bodies[from..end])
}

// A class with a fixed number has this form and F.
fn class_is(memory: &Memory, k: usize, form: u16, fields: u16) -> bool
    requires { In Laid memory.now × (1 ≤ k) × (k ≤ memory.now.n) }
    ensures { result ≡ class_is (objects_in memory.now) k form fields }
{
    let c = Pointer((2 * k) as u16);
    memory.kind(k) == limits::CLASS
        && memory.word_of(c, limits::FORM_WORD) / 2 == form
        && memory.word_of(c, limits::FIELDS_WORD) / 2 == fields
}

// The objects of messages, in editions that have them: 6 is a selector, 7 the class of messages, 8 that of arrays.
fn messages_fine(edition: u16, memory: &Memory) -> bool
    requires { In Laid memory.now × (least_objects edition ≤ memory.now.n) }
    ensures { result ≡ implies (has_messages edition) (all_of (message_object_rules (objects_in memory.now))) }
{
    !readers::edition::has_messages(edition)
        || memory.kind(limits::FAILURE_SELECTOR_OBJECT) == limits::BYTES
            && class_is(
                memory,
                limits::MESSAGE_CLASS_OBJECT,
                limits::FIXED,
                limits::MESSAGE_FIELDS,
            )
            && class_is(memory, limits::ARRAY_CLASS_OBJECT, limits::INDEXED, 0)
}

// The objects with a fixed number.
pub fn known_fine(edition: u16, memory: &Memory) -> bool
    requires { In Laid memory.now × (least_objects edition ≤ memory.now.n) }
    ensures { result ≡ all_of (known_object_rules edition (objects_in memory.now)) }
{
    let c = Pointer(limits::INTEGER_CLASS);
    known_kinds(memory)
        && memory.word_of(c, limits::FORM_WORD) / 2 == limits::OTHER
        && selectors_fine(memory)
        && messages_fine(edition, memory)
}
