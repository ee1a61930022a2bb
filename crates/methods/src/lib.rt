// The image rules of methods (refusal 7). A method is given by its word.
#![tactic(auto)]

ghost use Rattle.std.specs.Prelude.{◌≡◌, List, ℕ, ◌+◌, ◌*◌, ◌/◌, ◌%◌, ◌<◌, ◌≤◌, T, length, get_or};
ghost use Rattle.bytecode.specs.Test.{below, all_of};
ghost use Rattle.model.specs.Limits.{entry_words, method_kind, failure_selector_object};
ghost use Rattle.model.specs.Word.{is_valid};
ghost use Rattle.model.specs.Objects.{Objects, objects_at, is_kind};
ghost use Rattle.model.specs.Method.{literal, literal_count};
ghost use Rattle.model.specs.Rules.{extension_fine, variable_fine, takes_count, send_fine, failure_methods_fine};
ghost use Rattle.readers.specs.Places.{Laid};
ghost use Rattle.methods.specs.Asked.{Ready, Literals, ClassAsked, PairAsked, ObjectAsked, FlagAsked, SendAsked};
ghost use Rattle.methods.specs.Counts.{Counts, Noted, Turned, Held};
ghost use Rattle.methods.specs.Passes.{shape_rules, field_rule, primitive_rule, flag_rules, shape_fine, shapes};
ghost use Rattle.readers.specs.Lent.{objects_in, In};

use model::{Pointer, limits};
use readers::Memory;

// The count under a selector: noted where there is none, else compared. 0 is no note, not an Option: the table is cleared by one fill.
fn note_count(counts: &mut [u8], j: usize, note: u8) -> bool
    requires { j < length counts.old }
    ensures { Noted counts.old j note counts.new result }
{
    let fits = counts[j] == 0 || counts[j] == note;
    if fits {
        counts[j] = note;
    }
    fits
}

// Pair i of a class's dictionary: its method names the class as home and takes the count of its selector.
fn count_pair(memory: &Memory, class: u16, i: usize, counts: &mut [u8]) -> bool
    requires { In PairAsked memory.now class i counts.old }
    ensures { Turned (objects_in memory.now) (class / 2) (i + 1) counts.new result }
{
    let d = memory.word_of(Pointer(class), limits::DICTIONARY);
    let s = memory.word_of(Pointer(d), 2 * i);
    let m = memory.word_of(Pointer(d), 2 * i + 1);
    let home = memory.word_of(Pointer(m), limits::HOME);
    if home != class {
        return false;
    }
    let count = memory.argument_count(Pointer(m));
    note_count(counts, (s / 2) as usize, (count + 1) as u8)
}

// All pairs of a class's dictionary.
fn count_class(memory: &Memory, class: u16, counts: &mut [u8]) -> bool
    requires { In ClassAsked memory.now class counts.old }
    ensures { Turned (objects_in memory.now) (class / 2 + 1) 0 counts.new result }
{
    let d = memory.word_of(Pointer(class), limits::DICTIONARY);
    let pairs = (memory.size((d / 2) as usize) / 2) as usize;
    for i in 0..pairs {
        if !count_pair(memory, class, i, counts) {
            return false;
        }
    }
    true
}

// Object k, where it is a class.
fn count_object(memory: &Memory, k: usize, counts: &mut [u8]) -> bool
    requires { In ObjectAsked memory.now k counts.old }
    ensures { Turned (objects_in memory.now) (k + 1) 0 counts.new result }
{
    if memory.kind(k) != limits::CLASS {
        return true;
    }
    count_class(memory, (2 * k) as u16, counts)
}

// The second pass: dictionaries hold methods of their own class, and methods under one selector take equally many arguments. The counts,
// over object numbers, are left for the sends.
pub fn count_methods(memory: &Memory, counts: &mut [u8]) -> bool
    requires { In Ready memory.now
        × T (shapes (objects_in memory.now))
        × (memory.now.n < length counts.old)
        × ((j : ℕ) → get_or counts.old j 0 ≡ 0) }
    ensures { Held (objects_in memory.now) counts.new result }
{
    for k in 1..=memory.n {
        if !count_object(memory, k, counts) {
            return false;
        }
    }
    true
}

// The literals are valid words. Under `all` the closure would have to show anew, of each index that it may be handed, that the word can be read.
fn literals_valid(memory: &Memory, m: u16, literals: usize) -> bool
    requires { In Literals memory.now m literals }
    ensures { result ≡ below literals (λ i. is_valid memory.now.n (literal (objects_in memory.now) m i)) }
{
    for i in 0..literals {
        let w = memory.word_of(Pointer(m), limits::LITERALS + i);
        if !readers::is_valid(memory.n, w) {
            return false;
        }
    }
    true
}

// The extension of flag 7: 2 literals at least, an integer word, its two high bits zero.
fn extension_fine(memory: &Memory, m: u16, literals: usize) -> bool
    requires { In Literals memory.now m literals × (literals ≡ literal_count (objects_in memory.now) m) }
    ensures { result ≡ extension_fine (objects_in memory.now) m }
{
    if literals < 2 {
        return false;
    }
    let w = memory.word_of(Pointer(m), literals);
    w % 2 == 1 && w < 16384
}

// Flag 6 answers a field that its home has.
fn field_fine(memory: &Memory, m: u16, header: usize, home: u16) -> bool
    requires { In FlagAsked memory.now m header home }
    ensures { result ≡ field_rule (objects_in memory.now) m }
{
    if readers::flag(header) != limits::ANSWER_FIELD {
        return true;
    }
    let fields = memory.word_of(Pointer(home), limits::FIELDS_WORD) / 2;
    readers::temporary_count(header) < fields as usize
}

// Flag 7 has its extension.
fn primitive_fine(memory: &Memory, m: u16, header: usize, home: u16) -> bool
    requires { In FlagAsked memory.now m header home }
    ensures { result ≡ primitive_rule (objects_in memory.now) m }
{
    readers::flag(header) != limits::PRIMITIVE
        || extension_fine(memory, m, readers::literal_count(header))
}

// What the flag asks of a method whose home is a class; and arguments are temporaries.
fn flag_fine(memory: &Memory, m: u16, header: usize, home: u16) -> bool
    requires { In FlagAsked memory.now m header home }
    ensures { result ≡ flag_rules (objects_in memory.now) m }
{
    field_fine(memory, m, header, home)
        && primitive_fine(memory, m, header, home)
        && memory.argument_count(Pointer(m)) <= readers::temporary_count(header)
}

// Every rule of a method but that of its code.
fn shape(memory: &Memory, m: u16) -> bool
    requires { In Laid memory.now × T (is_kind (objects_in memory.now) method_kind m) }
    ensures { result ≡ all_of (shape_rules (objects_in memory.now) m) }
{
    let size = memory.size((m / 2) as usize) as usize;
    if size < 4 {
        return false;
    }
    let header = memory.word_of(Pointer(m), limits::HEADER) as usize;
    if header % 2 != 1 {
        return false;
    }
    let literals = readers::literal_count(header);
    if size < 4 + 2 * literals {
        return false;
    }
    let home = memory.word_of(Pointer(m), limits::HOME);
    memory.is_kind(limits::CLASS, home)
        && literals_valid(memory, m, literals)
        && flag_fine(memory, m, header, home)
}

// Object k, where it is a method.
fn shape_object(memory: &Memory, k: usize) -> bool
    requires { In Laid memory.now × (1 ≤ k) × (k ≤ memory.now.n) }
    ensures { result ≡ shape_fine (objects_in memory.now) k }
{
    memory.kind(k) != limits::METHOD || shape(memory, (2 * k) as u16)
}

// The first pass: the words of all methods.
pub fn shapes_fine(memory: &Memory) -> bool
    requires { In Laid memory.now }
    ensures { result ≡ shapes (objects_in memory.now) }
{
    (1..=memory.n).all(|k| shape_object(memory, k))
}

// A literal variable has its form: a kind 0 object of at least 2 fields.
pub fn variable_fine(memory: &Memory, w: u16) -> bool
    requires { entry_words * memory.now.n ≤ length memory.now.contents.now }
    ensures { (b : ℕ) (bodies : List ℕ) → result ≡ variable_fine (objects_at memory.now.n b memory.now.contents.now bodies) w }
{
    memory.is_kind(limits::FIELDS, w) && 2 <= memory.size((w / 2) as usize)
}

// Whether the methods under a selector take so many arguments, by their counts.
fn takes_count(counts: &[u8], selector: u16, arguments: u8) -> bool
    requires { selector / 2 < length counts.now }
    ensures { (o : Objects) → Counts o counts.now → selector % 2 ≡ 0 → result ≡ takes_count o selector arguments }
{
    let note = counts[(selector / 2) as usize];
    note == 0 || note as usize == arguments as usize + 1
}

// A send's selector is nil or of kind 1, and the methods under it take its count.
pub fn send_fine(memory: &Memory, counts: &[u8], selector: u16, arguments: u8) -> bool
    requires { In SendAsked memory.now counts.now }
    ensures { result ≡ send_fine (objects_in memory.now) selector arguments }
{
    memory.is_nil_or(limits::BYTES, selector) && takes_count(counts, selector, arguments)
}

// In editions that have messages the methods under object 6 take one argument.
pub fn failures_fine(edition: u16, counts: &[u8]) -> bool
    requires { failure_selector_object < length counts.now }
    ensures { (o : Objects) → Counts o counts.now → result ≡ failure_methods_fine edition o }
{
    !readers::edition::has_messages(edition) || takes_count(counts, limits::FAILURE_SELECTOR, 1)
}
