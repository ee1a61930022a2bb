// The image rules 4, 5, 14 and 6 over the lent words. The definitions are model's specs/Rules.antt.
#![tactic(auto)]

ghost use Rattle.std.specs.Prelude.{◌≡◌, ◌≤◌, eqb, length};
ghost use Rattle.bytecode.specs.Test.{implies, all_of};
ghost use Rattle.model.specs.Limits.{least_objects, class_kind, class_words};
ghost use Rattle.model.specs.Rules.{padding_fine, layout_rules, words_fine, rule4, rule5, rule14, rule6};
ghost use Rattle.readers.specs.Places.{Entry, Laid};
ghost use Rattle.rules.specs.Lent.{Lent, start_of};
ghost use Rattle.readers.specs.Lent.{objects_in, In};

use model::limits;
use readers::Memory;

mod class_rules;

// Rule 4. An odd number of bytes leaves half a word, which is zero.
fn padding(memory: &Memory, k: usize) -> bool
    requires { Entry memory.now.n k memory.now.contents.now × (memory.now.b ≤ length memory.now.bodies.now) }
    ensures { result ≡ padding_fine (objects_in memory.now) k }
{
    let bytes = memory.size(k);
    let last = memory.start(k) as usize + (bytes / 2) as usize;
    !readers::in_bytes(memory.kind(k)) || bytes % 2 == 0 || memory.word_at(last) % 256 == 0
}

// A class has 4 words.
fn class_size(of: u16, words: u16) -> bool
    ensures { result ≡ implies (eqb of class_kind) (eqb words class_words) }
{
    of != limits::CLASS || words == limits::CLASS_WORDS
}

// The layout of one object: `from` is where the body before it ends.
fn object_layout(edition: u16, memory: &Memory, k: usize, from: usize) -> bool
    requires { Entry memory.now.n k memory.now.contents.now × ((memory.now.b ≤ length memory.now.bodies.now) × (from ≡ start_of (objects_in memory.now) k)) }
    ensures { result ≡ all_of (layout_rules edition (objects_in memory.now) k) }
{
    let of = memory.kind(k);
    of <= readers::edition::last_kind(edition)
        && memory.start(k) as usize == from
        && class_size(of, memory.size(k))
        && padding(memory, k)
}

// Rule 4: the layout.
pub fn layout(edition: u16, memory: &Memory) -> bool
    requires { In (Lent edition) memory.now }
    ensures { result ≡ rule4 edition (objects_in memory.now) }
{
    let mut from = 0;
    for k in 1..=memory.n {
        if !object_layout(edition, memory, k, from) {
            return false;
        }
        from = memory.body_end(k);
    }
    from == memory.b
}

// The class of object k, and the words of its body unless they are bytes.
fn object_words(memory: &Memory, k: usize) -> bool
    requires { In Laid memory.now × ((1 ≤ k) × (k ≤ memory.now.n)) }
    ensures { result ≡ words_fine (objects_in memory.now) k }
{
    if !readers::is_valid(memory.n, memory.class_word(k)) {
        return false;
    }
    if readers::in_bytes(memory.kind(k)) {
        return true;
    }
    let from = memory.start(k) as usize;
    let end = from + memory.size(k) as usize;
    readers::valid_words(memory.n, &memory.bodies[from..end])
}

// Rule 5: the words that have to be valid.
pub fn words(edition: u16, memory: &Memory) -> bool
    requires { In Laid memory.now }
    ensures { result ≡ rule5 edition (objects_in memory.now) }
{
    (1..=memory.n).all(|k| object_words(memory, k))
}

// Rule 14: the chain of every class.
pub fn chains(memory: &Memory) -> bool
    requires { In Laid memory.now }
    ensures { result ≡ rule14 (objects_in memory.now) }
{
    (1..=memory.n).all(|k| class_rules::chain_fine(memory, k))
}

// Rule 6: classes, dictionaries, the objects with a fixed number.
pub fn classes(edition: u16, memory: &Memory) -> bool
    requires { In Laid memory.now × (least_objects edition ≤ memory.now.n) }
    ensures { result ≡ rule6 edition (objects_in memory.now) }
{
    class_rules::known_fine(edition, memory) && class_rules::shapes(edition, memory)
}
