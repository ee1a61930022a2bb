// Primitives 60 to 62, 70, 71, 110 and 111. The definitions are model's specs/Primitive.antt; what fails changes nothing.
#![tactic(auto)]

ghost use Rattle.std.specs.Prelude.{◌≡◌, List, [], ◌∷◌, ℕ, ◌+◌, ◌*◌, ◌<◌, ◌≤◌, length};
ghost use Rattle.model.specs.Limits.{entry_words, most_objects, most_body_words, fields_kind, message_fields};
ghost use Rattle.model.specs.Objects.{objects_at, part};
ghost use Rattle.model.specs.Rules.{IsRight};
ghost use Rattle.model.specs.Primitive.{answers, at, at_put, size_answer, appended, has_room, array_made, message_made, has_message_room, make, new, new_with, computed, perform, primitive_count, primitive};
ghost use Rattle.model.specs.Word.{pointer, message_class};
ghost use Rattle.primitives.specs.Outcomes.{room_for, done_with, Receives, Puts, Does, DoesAt, Stand, MessageRoom, kind_of_elements, elements_of, natural_of, index_of, fits_buffers};
ghost use Rattle.readers.specs.Lent.{objects_in, In};

use model::{Pointer, limits};
use readers::Memory;

const MOST_OBJECTS: usize = limits::MOST_OBJECTS as usize;

const MOST_BODY_WORDS: usize = limits::MOST_BODY_WORDS as usize;

const LARGEST_INTEGER: usize = 16383;

// Objects that have more are none for 60 to 62.
const MOST_ELEMENTS: usize = 16383;

// Words of a message.
const MESSAGE_WORDS: usize = limits::MESSAGE_FIELDS as usize;

// The forms, as `objects::form_of` has them.
const FIXED: usize = limits::FIXED as usize;

const INDEXED: usize = limits::INDEXED as usize;

const OF_BYTES: usize = limits::OF_BYTES as usize;

// What a primitive gives: a word or failure, and how many objects and body words there are then.
#[derive(Clone, Copy)]
pub struct Done {
    pub answer: Option<u16>,
    pub n: usize,
    pub b: usize,
}

// What elements are.
#[derive(Clone, Copy)]
pub enum ElementKind {
    Words,
    Bytes,
}

// What 60 to 62 take of a receiver: its elements, where in the body they start, and how many there are.
#[derive(Clone, Copy)]
pub struct Elements {
    pub by: ElementKind,
    pub start: usize,
    pub count: usize,
}

// What is computed, or failure, with as many objects and body words as before.
pub fn computed(answer: Option<u16>, n: usize, b: usize) -> Done
    ensures { result ≡ done_with answer n b }
{
    Done { answer, n, b }
}

pub fn failed(n: usize, b: usize) -> Done
    ensures { result ≡ done_with None n b }
{
    computed(None, n, b)
}

// What the elements are of objects of a form, if 60 to 62 take them.
fn element_kind(form: usize) -> Option<ElementKind>
    ensures { result ≡ kind_of_elements form }
{
    match form {
        INDEXED => Some(ElementKind::Words),
        OF_BYTES => Some(ElementKind::Bytes),
        _ => None,
    }
}

// The elements of a receiver, behind the named fields of its class.
fn elements_of(memory: &Memory, w: u16) -> Option<Elements>
    requires { In Receives memory.now w }
    ensures { result ≡ elements_of (objects_in memory.now) w }
{
    if w % 2 == 1 {
        return None;
    }
    let class = objects::class_of(memory, w);
    let by = element_kind(objects::form_of(memory, class))?;
    let start = objects::field_count(memory, class);
    let size = memory.size(w as usize / 2) as usize;
    let count = size - start;
    if MOST_ELEMENTS < count {
        None
    } else {
        Some(Elements { by, start, count })
    }
}

// The number that a word holds, if it is natural and at most this large.
fn natural(most: usize, x: u16) -> Option<usize>
    ensures { result ≡ natural_of most x }
{
    if x % 2 != 1 {
        return None;
    }
    let i = x as usize / 2;
    if i <= most { Some(i) } else { None }
}

// The number of an index word, if it is from 1 to a count.
fn index(count: usize, x: u16) -> Option<usize>
    ensures { result ≡ index_of count x }
{
    let i = natural(LARGEST_INTEGER, x)?;
    if (1..=count).contains(&i) {
        Some(i)
    } else {
        None
    }
}

// 60
pub fn at(memory: &Memory, w: u16, x: u16) -> Option<u16>
    requires { In Receives memory.now w }
    ensures { computed (objects_in memory.now) result ≡ at (objects_in memory.now) w x }
{
    let e = elements_of(memory, w)?;
    let i = index(e.count, x)?;
    let from = e.start + (i - 1);
    match e.by {
        ElementKind::Bytes => {
            let v = objects::byte_of(memory, Pointer(w), from);
            Some(2 * (v as u16) + 1)
        }
        ElementKind::Words => Some(memory.word_of(Pointer(w), from)),
    }
}

// 61
pub fn at_put(
    contents: &[u16],
    bodies: &mut [u16],
    n: usize,
    b: usize,
    w: u16,
    x: u16,
    v: u16,
) -> Option<u16>
    requires { Receives n b contents.now bodies.old w }
    ensures { Puts (objects_at n b contents.now bodies.old)
        (at_put (objects_at n b contents.now bodies.old) w x v) result bodies.old bodies.new }
{
    let memory = &Memory {
        contents,
        bodies,
        n,
        b,
    };
    let e = elements_of(memory, w)?;
    let i = index(e.count, x)?;
    let to = e.start + (i - 1);
    match e.by {
        ElementKind::Bytes => {
            let byte = natural(255, v)?;
            objects::store_byte(contents, bodies, n, b, Pointer(w), to, byte as u8);
            Some(v)
        }
        ElementKind::Words => {
            objects::store_word(contents, bodies, n, b, Pointer(w), to, v);
            Some(v)
        }
    }
}

// 62
pub fn size_answer(memory: &Memory, w: u16) -> Option<u16>
    requires { In Receives memory.now w }
    ensures { computed (objects_in memory.now) result ≡ size_answer (objects_in memory.now) w }
{
    let e = elements_of(memory, w)?;
    Some((2 * e.count + 1) as u16)
}

// Room for so many more objects, one or two, of so many body words together, in buffers of these lengths.
fn fits(contents: usize, bodies: usize, n: usize, b: usize, objects: usize, words: usize) -> bool
    requires { (b ≤ most_body_words) × (objects ≤ 2) × (words < 131072) }
    ensures { result ≡ fits_buffers contents bodies n b objects words }
{
    n <= MOST_OBJECTS - objects
        && b + words <= MOST_BODY_WORDS
        && limits::ENTRY_WORDS * (n + objects) <= contents
        && b + words <= bodies
}

// Room for one more object of so many body words, in buffers of these lengths.
pub fn has_room(contents: usize, bodies: usize, n: usize, b: usize, count: usize) -> bool
    requires { (b ≤ most_body_words) × (count < 65536) }
    ensures { (entries words : List ℕ) → result ≡ has_room (room_for contents bodies) (objects_at n b entries words) count }
{
    fits(contents, bodies, n, b, 1, count)
}

// The entry of one more object, whose body words stand behind the others already. No body is read, so it is the same whatever they hold.
pub fn append(
    contents: &mut [u16],
    n: usize,
    b: usize,
    class: Pointer,
    kind: u16,
    size: u16,
    count: usize,
) -> Done
    requires { (n < most_objects) × (b + count ≤ most_body_words) × (entry_words * (n + 1) ≤ length contents.old) }
    ensures { (bodies : List ℕ)
        → b + count ≤ length bodies
        → Does (objects_at n b contents.old bodies)
        (answers (pointer (n + 1)) (appended (objects_at n b contents.old bodies) class.0 kind size (part bodies b count))) result
        contents.old bodies contents.new bodies }
{
    let at = limits::ENTRY_WORDS * n;
    contents[at] = class.0;
    contents[at + 1] = kind;
    contents[at + 2] = b as u16;
    contents[at + 3] = size;
    Done {
        answer: Some((2 * (n + 1)) as u16),
        n: n + 1,
        b: b + count,
    }
}

// Room for an array of so many arguments and a message, in buffers of these lengths.
pub fn has_message_room(contents: usize, bodies: usize, n: usize, b: usize, count: usize) -> bool
    requires { (n ≤ most_objects) × (b ≤ most_body_words) × (count < 65536) }
    ensures { (entries words : List ℕ) → result ≡ has_message_room (room_for contents bodies) (objects_at n b entries words) count }
{
    fits(contents, bodies, n, b, 2, count + MESSAGE_WORDS)
}

// The array of a send's arguments, which stand in the stack.
fn append_array(
    contents: &mut [u16],
    bodies: &mut [u16],
    stack: &[u16],
    n: usize,
    b: usize,
    from: usize,
    count: usize,
)
    requires { (n < most_objects) × (b + count ≤ most_body_words) × (entry_words * (n + 1) ≤ length contents.old) × (b + count ≤ length bodies.old)
        × (from + count ≤ length stack.now) }
    ensures { Stand (array_made (objects_at n b contents.old bodies.old) (part stack.now from count))
        contents.old bodies.old contents.new bodies.new }
{
    words::copy(bodies, b, stack, from, count);
    append(
        contents,
        n,
        b,
        Pointer(limits::ARRAY_CLASS),
        limits::FIELDS,
        count as u16,
        count,
    );
}

// A message of a selector and an array.
fn append_message(
    contents: &mut [u16],
    bodies: &mut [u16],
    n: usize,
    b: usize,
    selector: u16,
    array: u16,
)
    requires { (n < most_objects) × (b + 2 ≤ most_body_words) × (entry_words * (n + 1) ≤ length contents.old) × (b + 2 ≤ length bodies.old) }
    ensures { Stand (appended (objects_at n b contents.old bodies.old) message_class fields_kind message_fields (selector ∷ array ∷ []))
        contents.old bodies.old contents.new bodies.new }
{
    bodies[b] = selector;
    bodies[b + 1] = array;
    append(
        contents,
        n,
        b,
        Pointer(limits::MESSAGE_CLASS),
        limits::FIELDS,
        limits::MESSAGE_FIELDS,
        MESSAGE_WORDS,
    );
}

// The array of a send's arguments and behind it its message, where there is room for both.
pub fn make_message(
    contents: &mut [u16],
    bodies: &mut [u16],
    stack: &[u16],
    n: usize,
    b: usize,
    selector: u16,
    from: usize,
    count: usize,
)
    requires { MessageRoom n b count contents.old bodies.old × (from + count ≤ length stack.now) }
    ensures { Stand (message_made (objects_at n b contents.old bodies.old) selector (part stack.now from count))
        contents.old bodies.old contents.new bodies.new }
{
    append_array(contents, bodies, stack, n, b, from, count);
    append_message(
        contents,
        bodies,
        n + 1,
        b + count,
        selector,
        (2 * (n + 1)) as u16,
    );
}

// One more object whose body words are all the same, if there is room for it.
fn make(
    contents: &mut [u16],
    bodies: &mut [u16],
    n: usize,
    b: usize,
    class: Pointer,
    kind: u16,
    size: u16,
    count: usize,
    w: u16,
) -> Done
    requires { IsRight (objects_at n b contents.old bodies.old) × (count < 65536) }
    ensures { DoesAt n b contents.old bodies.old (λ room o. make room o class.0 kind size count w) result
        contents.new bodies.new }
{
    if !has_room(contents.len(), bodies.len(), n, b, count) {
        return failed(n, b);
    }
    words::fill(bodies, b, count, w);
    append(contents, n, b, class, kind, size, count)
}

// 70
pub fn new_object(contents: &mut [u16], bodies: &mut [u16], n: usize, b: usize, w: u16) -> Done
    requires { IsRight (objects_at n b contents.old bodies.old) }
    ensures { DoesAt n b contents.old bodies.old (λ room o. new room o w) result
        contents.new bodies.new }
{
    let memory = &Memory {
        contents,
        bodies,
        n,
        b,
    };
    if !memory.is_kind(limits::CLASS, w) {
        return failed(n, b);
    }
    let form = objects::form_of(memory, Pointer(w));
    if form != FIXED {
        return failed(n, b);
    }
    let count = objects::field_count(memory, Pointer(w));
    make(
        contents,
        bodies,
        n,
        b,
        Pointer(w),
        limits::FIELDS,
        count as u16,
        count,
        limits::NIL,
    )
}

// 71
pub fn new_with(
    contents: &mut [u16],
    bodies: &mut [u16],
    n: usize,
    b: usize,
    w: u16,
    x: u16,
) -> Done
    requires { IsRight (objects_at n b contents.old bodies.old) }
    ensures { DoesAt n b contents.old bodies.old (λ room o. new_with room o w x) result
        contents.new bodies.new }
{
    let memory = &Memory {
        contents,
        bodies,
        n,
        b,
    };
    if !memory.is_kind(limits::CLASS, w) {
        return failed(n, b);
    }
    let Some(more) = natural(LARGEST_INTEGER, x) else {
        return failed(n, b);
    };
    match objects::form_of(memory, Pointer(w)) {
        INDEXED => {
            let count = objects::field_count(memory, Pointer(w)) + more;
            make(
                contents,
                bodies,
                n,
                b,
                Pointer(w),
                limits::FIELDS,
                count as u16,
                count,
                limits::NIL,
            )
        }
        OF_BYTES => make(
            contents,
            bodies,
            n,
            b,
            Pointer(w),
            limits::BYTES,
            more as u16,
            (more + 1) / 2,
            0,
        ),
        _ => failed(n, b),
    }
}

// How many arguments a primitive takes.
pub fn primitive_count(k: usize) -> usize
    ensures { result ≡ primitive_count k }
{
    match k {
        61 => 2,
        62 | 70 | 111 => 0,
        _ => 1,
    }
}

// A primitive that is none of 1 to 17, on a receiver and two arguments, those that it takes.
pub fn perform(
    contents: &mut [u16],
    bodies: &mut [u16],
    edition: u16,
    n: usize,
    b: usize,
    k: usize,
    w: u16,
    x: u16,
    y: u16,
) -> Done
    requires { Receives n b contents.old bodies.old w × (1 ≤ k → 17 < k) }
    ensures { DoesAt n b contents.old bodies.old (λ room o. perform edition room o k w x y) result
        contents.new bodies.new }
{
    let memory = &Memory {
        contents,
        bodies,
        n,
        b,
    };
    match k {
        60 => computed(at(memory, w, x), n, b),
        61 => computed(at_put(contents, bodies, n, b, w, x, y), n, b),
        62 => computed(size_answer(memory, w), n, b),
        70 => new_object(contents, bodies, n, b, w),
        71 => new_with(contents, bodies, n, b, w, x),
        110 => computed(Some(model::boolean_word(w == x)), n, b),
        111 => computed(Some(objects::class_of(memory, w).0), n, b),
        _ => failed(n, b),
    }
}

// The same with the count that the primitive is called with: another than its own fails.
pub fn primitive(
    contents: &mut [u16],
    bodies: &mut [u16],
    edition: u16,
    n: usize,
    b: usize,
    k: usize,
    count: usize,
    w: u16,
    x: u16,
    y: u16,
) -> Done
    requires { Receives n b contents.old bodies.old w × (1 ≤ k → 17 < k) }
    ensures { DoesAt n b contents.old bodies.old (λ room o. primitive edition room o k count w (x ∷ y ∷ [])) result
        contents.new bodies.new }
{
    if count != primitive_count(k) {
        return failed(n, b);
    }
    perform(contents, bodies, edition, n, b, k, w, x, y)
}
