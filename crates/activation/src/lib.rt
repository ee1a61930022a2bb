// What a method does on a receiver and arguments: it answers without a frame, or runs in a new one. The definition is plain's
// specs/Step.antt; what does not answer changes nothing.
#![tactic(auto)]

ghost use Rattle.std.specs.Prelude.{◌≡◌, ◌&&◌, [], ◌∷◌, leb};
ghost use Rattle.model.specs.Primitive.{primitive};
ghost use Rattle.primitives.specs.Outcomes.{Receives, DoesAt};
ghost use Rattle.activation.specs.Activating.{outcome, Activable, Activates};

use model::{Pointer, limits};
use primitives::Done;
use readers::Memory;

// An answer, and how many objects and body words there are then; or a frame is needed; or the receiver has no such field.
#[derive(Clone, Copy)]
pub enum Activated {
    Answer { word: u16, n: usize, b: usize },
    Frame,
    Unfit,
}

// The extensions of at: and at:put:, the primitives 60 with one argument and 61 with two.
const AT: usize = 512 * 1 + 2 * 60 + 1;

const AT_PUT: usize = 512 * 2 + 2 * 61 + 1;

// What a primitive leads to: its answer, or a frame where it fails.
fn outcome(answer: Option<u16>, n: usize, b: usize) -> Activated
    ensures { result ≡ outcome answer n b }
{
    match answer {
        Some(word) => Activated::Answer { word, n, b },
        None => Activated::Frame,
    }
}

fn is_arithmetic(k: usize) -> bool
    ensures { result ≡ (leb 1 k && leb k 17) }
{
    (1..=17).contains(&k)
}

// A primitive on a receiver and two arguments, those that it takes: 1 to 17 only compute.
pub fn try_primitive(
    contents: &mut [u16],
    bodies: &mut [u16],
    edition: u16,
    n: usize,
    b: usize,
    k: usize,
    count: usize,
    w: u16,
    x: u16,
    y: u16,
) -> Done
    requires { Receives n b contents.old bodies.old w }
    ensures { DoesAt n b contents.old bodies.old (λ room o. primitive edition room o k count w (x ∷ y ∷ [])) result
        contents.new bodies.new }
{
    if !is_arithmetic(k) {
        return primitives::primitive(contents, bodies, edition, n, b, k, count, w, x, y);
    }
    if count != 1 {
        return primitives::failed(n, b);
    }
    primitives::computed(arithmetic::compute(k as u8, w, x), n, b)
}

// Flag 5 answers the receiver, flag 6 its field T, flag 7 tries a primitive.
pub fn activate(
    contents: &mut [u16],
    bodies: &mut [u16],
    edition: u16,
    n: usize,
    b: usize,
    method: Pointer,
    receiver: u16,
    x: u16,
    y: u16,
) -> Activated
    requires { Activable n b contents.old bodies.old method.0 receiver }
    ensures { Activates edition n b contents.old bodies.old method.0 receiver x y contents.new bodies.new result }
{
    let memory = &Memory {
        contents,
        bodies,
        n,
        b,
    };
    let header = objects::header(memory, method);
    let flag = readers::flag(header);
    match flag {
        limits::ANSWER_SELF => Activated::Answer {
            word: receiver,
            n,
            b,
        },
        limits::ANSWER_FIELD => {
            let i = readers::temporary_count(header);
            if !memory.is_kind(limits::FIELDS, receiver) {
                return Activated::Unfit;
            }
            let size = memory.size(receiver as usize / 2) as usize;
            if size <= i {
                return Activated::Unfit;
            }
            let word = memory.word_of(Pointer(receiver), i);
            Activated::Answer { word, n, b }
        }
        limits::PRIMITIVE => {
            let k = objects::primitive_number(memory, method);
            let count = objects::argument_count(memory, method);
            let done = try_primitive(contents, bodies, edition, n, b, k, count, receiver, x, y);
            outcome(done.answer, done.n, done.b)
        }
        _ => Activated::Frame,
    }
}

// The same for the sends of the run loop, into which it is compiled: a frame, at: and at:put: at once, the others by a call.
pub fn act(
    contents: &mut [u16],
    bodies: &mut [u16],
    edition: u16,
    n: usize,
    b: usize,
    method: Pointer,
    receiver: u16,
    x: u16,
    y: u16,
) -> Activated
    requires { Activable n b contents.old bodies.old method.0 receiver }
    ensures { Activates edition n b contents.old bodies.old method.0 receiver x y contents.new bodies.new result }
{
    let memory = &Memory {
        contents,
        bodies,
        n,
        b,
    };
    let flag = readers::flag(objects::header(memory, method));
    if flag < limits::ANSWER_SELF {
        return Activated::Frame;
    }
    if flag == limits::PRIMITIVE {
        let e = objects::extension(memory, method);
        if e == AT {
            return outcome(primitives::at(memory, receiver, x), n, b);
        }
        if e == AT_PUT {
            return outcome(
                primitives::at_put(contents, bodies, n, b, receiver, x, y),
                n,
                b,
            );
        }
    }
    activate(contents, bodies, edition, n, b, method, receiver, x, y)
}
