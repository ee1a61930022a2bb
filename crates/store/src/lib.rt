// An image read into the lent contents and bodies, and judged there. The definitions are model's specs/Image.antt and specs/Answer.antt.
#![tactic(auto)]

ghost use Rattle.std.specs.Prelude.{◌≡◌, List, [], ℕ, ◌*◌, ◌≤◌, length, IfOk};
ghost use Rattle.model.specs.Limits.{entry_words};
ghost use Rattle.model.specs.Objects.{objects_at};
ghost use Rattle.model.specs.Rules.{header_fine, rule8};
ghost use Rattle.model.specs.Image.{image_header, image_objects, buffers_fine, objects_verdict, load_verdict};
ghost use Rattle.image.specs.Heads.{as_header};
ghost use Rattle.rules.specs.Lent.{Lent};
ghost use Rattle.code.specs.Asked.{Blank};
ghost use Rattle.store.specs.Judged.{Judged};
ghost use Rattle.store.specs.Answer.{room_for, stored, stored_by, Passed};
ghost use Rattle.store.specs.Readings.{refusal_number, verdict_by};
ghost use Rattle.readers.specs.Lent.{objects_in, In};

use image::Header;
use model::{Refusal, limits};
use readers::Memory;

// Words of the cache.
const CACHE_WORDS: usize = 256;

// Rule 8 for words that come without arguments: a valid receiver and a kind 1 selector.
pub fn starts_fine(memory: &Memory, receiver: u16, selector: u16) -> bool
    requires { entry_words * memory.now.n ≤ length memory.now.contents.now }
    ensures { (b : ℕ) (bodies : List ℕ) → result ≡ rule8 (objects_at memory.now.n b memory.now.contents.now bodies) receiver selector [] }
{
    readers::is_valid(memory.n, receiver) && memory.is_kind(limits::BYTES, selector)
}

// Rule 2: edition, N and B in range.
pub fn header_fine(edition: u16, n: u16, b: u16) -> bool
    ensures { result ≡ header_fine edition n b }
{
    readers::edition::is_edition(edition)
        && readers::edition::least_objects(edition) <= n
        && n <= limits::MOST_OBJECTS
        && b <= limits::MOST_BODY_WORDS
}

// Rule 3: buffers of these lengths hold n objects and b body words, and the cache has its length.
pub fn buffers_fine(contents: usize, bodies: usize, cache: usize, n: u16, b: u16) -> bool
    ensures { result ≡ buffers_fine (room_for contents bodies cache) n b }
{
    limits::ENTRY_WORDS * (n as usize) <= contents && b as usize <= bodies && cache == CACHE_WORDS
}

// The rules of the objects, each over all of them before the next, and the number of the first that does not hold. The notes are 0; accepted, they are
// those of the depth tables.
pub fn judge(
    edition: u16,
    memory: &Memory,
    receiver: u16,
    selector: u16,
    notes: &mut [u8],
) -> Result<(), Refusal>
    requires { In (Lent edition) memory.now × (2 * memory.now.b ≤ length notes.old) × Blank notes.old }
    ensures { Judged edition (objects_in memory.now) receiver selector notes.new (refusal_number result) }
{
    if !rules::layout(edition, memory) {
        return Err(Refusal::Layout);
    }
    if !rules::words(edition, memory) {
        return Err(Refusal::Words);
    }
    if !rules::chains(memory) {
        return Err(Refusal::Chain);
    }
    if !rules::classes(edition, memory) {
        return Err(Refusal::Classes);
    }
    if !code::methods_fine(edition, memory, notes) {
        return Err(Refusal::Methods);
    }
    if !starts_fine(memory, receiver, selector) {
        return Err(Refusal::Start);
    }
    Ok(())
}

// The image's objects put in place and judged; zeros in their place where they are refused.
fn settle(
    image: &[u8],
    header: Header,
    contents: &mut [u16],
    bodies: &mut [u16],
) -> Result<(), Refusal>
    requires { Passed image.now header.edition header.n header.b contents.old bodies.old }
    ensures { stored (refusal_number result) contents.new bodies.new
        ≡ stored_by (objects_verdict header.edition (image_objects image.now) header.receiver
        header.selector) image.now contents.old bodies.old }
{
    let n = header.n as usize;
    let b = header.b as usize;
    image::place(image, n, b, contents, bodies);
    let mut notes = [0u8; limits::MOST_BODY_BYTES];
    let memory = &Memory {
        contents,
        bodies,
        n,
        b,
    };
    if let Err(refusal) = judge(
        header.edition,
        memory,
        header.receiver,
        header.selector,
        &mut notes,
    ) {
        image::zero(n, b, contents, bodies);
        return Err(refusal);
    }
    Ok(())
}

// An image read into the front of contents and bodies: its header. `cache` is the length of the cache, which 01 asks for here too.
pub fn read(
    image: &[u8],
    contents: &mut [u16],
    bodies: &mut [u16],
    cache: usize,
) -> Result<Header, Refusal>
    ensures { (verdict_by result ≡ load_verdict (room_for (length contents.old) (length bodies.old) cache) image.now)
        × IfOk result (λ h. as_header h ≡ image_header image.now)
        × (stored (refusal_number result) contents.new bodies.new
        ≡ stored_by (load_verdict (room_for (length contents.old) (length bodies.old) cache) image.now)
        image.now contents.old bodies.old) }
{
    if !image::length_fine(image) {
        return Err(Refusal::Length);
    }
    let header = image::header_of(image);
    if !header_fine(header.edition, header.n, header.b) {
        return Err(Refusal::Header);
    }
    if !buffers_fine(contents.len(), bodies.len(), cache, header.n, header.b) {
        return Err(Refusal::Buffers);
    }
    settle(image, header, contents, bodies)?;
    Ok(header)
}
