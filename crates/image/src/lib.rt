// The bytes of an image: its header, its words put in place, and an image written. The definitions are model's specs/Image.antt.
#![tactic(auto)]

ghost use Rattle.std.specs.Prelude.{◌≡◌, [], ◌∷◌, ◌++◌, ◌+◌, ◌*◌, ◌<◌, ◌≤◌, T, length, get_or, take, drop, replicate};
ghost use Rattle.std.proofs.lemmas.List.Edits.{sets};
ghost use Rattle.model.specs.Limits.{header_words, entry_words};
ghost use Rattle.model.specs.Objects.{objects_at, part};
ghost use Rattle.model.specs.Image.{words_of, bytes_of, image_header, image_objects, image_of, image_bytes, length_fine};
ghost use Rattle.image.specs.Heads.{as_header, head_words};

use model::limits;

// The five words at the front of an image.
#[derive(Clone, Copy)]
pub struct Header {
    pub edition: u16,
    pub n: u16,
    pub b: u16,
    pub receiver: u16,
    pub selector: u16,
}

// Word i of an image that has it, high byte first.
fn word(image: &[u8], i: usize) -> u16
    requires { 2 * i + 1 < length image.now }
    ensures { result ≡ get_or (words_of image.now) i 0 }
{
    u16::from_be_bytes([image[2 * i], image[2 * i + 1]])
}

// The same for a word of the header: 0 where the image ends before it.
fn header_word(image: &[u8], i: usize) -> u16
    requires { i < header_words }
    ensures { result ≡ get_or (words_of image.now) i 0 }
{
    if 2 * i + 1 < image.len() {
        word(image, i)
    } else {
        0
    }
}

pub fn header_of(image: &[u8]) -> Header
    ensures { as_header result ≡ image_header image.now }
{
    Header {
        edition: header_word(image, 0),
        n: header_word(image, 1),
        b: header_word(image, 2),
        receiver: header_word(image, 3),
        selector: header_word(image, 4),
    }
}

// The bytes of an image with n objects and b body words.
pub fn length_of(n: u16, b: u16) -> usize
    ensures { result ≡ image_bytes n b }
{
    limits::HEADER_BYTES + 2 * limits::ENTRY_WORDS * (n as usize) + 2 * (b as usize)
}

// Whether an image has the length that its own header asks for.
pub fn length_fine(image: &[u8]) -> bool
    ensures { result ≡ length_fine image.now }
{
    let header = header_of(image);
    limits::HEADER_BYTES <= image.len() && image.len() == length_of(header.n, header.b)
}

// As many words of the image as `words` has, from one on.
fn read_words(image: &[u8], from: usize, words: &mut [u16])
    requires { 2 * (from + length words.old) ≤ length image.now }
    ensures { words.new ≡ part (words_of image.now) from (length words.old) }
{
    for i in 0..words.len() {
        words[i] = word(image, from + i);
    }
}

// The image's objects at the front of the two buffers; what lies behind them stays.
pub fn place(image: &[u8], n: usize, b: usize, contents: &mut [u16], bodies: &mut [u16])
    requires { T (length_fine image.now)
        × ((image_header image.now).n ≡ n)
        × ((image_header image.now).b ≡ b)
        × (entry_words * n ≤ length contents.old)
        × (b ≤ length bodies.old) }
    ensures { (contents.new ≡ (image_objects image.now).contents ++ drop (entry_words * n) contents.old)
        × (bodies.new ≡ (image_objects image.now).bodies ++ drop b bodies.old) }
{
    let entries = limits::ENTRY_WORDS * n;
    read_words(image, limits::HEADER_WORDS, &mut contents[..entries]);
    read_words(image, limits::HEADER_WORDS + entries, &mut bodies[..b]);
}

// Zeros in place of n objects and b body words; what lies behind them stays.
pub fn zero(n: usize, b: usize, contents: &mut [u16], bodies: &mut [u16])
    requires { (entry_words * n ≤ length contents.old) × (b ≤ length bodies.old) }
    ensures { (contents.new ≡ replicate (entry_words * n) 0 ++ drop (entry_words * n) contents.old)
        × (bodies.new ≡ replicate b 0 ++ drop b bodies.old) }
{
    words::fill(contents, 0, limits::ENTRY_WORDS * n, 0);
    words::fill(bodies, 0, b, 0);
}

// A word's two bytes at the place of word i.
fn write_word(output: &mut [u8], i: usize, w: u16)
    requires { 2 * i + 1 < length output.old }
    ensures { output.new ≡ sets output.old (2 * i) (bytes_of (w ∷ [])) }
{
    let [high, low] = w.to_be_bytes();
    output[2 * i] = high;
    output[2 * i + 1] = low;
}

// The words from the place of word `at` on.
fn write_words(words: &[u16], at: usize, output: &mut [u8])
    requires { 2 * (at + length words.now) ≤ length output.old }
    ensures { output.new ≡ sets output.old (2 * at) (bytes_of words.now) }
{
    for i in 0..words.len() {
        write_word(output, at + i, words[i]);
    }
}

// The header's five words at the front.
fn write_header(header: Header, output: &mut [u8])
    requires { 2 * header_words ≤ length output.old }
    ensures { output.new ≡ sets output.old 0 (bytes_of (head_words (as_header header))) }
{
    write_word(output, 0, header.edition);
    write_word(output, 1, header.n);
    write_word(output, 2, header.b);
    write_word(output, 3, header.receiver);
    write_word(output, 4, header.selector);
}

// The image of the objects in the two buffers, under this header, at the output's front, and how many bytes it has.
pub fn write(header: Header, contents: &[u16], bodies: &[u16], output: &mut [u8]) -> usize
    requires { (entry_words * header.n ≤ length contents.now) × (header.b ≤ length bodies.now) × (image_bytes header.n header.b ≤ length output.old) }
    ensures { (result ≡ image_bytes header.n header.b)
        × (output.new
        ≡ image_of (as_header header) (objects_at header.n header.b contents.now bodies.now) ++ drop
        (image_bytes header.n header.b) output.old) }
{
    let entries = limits::ENTRY_WORDS * (header.n as usize);
    write_header(header, output);
    write_words(&contents[..entries], limits::HEADER_WORDS, output);
    write_words(
        &bodies[..header.b as usize],
        limits::HEADER_WORDS + entries,
        output,
    );
    length_of(header.n, header.b)
}
