// Reads an image on standard input and prints one line.
#![tactic(auto)]

ghost use Rattle.std.specs.Prelude.{◌≤◌, ◌≡◌, ◌++◌, length, drop};
ghost use Rattle.plain.specs.Program.{step80};
ghost use Rattle.plain.specs.Text.{line_bytes};
ghost use Rattle.step80.specs.Counts.{IsPrefixLen};
ghost use Rattle.step80.specs.Input.{bytes_read};
ghost use Rattle.step80.specs.Lines.{line_by};

use machine::Ran;
use model::Refusal;
use std::io;
use std::io::Read;

// One byte more than the longest image that a header can name, and odd, as no image is.
const MOST: usize = 655361;

// Standard input, to its end or until the buffer is full. An error is that of the read that failed; the buffer keeps what was read before it.
// By hand: `read_to_end` wants memory of its own, and `read_exact` fails at a shorter input.
fn read_all(rt: &impl Input, image: &mut [u8]) -> io::Result<usize>
    ensures read { bytes_read result ≤ length image.new }
    ensures kept { length image.new ≡ length image.old }
{
    let mut input = rt.reader();
    let mut done: usize = 0;
    while done < image.len() {
        let more = input.read(&mut image[done..])?;
        if more == 0 {
            return Ok(done);
        }
        done += more;
    }
    Ok(done)
}

// Load, begin with the start words and no arguments, and in phase 1 run 1,000 bytecodes.
fn outcome(
    image: &[u8],
    contents: &mut [u16],
    bodies: &mut [u16],
    stack: &mut [u16],
    cache: &mut [u16],
) -> Result<Ran, Refusal>
    requires { (length contents.old ≡ 8188) × (length bodies.old ≡ 24000) × (length stack.old ≡ 1024) × (length cache.old ≡ 256) }
    ensures { line_by result ≡ step80 image.now }
{
    let loaded = loads::load(image, contents, bodies, cache)?;
    let begun = loaded.begin(
        contents,
        bodies,
        stack,
        cache,
        loaded.receiver,
        loaded.selector,
        &[],
    )?;
    if begun.phase != 1 {
        return Ok(Ran {
            registers: begun,
            count: 0,
            reach: 0,
            dictionaries: 0,
        });
    }
    begun.run(contents, bodies, stack, cache, 1000)
}

// The line of an image at the front of `out`, and how many bytes it has.
fn answer(
    image: &[u8],
    contents: &mut [u16],
    bodies: &mut [u16],
    stack: &mut [u16],
    cache: &mut [u16],
    out: &mut [u8],
) -> usize
    requires { (length contents.old ≡ 8188) × (length bodies.old ≡ 24000) × (length stack.old ≡ 1024) × (length cache.old ≡ 256) × (64 ≤ length out.old) }
    ensures prefix_len { IsPrefixLen result out.new }
    ensures value { (result ≡ length (line_bytes (step80 image.now))) × (out.new ≡ line_bytes (step80 image.now) ++ drop result out.old) }
{
    match outcome(image, contents, bodies, stack, cache) {
        Ok(ran) => lines::write_run(out, ran.registers.phase, ran.count, ran.registers.value),
        Err(refusal) => lines::write_refusal(out, refusal.number()),
    }
}

// Reads, computes, prints. An error is that of the read or the write that failed.
fn work(
    rt: &(impl Input + Print),
    image: &mut [u8],
    contents: &mut [u16],
    bodies: &mut [u16],
    stack: &mut [u16],
    cache: &mut [u16],
    out: &mut [u8],
) -> io::Result<()>
    requires { (length contents.old ≡ 8188) × (length bodies.old ≡ 24000) × (length stack.old ≡ 1024) × (length cache.old ≡ 256) × (64 ≤ length out.old) }
{
    let n = read_all(rt, image)?;
    let k = answer(&image[..n], contents, bodies, stack, cache, out);
    rt.write_all(&out[..k])
}

// Where reading or writing fails it says so on standard error, and the exit status is 1.
fn main(rt: HostRuntime) -> io::Result<()> {
    let mut image = [0u8; MOST];
    let mut contents = [0u16; 8188];
    let mut bodies = [0u16; 24000];
    let mut stack = [0u16; 1024];
    let mut cache = [0u16; 256];
    let mut out = [0u8; 64];
    work(
        &rt,
        &mut image,
        &mut contents,
        &mut bodies,
        &mut stack,
        &mut cache,
        &mut out,
    )
}
