// Load and save: a state from an image, and an image from a state. Their promises are equations with the flat calls of plain's
// specs/FlatCalls.antt, through the definitions of specs/Answers.antt.
#![tactic(auto)]

ghost use Rattle.std.specs.Prelude.{◌≡◌};
ghost use Rattle.plain.specs.Registers as R;
ghost use Rattle.plain.specs.FlatCalls.{flat_save};
ghost use Rattle.machine.specs.State.{registers_of, state};
ghost use Rattle.loads.specs.Answers.{PromisedLoad, saveGives};

use image::Header;
use machine::Registers;
use model::Refusal;

// Registers of no image: what a refused load leaves.
pub fn no_registers() -> Registers
    ensures { registers_of result ≡ R.no_registers }
{
    Registers {
        n: 0,
        b: 0,
        receiver: 0,
        selector: 0,
        phase: 0,
        top: 0,
        value: 0,
        edition: 0,
    }
}

// An image put in place and the cache emptied, or nothing but zeros where its objects are refused.
pub fn load(
    image: &[u8],
    contents: &mut [u16],
    bodies: &mut [u16],
    cache: &mut [u16],
) -> Result<Registers, Refusal>
    ensures { PromisedLoad image.now contents.old bodies.old cache.old result contents.new
        bodies.new cache.new }
{
    let header = store::read(image, contents, bodies, cache.len())?;
    cache.fill(0); // lookups of what stood here before
    Ok(Registers {
        n: header.n,
        b: header.b,
        receiver: header.receiver,
        selector: header.selector,
        phase: 0,
        top: 0,
        value: 0,
        edition: header.edition,
    })
}

// The image written at the front of the output, and how many bytes it has. An output too short is 3, before 11.
pub fn save(
    registers: Registers,
    contents: &[u16],
    bodies: &[u16],
    stack: &[u16],
    cache: &[u16],
    output: &mut [u8],
) -> Result<u32, Refusal>
    ensures { saveGives result output.new
        ≡ flat_save (state registers contents.now bodies.now stack.now cache.now) output.old }
{
    if output.len() < image::length_of(registers.n, registers.b) {
        return Err(Refusal::Buffers);
    }
    machine::check(registers, contents, bodies, stack, cache)?;
    let header = Header {
        edition: registers.edition,
        n: registers.n,
        b: registers.b,
        receiver: registers.receiver,
        selector: registers.selector,
    };
    let bytes = image::write(header, contents, bodies, output);
    Ok(bytes as u32)
}
