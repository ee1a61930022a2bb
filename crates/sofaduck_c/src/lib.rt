// The library as C links it: each function of `sofaduck` under its own name, with the same promise; a slice is a pointer and a length. A crate is a library
// for other crates or one for C, and `benchmark` uses `sofaduck`. include/sofaduck.h is the same for a C programmer.
#![tactic(auto)]

ghost use Rattle.std.specs.Prelude.{◌≡◌, List, ℕ};
ghost use Rattle.plain.specs.Registers as R;
ghost use Rattle.plain.specs.Flat.{flat};
ghost use Rattle.plain.specs.Check as K;
ghost use Rattle.plain.specs.FlatCalls.{gives, saved, flat_load, flat_begin, flat_run, flat_drop, flat_forget, flat_save};
ghost use Rattle.calls.specs.Plays.{flat_play};
ghost use Rattle.sofaduck.specs.Border.{registers_at, state_of, answer_of, verdict_of, KeptIfRefused, run_answer, save_answer, play_answer};

#[unsafe(no_mangle)]
pub extern "C" fn sofaduck_load(
    image: &[u8],
    contents: &mut [u16],
    bodies: &mut [u16],
    cache: &mut [u16],
    registers: &mut [u16; 8],
) -> u32
    ensures { (g : R.Registers) (stack : List ℕ)
        → gives (answer_of result) (state_of registers.new contents.new bodies.new stack cache.new)
        ≡ flat_load (flat g contents.old bodies.old stack cache.old) image.now }
{
    sofaduck::sofaduck_load(image, contents, bodies, cache, registers)
}

#[unsafe(no_mangle)]
pub extern "C" fn sofaduck_begin(
    contents: &mut [u16],
    bodies: &mut [u16],
    stack: &mut [u16],
    cache: &[u16],
    registers: &mut [u16; 8],
    receiver: u16,
    selector: u16,
    arguments: &[u16],
) -> u32
    ensures { gives (answer_of result) (state_of registers.new contents.new bodies.new stack.new
        cache.now)
        ≡ flat_begin (state_of registers.old contents.old bodies.old stack.old cache.now)
        receiver selector arguments.now }
{
    sofaduck::sofaduck_begin(
        contents, bodies, stack, cache, registers, receiver, selector, arguments,
    )
}

#[unsafe(no_mangle)]
pub extern "C" fn sofaduck_run(
    contents: &mut [u16],
    bodies: &mut [u16],
    stack: &mut [u16],
    cache: &mut [u16],
    registers: &mut [u16; 8],
    grant: u32,
    count: &mut u32,
    reach: &mut u32,
    dictionaries: &mut u64,
) -> u32
    ensures { (gives (run_answer result (registers_at registers.new) count.new reach.new dictionaries.new)
        (state_of registers.new contents.new bodies.new stack.new cache.new)
        ≡ flat_run (state_of registers.old contents.old bodies.old stack.old cache.old) grant)
        × KeptIfRefused result count.old count.new × KeptIfRefused result reach.old reach.new
        × KeptIfRefused result dictionaries.old dictionaries.new }
{
    sofaduck::sofaduck_run(
        contents,
        bodies,
        stack,
        cache,
        registers,
        grant,
        count,
        reach,
        dictionaries,
    )
}

#[unsafe(no_mangle)]
pub extern "C" fn sofaduck_drop(
    contents: &[u16],
    bodies: &[u16],
    stack: &[u16],
    cache: &[u16],
    registers: &mut [u16; 8],
) -> u32
    ensures { gives (answer_of result) (state_of registers.new contents.now bodies.now stack.now
        cache.now)
        ≡ flat_drop (state_of registers.old contents.now bodies.now stack.now cache.now) }
{
    sofaduck::sofaduck_drop(contents, bodies, stack, cache, registers)
}

#[unsafe(no_mangle)]
pub extern "C" fn sofaduck_play(
    contents: &mut [u16],
    bodies: &mut [u16],
    stack: &mut [u16],
    cache: &mut [u16],
    registers: &mut [u16; 8],
    calls: &[u16],
    answers: &mut [u32],
    made: &mut u32,
) -> u32
    ensures { (play_answer result made.new (state_of registers.new contents.new bodies.new stack.new
        cache.new) answers.new
        ≡ flat_play (state_of registers.old contents.old bodies.old stack.old cache.old)
        calls.now answers.old)
        × KeptIfRefused result made.old made.new }
{
    sofaduck::sofaduck_play(
        contents, bodies, stack, cache, registers, calls, answers, made,
    )
}

#[unsafe(no_mangle)]
pub extern "C" fn sofaduck_forget(
    contents: &[u16],
    bodies: &[u16],
    stack: &[u16],
    cache: &mut [u16],
    registers: &[u16; 8],
) -> u32
    ensures { gives (answer_of result) (state_of registers.now contents.now bodies.now stack.now
        cache.new)
        ≡ flat_forget (state_of registers.now contents.now bodies.now stack.now cache.old) }
{
    sofaduck::sofaduck_forget(contents, bodies, stack, cache, registers)
}

#[unsafe(no_mangle)]
pub extern "C" fn sofaduck_check(
    contents: &[u16],
    bodies: &[u16],
    stack: &[u16],
    cache: &[u16],
    registers: &[u16; 8],
) -> u32
    ensures { verdict_of result ≡ K.check (state_of registers.now contents.now bodies.now stack.now cache.now) }
{
    sofaduck::sofaduck_check(contents, bodies, stack, cache, registers)
}

#[unsafe(no_mangle)]
pub extern "C" fn sofaduck_save(
    contents: &[u16],
    bodies: &[u16],
    stack: &[u16],
    cache: &[u16],
    registers: &[u16; 8],
    output: &mut [u8],
    length: &mut u32,
) -> u32
    ensures { (saved (save_answer result length.new) output.new
        ≡ flat_save (state_of registers.now contents.now bodies.now stack.now cache.now)
        output.old)
        × KeptIfRefused result length.old length.new }
{
    sofaduck::sofaduck_save(contents, bodies, stack, cache, registers, output, length)
}
