// What bench/ and apart/ take from the proved side beside the calls: the table, for the C peer to walk by; and a lookup with the number of
// pairs and of dictionaries that it reads, which no call gives.
#![tactic(auto)]

ghost use Rattle.std.specs.Prelude.{◌≡◌, List, ℕ, ◌*◌, ◌≤◌, T, length};
ghost use Rattle.bytecode.specs.Table.{IsTable};
ghost use Rattle.model.specs.Limits.{entry_words, class_kind};
ghost use Rattle.model.specs.Objects.{objects_at, is_kind, is_nil_or};
ghost use Rattle.model.specs.Lookup.{lookup, dictionaries_read, pairs_read};
ghost use Rattle.model.specs.Rules.{IsRight};
ghost use Rattle.objects.specs.Searches.{SearchIs};
ghost use Rattle.sofaduck.specs.Border.{state_of};
ghost use Rattle.benchmark.specs.Lookups.{LookupIs};

use model::{Pointer, limits};
use objects::Search;
use readers::Memory;

#[unsafe(no_mangle)]
pub extern "C" fn bench_table(table: &mut [u16; 256])
    ensures { IsTable table.new }
{
    *table = bytecode::table();
}

// Registers hold N and B as words; below they are taken as usize.
fn is_class(contents: &[u16], n: u16, class: u16) -> bool
    requires { entry_words * n ≤ length contents.now }
    ensures { (b : ℕ) (bodies : List ℕ) → result ≡ is_kind (objects_at n b contents.now bodies) class_kind class }
{
    Memory {
        contents,
        bodies: &[],
        n: n as usize,
        b: 0,
    }
    .is_kind(limits::CLASS, class)
}

fn lookup(contents: &[u16], bodies: &[u16], n: u16, b: u16, selector: u16, class: u16) -> Search
    requires { IsRight (objects_at n b contents.now bodies.now) × T (is_nil_or (objects_at n b contents.now bodies.now) class_kind class) }
    ensures { SearchIs (lookup (objects_at n b contents.now bodies.now) selector class)
        (dictionaries_read (objects_at n b contents.now bodies.now) selector class)
        (pairs_read (objects_at n b contents.now bodies.now) selector class) result }
{
    objects::lookup(
        &Memory {
            contents,
            bodies,
            n: n as usize,
            b: b as usize,
        },
        selector,
        Pointer(class),
    )
}

// Whether check accepts the state and the class is one. Then a lookup is made: the method's word, or 0 for none, and the pairs and the dictionaries that it read.
#[unsafe(no_mangle)]
pub extern "C" fn bench_lookup(
    contents: &[u16],
    bodies: &[u16],
    stack: &[u16],
    cache: &[u16],
    registers: &[u16; 8],
    selector: u16,
    class: u16,
    method: &mut u16,
    pairs: &mut usize,
    dictionaries: &mut usize,
) -> bool
    ensures { LookupIs (state_of registers.now contents.now bodies.now stack.now cache.now)
        selector class method.old pairs.old dictionaries.old method.new pairs.new dictionaries.new result }
{
    if sofaduck::sofaduck_check(contents, bodies, stack, cache, registers) != 0 {
        return false;
    }
    let n = registers[0];
    let b = registers[1];
    if !is_class(contents, n, class) {
        return false;
    }
    let search = lookup(contents, bodies, n, b, selector, class);
    *pairs = search.pairs;
    *dictionaries = search.dictionaries;
    match search.found {
        Some(m) => *method = m.0,
        None => *method = 0,
    }
    true
}
