// The cache of lookups: an entry's place, a lookup through it, how it is filled, what is right of it. No other code knows the words of an entry.
#![tactic(auto)]

ghost use Rattle.std.specs.Prelude.{◌≡◌, ◌&&◌, ◌+◌, ◌<◌, eqb, length, get_or};
ghost use Rattle.model.specs.Limits.{cache_entries, cache_words};
ghost use Rattle.model.specs.Rules.{IsRight};
ghost use Rattle.plain.specs.Step.{looked};
ghost use Rattle.plain.specs.Cache.{cache_entry_of, filled, cached_right, cache_fine};
ghost use Rattle.cache.specs.Caches.{Asks, LookupIs, Kept};
ghost use Rattle.readers.specs.Lent.{objects_in, In};

use model::{Pointer, limits};
use readers::Memory;

const CACHE_ENTRIES: usize = 64;
// selector, class, method, dictionaries
const CACHE_ENTRY_WORDS: usize = 4;

// What a lookup comes to, by the cache or not: what it found, and how many dictionaries the plain walk reads. It is no `objects::Search`: the cache does not know
// how many pairs were read.
#[derive(Clone, Copy)]
pub struct Lookup {
    pub found: Option<Pointer>,
    pub dictionaries: usize,
}

// The cache's entry of a selector and the class where its lookup starts.
fn entry(selector: u16, class: u16) -> usize
    ensures { (result ≡ cache_entry_of selector class) × (result < cache_entries) }
{
    ((selector & class) / 2) as usize % CACHE_ENTRIES
}

// Whether the entry at a place is of a selector and a class.
fn is_of(cache: &[u16], at: usize, selector: u16, class: u16) -> bool
    requires { at + 1 < length cache.now }
    ensures { result ≡ (eqb (get_or cache.now at 0) selector && eqb (get_or cache.now (at + 1) 0) class) }
{
    cache[at] == selector && cache[at + 1] == class
}

// A lookup, by the cache where it has it.
pub fn cached(memory: &Memory, cache: &[u16], selector: u16, class: Pointer) -> Lookup
    requires { In Asks memory.now cache.now selector class.0 }
    ensures { LookupIs (objects_in memory.now) selector class.0 result }
{
    let at = CACHE_ENTRY_WORDS * entry(selector, class.0);
    if is_of(cache, at, selector, class.0) {
        return Lookup {
            found: Some(Pointer(cache[at + 2])),
            dictionaries: cache[at + 3] as usize,
        };
    }
    // called at one place: from a second the compiler would put the walk into the run loop once more
    let search = objects::lookup(memory, selector, class);
    Lookup {
        found: search.found,
        dictionaries: search.dictionaries,
    }
}

// A lookup that found is kept. Where it came from the cache, its words stand there.
pub fn fill(cache: &mut [u16], selector: u16, class: Pointer, method: Pointer, dictionaries: usize)
    requires { (length cache.old ≡ cache_words) × Kept cache.old selector class.0 method.0 dictionaries × (dictionaries < 65536) }
    ensures { cache.new ≡ filled cache.old (looked selector class.0 method.0 dictionaries) }
{
    let at = CACHE_ENTRY_WORDS * entry(selector, class.0);
    if is_of(cache, at, selector, class.0) {
        return;
    }
    cache[at] = selector;
    cache[at + 1] = class.0;
    cache[at + 2] = method.0;
    cache[at + 3] = dictionaries as u16;
}

fn is_empty(s: u16, class: u16, m: u16, k: u16) -> bool
    ensures { result ≡ (eqb s 0 && (eqb class 0 && (eqb m 0 && eqb k 0))) }
{
    s == 0 && class == 0 && m == 0 && k == 0
}

// An entry of the cache: selector, class, method, dictionaries.
fn cached_right(memory: &Memory, s: u16, class: u16, m: u16, k: u16) -> bool
    requires { IsRight (objects_in memory.now) }
    ensures { result ≡ cached_right (objects_in memory.now) s class m k }
{
    if is_empty(s, class, m, k) {
        return true;
    }
    if !memory.is_kind(limits::CLASS, class) {
        return false;
    }
    let search = objects::lookup(memory, s, Pointer(class));
    match search.found {
        Some(held) => held.0 == m && k as usize == search.dictionaries,
        None => false,
    }
}

// Every entry of the cache is empty or what lookup finds.
pub fn cache_fine(memory: &Memory, cache: &[u16]) -> bool
    requires { IsRight (objects_in memory.now) × (length cache.now ≡ cache_words) }
    ensures { result ≡ cache_fine (objects_in memory.now) cache.now }
{
    for i in 0..CACHE_ENTRIES {
        let at = CACHE_ENTRY_WORDS * i;
        if !cached_right(
            memory,
            cache[at],
            cache[at + 1],
            cache[at + 2],
            cache[at + 3],
        ) {
            return false;
        }
    }
    true
}
