// A list of calls in words, and the words of their answers: specs/Encoding.antt has both.
#![tactic(auto)]

ghost use Rattle.std.specs.Prelude.{◌≡◌, [], ◌∷◌, ◌+◌, ◌/◌, ◌≤◌, min, length, get_or, MatchOption, SomeIff};
ghost use Rattle.std.proofs.lemmas.List.Edits.{sets};
ghost use Rattle.plain.specs.Calls.{run_call};
ghost use Rattle.calls.specs.Encoding.{size_at, begin_at, run_length, call_at, answer_size, high_word, low_word};
ghost use Rattle.calls.specs.Plays.{most_calls};
ghost use Rattle.calls.specs.Listing.{listed, Inside};

// How many words an answer has.
pub const ANSWER_SIZE: usize = 7;

// A call of a list. The arguments of a begin are the list's words from `from` to `end`.
#[derive(Clone, Copy)]
pub enum Listed {
    Begin {
        receiver: u16,
        selector: u16,
        from: usize,
        end: usize,
    },
    Run(u32),
    Drop,
    Forget,
}

// The answer of a call, as its words say it.
#[derive(Clone, Copy)]
pub struct Answer {
    pub number: u32,
    pub phase: u32,
    pub count: u32,
    pub value: u32,
    pub reach: u32,
    pub dictionaries: u64,
}

impl Answer {
    // Of a call that was made and has nothing to say.
    pub const DONE: Answer = Answer {
        number: 0,
        phase: 0,
        count: 0,
        value: 0,
        reach: 0,
        dictionaries: 0,
    };
}

// A size, where so many words are left.
fn within(size: usize, left: usize) -> Option<usize>
    ensures { SomeIff result (size ≤ left) size }
{
    if size <= left { Some(size) } else { None }
}

// The number of words of the call at i, where one stands there whole.
pub fn size_at(calls: &[u16], i: usize) -> Option<usize>
    ensures { MatchOption result (size_at calls.now i ≡ 0) (λ size. (size ≡ size_at calls.now i) × (1 ≤ size)) }
{
    if calls.len() <= i {
        return None;
    }
    let left = calls.len() - i;
    match calls[i] {
        0 => {
            if left < 4 {
                return None;
            }
            within(4 + calls[i + 3] as usize, left)
        }
        1 => within(3, left),
        2 | 3 => Some(1),
        _ => None,
    }
}

fn begin_at(calls: &[u16], i: usize) -> Listed
    requires { i + (4 + get_or calls.now (i + 3) 0) ≤ length calls.now }
    ensures { (listed result calls.now ≡ begin_at calls.now i) × Inside result (length calls.now) }
{
    let receiver = calls[i + 1];
    let selector = calls[i + 2];
    let from = i + 4;
    let end = from + calls[i + 3] as usize;
    Listed::Begin {
        receiver,
        selector,
        from,
        end,
    }
}

fn run_at(calls: &[u16], i: usize) -> Listed
    requires { i + 3 ≤ length calls.now }
    ensures { (listed result calls.now ≡ run_call (run_length calls.now i)) × Inside result (length calls.now) }
{
    let high = calls[i + 1] as u32;
    let low = calls[i + 2] as u32;
    let grant = 65536 * high + low;
    Listed::Run(grant)
}

// The call at i, which stands there whole.
pub fn call_at(calls: &[u16], i: usize) -> Listed
    requires { 1 ≤ size_at calls.now i }
    ensures { (listed result calls.now ≡ call_at calls.now i) × Inside result (length calls.now) }
{
    match calls[i] {
        0 => begin_at(calls, i),
        1 => run_at(calls, i),
        2 => Listed::Drop,
        _ => Listed::Forget,
    }
}

// How many calls are made at most: those whose answers have room in so many words, and no more than 32 bits count.
pub fn answer_room(words: usize) -> u32
    ensures { result ≡ min (words / answer_size) most_calls }
{
    (words / ANSWER_SIZE).min(u32::MAX as usize) as u32
}

// The words of an answer.
pub fn write_answer(answers: &mut [u32], at: usize, answer: Answer)
    requires { at + answer_size ≤ length answers.old }
    ensures { answers.new ≡ sets answers.old at (answer.number ∷ answer.phase ∷ answer.count ∷ answer.value ∷ answer.reach ∷ high_word answer.dictionaries ∷ low_word answer.dictionaries ∷ []) }
{
    answers[at..at + ANSWER_SIZE].copy_from_slice(&[
        answer.number,
        answer.phase,
        answer.count,
        answer.value,
        answer.reach,
        (answer.dictionaries / 4294967296) as u32,
        (answer.dictionaries % 4294967296) as u32,
    ]);
}
