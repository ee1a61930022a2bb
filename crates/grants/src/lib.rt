// A run of a granted count of bytecodes: stretches of the loop, and between them the messages of sends that failed.
#![tactic(auto)]

ghost use Rattle.runs.specs.Ends.{Goes};
ghost use Rattle.grants.specs.Grants.{Fails, AgainTo, ResumesTo, RunsOn};

use runs::{Ended, Failed, Stretched};

// The message of a send that failed, and the bytecodes behind it up to the next one, of a run that has made all but `failed.left` of its grant.
fn again(
    contents: &mut [u16],
    bodies: &mut [u16],
    stack: &mut [u16],
    cache: &mut [u16],
    edition: u16,
    failed: Failed,
    grant: u32,
) -> Stretched
    requires { Fails grant edition contents.old bodies.old stack.old cache.old failed }
    ensures { AgainTo grant edition contents.old bodies.old stack.old cache.old failed
        contents.new bodies.new stack.new cache.new result }
{
    let Failed {
        message,
        n,
        b,
        top,
        left,
        reach,
        dictionaries,
    } = failed;
    match messages::resend(contents, bodies, stack, cache, edition, n, b, top, message) {
        Err(halt) => Stretched::Over(Ended {
            n: n as u16,
            b: b as u16,
            phase: halt.phase(),
            top: top.0 as u16,
            value: 0,
            count: grant - left,
            reach,
            dictionaries,
        }),
        Ok(sent) => {
            let rest = left - 1;
            let so_far = dictionaries + sent.dictionaries as u64;
            let high = reach.max(sent.end);
            match runs::stretch(
                contents, bodies, stack, cache, edition, sent.n, sent.b, sent.top.0, rest,
            ) {
                Stretched::Over(e) => Stretched::Over(Ended {
                    count: grant - rest + e.count,
                    reach: high.max(e.reach),
                    dictionaries: so_far + e.dictionaries,
                    ..e
                }),
                Stretched::Failed(next) => Stretched::Failed(Failed {
                    reach: high.max(next.reach),
                    dictionaries: so_far + next.dictionaries,
                    ..next
                }),
            }
        }
    }
}

// From a send that failed to the end of the run.
fn resume(
    contents: &mut [u16],
    bodies: &mut [u16],
    stack: &mut [u16],
    cache: &mut [u16],
    edition: u16,
    first: Failed,
    grant: u32,
) -> Ended
    requires { Fails grant edition contents.old bodies.old stack.old cache.old first }
    ensures { ResumesTo grant edition contents.old bodies.old stack.old cache.old first
        contents.new bodies.new stack.new cache.new result }
{
    let mut failed = first;
    loop {
        match again(contents, bodies, stack, cache, edition, failed, grant) {
            Stretched::Over(e) => {
                return e;
            }
            Stretched::Failed(next) => {
                failed = next;
            }
        }
    }
}

// A run of at most so many bytecodes, from a state in phase 1 that check accepts. The loop is compiled once by itself, since it is called at two places.
pub fn run(
    contents: &mut [u16],
    bodies: &mut [u16],
    stack: &mut [u16],
    cache: &mut [u16],
    edition: u16,
    n: usize,
    b: usize,
    top: usize,
    grant: u32,
) -> Ended
    requires { Goes edition n b top contents.old bodies.old stack.old cache.old }
    ensures { RunsOn edition n b top contents.old bodies.old stack.old cache.old grant
        contents.new bodies.new stack.new cache.new result }
{
    match runs::stretch(contents, bodies, stack, cache, edition, n, b, top, grant) {
        Stretched::Over(e) => e,
        Stretched::Failed(failed) => {
            resume(contents, bodies, stack, cache, edition, failed, grant)
        }
    }
}
