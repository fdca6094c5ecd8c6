//! A trace, on slices: a job's bytes in, and with them nothing or a list of operations; lines for people to read out. The operations are the
//! shuffle's or the list's, the verdict is the checker's, the stacks are the tracked stack's, the counts are counting's.
#![tactic(auto)]

ghost use Rattle.std.specs.Prelude.{◌≡◌, length};
ghost use Rattle.scope.specs.Tracked.{stored_in};
ghost use Rattle.lines.specs.Promises.{Wrote};

use answer::Answer;
use driving::{numbers_of, run_job};
use job::{Job, JobWords, read_job};
use lines::put_turn;
use listing::{ListError, Unlisted, read_list};
use printing::Text;
use reader::read_at;
use replay::{Fault, Verdict, check};
use scope::Refusal;
use walks::put_walk;

mod ends;
mod words;

/// A job with the parts of the arrays that its lists are.
#[derive(Clone, Copy)]
pub(crate) struct Given<'a> {
    pub(crate) job: Job,
    pub(crate) start: &'a [u32],
    pub(crate) spilled: &'a [u32],
    pub(crate) target: &'a [u32],
}

impl<'a> Given<'a> {
    /// Each list cut to its count; a count past an array's end stands for the whole array.
    fn new(job: Job, lists: &'a JobWords) -> Given<'a>
        ensures job { result.job ≡ job }
        ensures start { result.start.now ≡ stored_in job.starts lists.now.start }
        ensures spilled { result.spilled.now ≡ stored_in job.spills lists.now.spilled }
        ensures target { result.target.now ≡ stored_in job.targets lists.now.target }
    {
        Given {
            job,
            start: &lists.start[..job.starts.min(4096)],
            spilled: &lists.spilled[..job.spills.min(4096)],
            target: &lists.target[..job.targets.min(4096)],
        }
    }
}

/// The operations of a job that codes 1 to 5 let pass; nothing for another.
fn put_operations(text: &mut Text, outcome: Result<(), Fault>, given: Given, ops: &[u32])
    ensures wrote { Wrote text.old.out.now text.old.len text.new.out.now text.new.len }
    ensures same { text.new.out.ghost_name ≡ text.old.out.ghost_name }
{
    if let Err(
        Fault::Job(
            Refusal::Limit | Refusal::Start | Refusal::Target | Refusal::Filled | Refusal::Slots,
        ),
    ) = outcome
    {
        return;
    }
    let mut slots = [0u32; 2048];
    words::copy(given.spilled, &mut slots);
    put_walk(
        text,
        given.start,
        &mut slots,
        given.job.spills,
        given.job.first,
        given.target,
        ops,
    );
}

/// A run: the job, its operations, the answer. The shuffle is lent what the driver lends, 2,048 slots and room for 4,096 operations.
fn show_run(text: &mut Text, job: Job, lists: &JobWords)
    ensures wrote { Wrote text.old.out.now text.old.len text.new.out.now text.new.len }
    ensures same { text.new.out.ghost_name ≡ text.old.out.ghost_name }
{
    let mut words = [0u32; 8192];
    let run = run_job(&job, lists, &mut words);
    let ops = &words[..2 * run.ops.min(4096)];
    let outcome = run.outcome.map_err(Fault::from);
    let given = Given::new(job, lists);
    ends::put_job(text, given);
    put_operations(text, outcome, given, ops);
    ends::put_answer(text, numbers_of(&run), outcome, ops);
}

/// The operation at which the checker refuses, if it is one.
fn put_fault(text: &mut Text, verdict: Verdict, words: &[u32])
    ensures wrote { Wrote text.old.out.now text.old.len text.new.out.now text.new.len }
    ensures same { text.new.out.ghost_name ≡ text.old.out.ghost_name }
{
    match verdict.outcome {
        Ok(()) | Err(Fault::Job(_) | Fault::Odd | Fault::Unlike) => {}
        Err(_) => {
            let index = verdict.index.min(4096);
            put_turn(text, index, read_at(words, 2 * index));
            text.put(b" refused\n");
        }
    }
}

/// A list: the job, the operations before the verdict, the one at fault, the verdict.
fn show_list(text: &mut Text, job: Job, lists: &JobWords, words: &[u32])
    ensures wrote { Wrote text.old.out.now text.old.len text.new.out.now text.new.len }
    ensures same { text.new.out.ghost_name ≡ text.old.out.ghost_name }
{
    let given = Given::new(job, lists);
    let mut slots = [0u32; 2048];
    words::copy(given.spilled, &mut slots);
    let verdict = check(
        given.start,
        &mut slots,
        job.spills,
        job.first,
        given.target,
        job.config,
        words,
    );
    let before = 2 * verdict.index.min(4096);
    ends::put_job(text, given);
    put_operations(
        text,
        verdict.outcome,
        given,
        &words[..before.min(words.len())],
    );
    put_fault(text, verdict, words);
    ends::put_verdict(text, verdict);
}

/// Bytes that are no job.
fn show_no_job(text: &mut Text, refusal: Refusal)
    ensures wrote { Wrote text.old.out.now text.old.len text.new.out.now text.new.len }
    ensures same { text.new.out.ghost_name ≡ text.old.out.ghost_name }
{
    let answer = Answer {
        code: refusal.code(),
        shrink_ticks: 0,
        grow_ticks: 0,
        slots: 0,
    };
    ends::put_answer(text, answer, Err(Fault::Job(refusal)), &[]);
}

/// Zeros for the lines of a trace: room for the longest one, of 4,096 operations, of which 2,048 fill a slot.
pub fn room() -> [u8; 1400000]
    ensures { 1400000 ≡ length result }
{
    [0; 1400000]
}

/// The trace of a job: what the driver does with its bytes. How many bytes of lines there are.
pub fn trace_job(bytes: &[u8], out: &mut [u8]) -> usize
    ensures { Wrote out.old 0 out.new result }
{
    let mut text = Text { out, len: 0 };
    let mut lists = JobWords::new();
    match read_job(bytes, &mut lists) {
        Ok(job) => show_run(&mut text, job, &lists),
        Err(refusal) => show_no_job(&mut text, refusal),
    }
    text.len
}

/// The trace of a list on a job, the list as operation words: what the checker says of it.
pub fn trace_words(bytes: &[u8], words: &[u32], out: &mut [u8]) -> usize
    ensures { Wrote out.old 0 out.new result }
{
    let mut text = Text { out, len: 0 };
    let mut lists = JobWords::new();
    match read_job(bytes, &mut lists) {
        Ok(job) => show_list(&mut text, job, &lists, words),
        Err(refusal) => show_no_job(&mut text, refusal),
    }
    text.len
}

/// A list that cannot be read: its line, and why.
fn show_no_list(text: &mut Text, error: ListError)
    ensures wrote { Wrote text.old.out.now text.old.len text.new.out.now text.new.len }
    ensures same { text.new.out.ghost_name ≡ text.old.out.ghost_name }
{
    text.label(b"list: line ", error.line as u64);
    text.put(match error.why {
        Unlisted::NoRoom => b": there is room for 4,096 operations, and this is one more\n",
        Unlisted::NoOperation => {
            b" is no operation: Swap(n), Dup(n), Pop, store(n) or load(n) is wanted\n"
        }
    });
}

/// The same, the list as text in the driver's printed form.
pub fn trace_list(bytes: &[u8], list: &[u8], out: &mut [u8]) -> usize
    ensures { Wrote out.old 0 out.new result }
{
    let mut words = [0u32; 8192];
    match read_list(list, &mut words) {
        Ok(ops) => trace_words(bytes, &words[..2 * ops.min(4096)], out),
        Err(error) => {
            let mut text = Text { out, len: 0 };
            show_no_list(&mut text, error);
            text.len
        }
    }
}
