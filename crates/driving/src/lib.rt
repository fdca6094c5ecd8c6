//! The driver's work, on slices: a job's bytes in, the lines of its answer out.
#![tactic(auto)]

ghost use Rattle.std.specs.Prelude.{◌≡◌};
ghost use Rattle.answer.specs.Promises.{written_of};
ghost use Rattle.driving.specs.Promises.{numbers, Runs, prints};

use answer::{Answer, Unwritten, write_answer};
use job::{Job, JobWords, read_job};
use shuffler::shuffle;

/// What the driver's lines say of a shuffle's answer; slots past 32 bits are counted as the last number.
pub fn numbers_of(run: &shuffler::Answer) -> Answer
    ensures { result ≡ numbers run.now }
{
    Answer {
        code: match run.outcome {
            Ok(()) => 0,
            Err(refusal) => refusal.code(),
        },
        shrink_ticks: run.shrink_ticks,
        grow_ticks: run.grow_ticks,
        slots: u32::try_from(run.slots).unwrap_or(u32::MAX),
    }
}

/// The shuffle of a job. It is lent 2,048 slots, in which the low words of the spill list's array stand, so that a list longer than they
/// are is counted and refused, and room for 4,096 operations. A count past an array's end stands for the whole array.
pub fn run_job(job: &Job, lists: &JobWords, words: &mut [u32; 8192]) -> shuffler::Answer
    ensures { Runs job.now lists.now words.old result words.new }
{
    let mut slots = [0; 2048];
    slots.copy_from_slice(&lists.spilled[..2048]);
    shuffle(
        &lists.start[..job.starts.min(4096)],
        &mut slots,
        job.spills,
        job.first,
        &lists.target[..job.targets.min(4096)],
        job.config,
        words,
    )
}

/// The lines that answer a job's bytes, at the low end of a buffer; how many bytes they are.
pub fn answer_job(bytes: &[u8], out: &mut [u8]) -> Result<usize, Unwritten>
    ensures { written_of result out.new ≡ prints bytes.now out.old }
{
    let mut lists = JobWords::new();
    let mut words = [0; 8192];
    match read_job(bytes, &mut lists) {
        Ok(job) => {
            let run = run_job(&job, &lists, &mut words);
            write_answer(out, numbers_of(&run), &words[..2 * run.ops])
        }
        Err(refusal) => {
            let none = Answer {
                code: refusal.code(),
                shrink_ticks: 0,
                grow_ticks: 0,
                slots: 0,
            };
            write_answer(out, none, &[])
        }
    }
}
