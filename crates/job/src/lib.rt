//! The driver's job, read from its bytes into lent words.
#![tactic(auto)]

ghost use Rattle.std.specs.Prelude.{◌≡◌, ◌+◌, ◌*◌, ◌≤◌, length, replicate, IfOk};
ghost use Rattle.scope.specs.Machine.{over};
ghost use Rattle.scope.specs.JobFile.{word_at, words_at, is_job, parsed};
ghost use Rattle.job.specs.Promises.{read_into, read_of};

use operations::ScheduleConfig;
use scope::Refusal;

/// Room for the three lists of a job, each at the low end of its array. The longest job has 4,096 words in all of them.
#[derive(Clone, Copy)]
pub struct JobWords {
    pub start: [u32; 4096],
    pub spilled: [u32; 4096],
    pub target: [u32; 4096],
}

/// What a job says beside the words of its lists: how many each list has, the first slot's number, and the settings (no exchange).
#[derive(Clone, Copy, Debug, PartialEq, Eq)]
pub struct Job {
    pub starts: usize,
    pub spills: usize,
    pub targets: usize,
    pub first: u32,
    pub config: ScheduleConfig,
}

impl JobWords {
    /// Three lists of zeros.
    pub const fn new() -> Self
        ensures start { result.start ≡ replicate 4096 0 }
        ensures spilled { result.spilled ≡ replicate 4096 0 }
        ensures target { result.target ≡ replicate 4096 0 }
    {
        Self {
            start: [0; 4096],
            spilled: [0; 4096],
            target: [0; 4096],
        }
    }
}

/// The word whose lowest byte stands at a place.
fn word_at(bytes: &[u8], at: usize) -> u32
    requires { at + 4 ≤ length bytes.now }
    ensures { result ≡ word_at bytes.now at }
{
    u32::from_le_bytes([bytes[at], bytes[at + 1], bytes[at + 2], bytes[at + 3]])
}

/// So many words from a place on, into a buffer that has room for them.
fn read_words(bytes: &[u8], at: usize, count: usize, words: &mut [u32])
    requires { (at + 4 * count ≤ length bytes.now) × (count ≤ length words.old) }
    ensures { words.new ≡ over (words_at bytes.now at count) words.old }
{
    for i in 0..count {
        words[i] = word_at(bytes, at + 4 * i);
    }
}

/// Are the bytes a job? Each offset is tested, also that of an empty list; the sums are of 64 bits and do not wrap.
#[tactic(auto, unfolding(scope::specs::JobFile::is_job))]
pub fn is_job(bytes: &[u8]) -> bool
    ensures { result ≡ is_job bytes.now }
{
    let len = bytes.len();
    if len < 36 || 16420 < len {
        return false;
    }
    let spilled_at = 36 + 4 * word_at(bytes, 0) as usize;
    let target_at = spilled_at + 4 * word_at(bytes, 8) as usize;
    let end = target_at + 4 * word_at(bytes, 16) as usize;
    word_at(bytes, 4) == 36
        && word_at(bytes, 12) as usize == spilled_at
        && word_at(bytes, 20) as usize == target_at
        && len == end
        && word_at(bytes, 28) <= 255
        && word_at(bytes, 32) <= 255
}

/// The job that the bytes are, its lists at the low ends of the three arrays. `Err(Job)` where they are none, and the arrays as they were.
#[tactic(auto, unfolding(scope::specs::JobFile::is_job, scope::specs::JobFile::parsed))]
pub fn read_job(bytes: &[u8], lists: &mut JobWords) -> Result<Job, Refusal>
    ensures read { read_of result lists.new ≡ read_into (parsed bytes.now) lists.old.start lists.old.spilled lists.old.target }
    ensures no_exchange { IfOk result (λ job. (job.config.max_exchange_range ≡ 0) × (job.config.exchange_cost ≡ 0)) }
{
    if !is_job(bytes) {
        return Err(Refusal::Job);
    }
    let starts = word_at(bytes, 0) as usize;
    let spills = word_at(bytes, 8) as usize;
    let targets = word_at(bytes, 16) as usize;
    read_words(bytes, 36, starts, &mut lists.start);
    read_words(bytes, 36 + 4 * starts, spills, &mut lists.spilled);
    read_words(
        bytes,
        36 + 4 * starts + 4 * spills,
        targets,
        &mut lists.target,
    );
    let config = ScheduleConfig {
        max_swap_depth: word_at(bytes, 28) as u8,
        max_dup_depth: word_at(bytes, 32) as u8,
        max_exchange_range: 0,
        exchange_cost: 0,
    };
    Ok(Job {
        starts,
        spills,
        targets,
        first: word_at(bytes, 24),
        config,
    })
}
