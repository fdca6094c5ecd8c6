//! What stands before the operations of a trace, and after them.
ghost use Rattle.std.specs.Prelude.{◌≡◌, length};
ghost use Rattle.lines.specs.Promises.{Wrote};

use super::Given;
use answer::{Answer, write_answer};
use job::Job;
use lines::{put_list, put_slots};
use meanings::put_meaning;
use printing::Text;
use replay::{Fault, Verdict};

/// The two limits and the first slot's number.
fn put_limits(text: &mut Text, job: Job)
    ensures wrote { Wrote text.old.out.now text.old.len text.new.out.now text.new.len }
    ensures same { text.new.out.ghost_name ≡ text.old.out.ghost_name }
{
    text.label(b"limits   swap ", job.config.max_swap_depth.into());
    text.label(b", dup ", job.config.max_dup_depth.into());
    text.label(b", first slot ", job.first.into());
    text.put(b"\n");
}

/// The slots that are filled.
fn put_spilled(text: &mut Text, first: u32, slots: &[u32])
    ensures wrote { Wrote text.old.out.now text.old.len text.new.out.now text.new.len }
    ensures same { text.new.out.ghost_name ≡ text.old.out.ghost_name }
{
    text.put(b"spilled ");
    put_slots(text, first, slots);
    text.put(b"\n");
}

/// The job in words.
pub(crate) fn put_job(text: &mut Text, given: Given)
    ensures wrote { Wrote text.old.out.now text.old.len text.new.out.now text.new.len }
    ensures same { text.new.out.ghost_name ≡ text.old.out.ghost_name }
{
    put_limits(text, given.job);
    put_list(text, b"start   ", given.start);
    put_spilled(text, given.job.first, given.spilled);
    put_list(text, b"target  ", given.target);
}

/// Why a run or a list is refused: the code, its name and its meaning. Nothing where it is not.
fn put_refusal(text: &mut Text, outcome: Result<(), Fault>)
    ensures wrote { Wrote text.old.out.now text.old.len text.new.out.now text.new.len }
    ensures same { text.new.out.ghost_name ≡ text.old.out.ghost_name }
{
    if let Err(fault) = outcome {
        text.label(b"refused ", fault.code().into());
        text.put(b" ");
        put_meaning(text, fault.code());
        text.put(b"\n");
    }
}

/// Zeros for the driver's answer.
fn answer_room() -> [u8; 221344]
    ensures { 221344 ≡ length result }
{
    [0; 221344]
}

/// The first line of the driver's answer.
fn put_answer_line(text: &mut Text, answer: Answer, words: &[u32])
    ensures wrote { Wrote text.old.out.now text.old.len text.new.out.now text.new.len }
    ensures same { text.new.out.ghost_name ≡ text.old.out.ghost_name }
{
    let mut bytes = answer_room();
    let _ = write_answer(&mut bytes, answer, words);
    if let Some(line) = bytes.split_inclusive(|byte| *byte == b'\n').next() {
        text.put(line);
    }
}

/// The first line of the driver's answer, and where it refuses, why.
pub(crate) fn put_answer(text: &mut Text, answer: Answer, outcome: Result<(), Fault>, words: &[u32])
    ensures wrote { Wrote text.old.out.now text.old.len text.new.out.now text.new.len }
    ensures same { text.new.out.ghost_name ≡ text.old.out.ghost_name }
{
    put_answer_line(text, answer, words);
    put_refusal(text, outcome);
}

/// The checker's verdict, and where it refuses, why.
pub(crate) fn put_verdict(text: &mut Text, verdict: Verdict)
    ensures wrote { Wrote text.old.out.now text.old.len text.new.out.now text.new.len }
    ensures same { text.new.out.ghost_name ≡ text.old.out.ghost_name }
{
    text.label(b"verdict ", verdict.code().into());
    text.label(b" index ", verdict.index as u64);
    text.label(b" gas ", verdict.gas);
    text.label(b" slots ", verdict.filled as u64);
    text.put(b"\n");
    put_refusal(text, verdict.outcome);
}
