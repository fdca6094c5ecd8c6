//! A record against the driver's work: the job's words go in, and every byte that comes out is compared.
use crate::packed::Packed;
use driving::answer_job;
use printing::Text;
use scope::Op;

/// What came of a record: the code that was recorded, and whether the answer is the one recorded.
#[derive(Clone, Copy)]
pub(crate) struct Outcome {
    pub(crate) code: u8,
    pub(crate) agrees: bool,
}

/// What follows an operation's line, where that line stands in front.
fn after_line(lines: &[u8], op: Op) -> Option<&[u8]> {
    let mut line = [0; 64];
    let mut text = Text {
        out: &mut line,
        len: 0,
    };
    text.operation(op.into());
    text.put(b"\n");
    let len = text.len;
    lines.strip_prefix(line.get(..len)?)
}

/// Are the recorded operations the lines, all of them?
fn same_operations(record: &mut Packed<'_>, lines: &[u8]) -> bool {
    let mut rest = lines;
    for _ in 0..record.number() {
        let Some(after) = record.operation().and_then(|op| after_line(rest, op)) else {
            return false;
        };
        rest = after;
    }
    rest.is_empty()
}

/// Are the lines the recorded ones, the first as it stands, then the operations?
fn same_lines(record: &mut Packed<'_>, lines: &[u8]) -> bool {
    let len = usize::from(record.byte());
    match record
        .bytes(len)
        .and_then(|first| lines.strip_prefix(first))
    {
        Some(rest) => same_operations(record, rest),
        None => false,
    }
}

/// The lines for a record's job, which is laid into a buffer; nothing where there is no room.
fn answered<'a>(record: &mut Packed<'_>, job: &mut [u8], lines: &'a mut [u8]) -> Option<&'a [u8]> {
    let size = 4 * record.number() as usize;
    let job = job.get_mut(..size)?;
    for word in job.chunks_exact_mut(4) {
        word.copy_from_slice(&record.number().to_le_bytes());
    }
    let len = answer_job(job, lines).ok()?;
    lines.get(..len)
}

/// Puts a record's job to the driver's work.
pub(crate) fn put_to(bytes: &[u8], job: &mut [u8], lines: &mut [u8]) -> Outcome {
    let mut record = Packed { rest: bytes };
    let code = record.byte();
    let agrees = match answered(&mut record, job, lines) {
        Some(lines) => same_lines(&mut record, lines),
        None => false,
    };
    Outcome { code, agrees }
}
