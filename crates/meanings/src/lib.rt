//! Document 01's codes by their names, and what each one means.
#![tactic(auto)]

ghost use Rattle.std.specs.Prelude.{◌≡◌};
ghost use Rattle.lines.specs.Promises.{Wrote};

use printing::Text;

/// The shuffle's codes, 1 to 13, and the checker's own, 30 to 41.
fn meaning(code: u32) -> &'static str {
    match code {
        1 => "LIMIT: the swap limit is 0",
        2 => "START: the start stack has more than 1,024 values",
        3 => "TARGET: the target has more than 1,024 values",
        4 => "FILLED: more slots are filled than there are",
        5 => "SLOTS: the first slot and the slots lent pass 4,294,967,295",
        6 => "MISSING: a value has to be loaded and is in no slot",
        7 => "FULL: a value has to be pushed and the stack has 1,024",
        8 => "STUCK: the target is not reached and there is nothing to load",
        9 => "TICKS: a loop has had 100,000 ticks and would go on",
        10 => "SPILL: a value has to be stored and no slot is free",
        11 => "OPS: there is no room for the next operation",
        12 => "INSIDE: a rule reads outside the stack or the target",
        13 => "JOB: the bytes are no job",
        30 => "ODD: the words are not whole operations",
        31 => "UNKNOWN: no operation has this kind, or a Pop has an argument",
        32 => "SWAP-FAR: a swap's depth is 1 to the swap limit",
        33 => "SWAP-BELOW: the swap reaches below the bottom of the stack",
        34 => "DUP-FAR: a dup's depth is at most the dup limit",
        35 => "DUP-BELOW: the dup reaches below the bottom of the stack",
        36 => "TOO-HIGH: the stack would be higher than 1,024",
        37 => "NONE-LEFT: there is nothing on the stack to pop or to store",
        38 => "OTHER-SLOT: a store has to name the next slot",
        39 => "NO-SLOT: no slot is free",
        40 => "NOT-FILLED: the slot to load is not filled",
        41 => "UNLIKE: the list ends and the stack is not the target",
        _ => "a code without a name",
    }
}

/// A code's name and its meaning: 1 to 13, 30 to 41.
pub fn put_meaning(text: &mut Text, code: u32)
    ensures wrote { Wrote text.old.out.now text.old.len text.new.out.now text.new.len }
    ensures same { text.new.out.ghost_name ≡ text.old.out.ghost_name }
{
    text.put(meaning(code).as_bytes());
}
