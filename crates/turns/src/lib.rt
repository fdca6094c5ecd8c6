//! One turn of a trace: an operation's words carried out by the tracked stack's calls, and the completed positions counted after it.
#![tactic(auto)]

ghost use Rattle.std.specs.Prelude.{◌≡◌};
ghost use Rattle.stack.specs.Promises.{laid};
ghost use Rattle.tracked.specs.Promises.{tracked_of, SameLoans};
ghost use Rattle.turns.specs.Promises.{step_of, turned, kept as kept_in, completed_in};

use answer::read_op;
use indices::FromBottom;
use operations::ScheduleConfig;
use questions::View;
use reader::Record;
use rules::counting::update_complete_at_bottom;
use scope::Op;
use tracked::TrackedStack;

/// Carries out an operation by the call that it names, in words of its own, which have room for one. A `Store` takes the next slot,
/// whichever it says.
#[tactic(auto, unfolding(crate::specs::Promises::step_of))]
fn perform(current: &mut TrackedStack, op: Op)
    ensures loans { SameLoans current.old current.new }
    ensures state { tracked_of current.new ≡ (step_of op current.old).step.state }
    ensures array { current.new.stack.now.stack_raw
        ≡ laid (step_of op current.old).step.state.stack.values current.old.stack.now.stack_raw }
    ensures slots { current.new.spill.now ≡ (step_of op current.old).spill }
    ensures words { current.new.ops.now ≡ current.old.ops.now }
{
    let mut words = [0u32; 2];
    let mut alone = TrackedStack {
        stack: &mut *current.stack,
        ops: &mut words,
        spill: &mut *current.spill,
        first: current.first,
        filled: current.filled,
        written: current.written,
    };
    match op {
        Op::Swap(depth) => alone.swap(depth),
        Op::Dup(depth) => alone.dup(depth),
        Op::Pop => alone.pop(),
        Op::Store(_) => alone.spill_top(),
        Op::Load(id) => alone.load(id),
    };
    current.filled = alone.filled;
    current.written = alone.written;
}

/// The same for an operation's words; where they are none, nothing changes. The words that are lent for operations stay as they are.
#[tactic(auto, using(stack::proofs::Laws::laid_fifo))]
pub fn turn(current: &mut TrackedStack, item: Record)
    ensures loans { SameLoans current.old current.new }
    ensures state { tracked_of current.new ≡ (turned item current.old).step.state }
    ensures array { current.new.stack.now.stack_raw
        ≡ laid (turned item current.old).step.state.stack.values current.old.stack.now.stack_raw }
    ensures slots { current.new.spill.now ≡ (turned item current.old).spill }
    ensures words { current.new.ops.now ≡ current.old.ops.now }
{
    if let Some(op) = read_op(item.kind, item.argument) {
        perform(current, op);
    }
}

/// Of the completed positions from the bottom, those below the first at which the stack is not the target.
fn kept(view: &View) -> usize
    ensures { result ≡ kept_in view.now.current.now view.now.target.now view.now.complete }
{
    let end = view.complete.min(view.end());
    (0..end)
        .find(|p| view.differs(FromBottom(*p)))
        .unwrap_or(end)
}

/// How many positions from the bottom are completed, where so many were before: counting goes on from them, or from the first of them
/// that is not the target's any more.
pub fn completed(current: &[u32], target: &[u32], before: usize) -> usize
    ensures { result ≡ completed_in current.now target.now before }
{
    let mut view = View {
        current,
        target,
        spilled: &[],
        complete: before,
        config: ScheduleConfig::default(),
    };
    view.complete = kept(&view);
    update_complete_at_bottom(&view)
}
