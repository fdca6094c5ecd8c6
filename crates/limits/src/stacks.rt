//! The stack by itself: heights 0, 1, 1,023 and 1,024, length fields above, depths on both sides of the bottom.
use super::show::{code, count_up, found, list, stack_after, stack_of, yes_or_no};
use scope::Refusal;
use stack::EvmStack;
use std::io::{self, Write};

fn from_fifo(out: &mut impl Write, n: usize) -> io::Result<()> {
    let mut values = [0u32; 1026];
    count_up(&mut values);
    let made = EvmStack::from_fifo(&values[..n.min(1026)]);
    write!(out, "from_fifo of {n}: code {}", code(&made))?;
    stack_after(out, &EvmStack::new(), &made.unwrap_or(EvmStack::new()))?;
    writeln!(out)
}

/// A call that changes a stack of this height.
fn changed<F: FnOnce(&mut EvmStack) -> Result<(), Refusal>>(
    out: &mut impl Write,
    height: u16,
    call: F,
) -> io::Result<()>
    requires { F.IsAlwaysCallable call }
{
    let before = stack_of(height);
    let mut after = before;
    let answer = call(&mut after);
    write!(out, " at {height}: code {}", code(&answer))?;
    stack_after(out, &before, &after)?;
    writeln!(out)
}

fn push(out: &mut impl Write, height: u16) -> io::Result<()> {
    write!(out, "push 9")?;
    changed(out, height, |stack| stack.push(9))
}

fn pop(out: &mut impl Write, height: u16) -> io::Result<()> {
    let before = stack_of(height);
    let mut after = before;
    let value = after.pop();
    write!(out, "pop at {height}")?;
    found(out, value)?;
    stack_after(out, &before, &after)?;
    writeln!(out)
}

fn duplicate(out: &mut impl Write, height: u16, depth: u16) -> io::Result<()> {
    write!(out, "duplicate {depth}")?;
    changed(out, height, |stack| stack.duplicate(depth))
}

fn swap_with_top(out: &mut impl Write, height: u16, depth: u16) -> io::Result<()> {
    write!(out, "swap_with_top {depth}")?;
    changed(out, height, |stack| stack.swap_with_top(depth))
}

fn exchange(out: &mut impl Write, height: u16, n: u16, m: u16) -> io::Result<()> {
    write!(out, "exchange {n} {m}")?;
    changed(out, height, |stack| stack.exchange(n, m))
}

fn get_by_depth(out: &mut impl Write, height: u16, depth: u16) -> io::Result<()> {
    write!(out, "get_by_depth {depth} at {height}")?;
    found(out, stack_of(height).get_by_depth(depth))?;
    writeln!(out)
}

/// What only looks at the stack as a whole.
fn look(out: &mut impl Write, height: u16) -> io::Result<()> {
    let stack = stack_of(height);
    writeln!(out, "len at {height}: {}", stack.len())?;
    write!(out, "is_empty at {height}")?;
    yes_or_no(out, stack.is_empty())?;
    write!(out, "top at {height}")?;
    found(out, stack.top())?;
    writeln!(out)
}

fn find_first(out: &mut impl Write, height: u16, target: u32) -> io::Result<()> {
    write!(out, "find_first {target} at {height}")?;
    found(out, stack_of(height).find_first(target))?;
    writeln!(out)
}

fn count(out: &mut impl Write, height: u16, target: u32) -> io::Result<()> {
    let times = stack_of(height).count(target);
    writeln!(out, "count {target} at {height}: {times}")
}

/// A stack on which every value is 7, with this length field.
fn count_sevens(out: &mut impl Write, height: u16) -> io::Result<()> {
    let stack = EvmStack {
        stack_raw: [7; 1024],
        stack_len: height,
    };
    writeln!(out, "count 7 on sevens at {height}: {}", stack.count(7))?;
    write!(out, "find_first 7 on sevens at {height}")?;
    found(out, stack.find_first(7))?;
    writeln!(out)
}

/// The part of three words that a length says.
fn fifo(out: &mut impl Write, len: u16) -> io::Result<()> {
    let words = [70, 71, 72];
    let height = stack::height(&words, len);
    write!(out, "height of 3 words with length {len}: {height}, fifo")?;
    list(out, stack::fifo(&words, len))?;
    writeln!(out)
}

fn making(out: &mut impl Write) -> io::Result<()> {
    for n in [0, 1, 1023, 1024, 1025, 1026] {
        from_fifo(out, n)?;
    }
    for len in [0, 1, 2, 3, 4, 65535] {
        fifo(out, len)?;
    }
    Ok(())
}

fn growing(out: &mut impl Write) -> io::Result<()> {
    for height in [0, 1, 1023, 1024, 1025, 65535] {
        push(out, height)?;
    }
    for height in [0, 1, 2, 1023, 1024, 1025, 65535] {
        pop(out, height)?;
    }
    Ok(())
}

fn duplicating(out: &mut impl Write) -> io::Result<()> {
    for (height, depth) in [
        (0, 0),
        (0, 65535),
        (1, 0),
        (1, 1),
        (3, 0),
        (3, 2),
        (3, 3),
        (3, 65535),
        (1023, 0),
        (1023, 1022),
        (1023, 1023),
        (1024, 0),
        (1024, 1023),
        (1024, 1024),
        (65535, 1023),
        (65535, 1024),
    ] {
        duplicate(out, height, depth)?;
    }
    Ok(())
}

fn swapping(out: &mut impl Write) -> io::Result<()> {
    for (height, depth) in [
        (0, 0),
        (0, 1),
        (1, 0),
        (1, 1),
        (3, 0),
        (3, 1),
        (3, 2),
        (3, 3),
        (3, 65535),
        (1023, 1022),
        (1023, 1023),
        (1024, 0),
        (1024, 1023),
        (1024, 1024),
        (65535, 1023),
        (65535, 1024),
    ] {
        swap_with_top(out, height, depth)?;
    }
    Ok(())
}

fn exchanging(out: &mut impl Write) -> io::Result<()> {
    for (height, n, m) in [
        (0, 0, 0),
        (0, 3, 4),
        (1, 0, 0),
        (1, 0, 1),
        (1, 1, 0),
        (3, 0, 2),
        (3, 2, 0),
        (3, 1, 2),
        (3, 2, 2),
        (3, 2, 3),
        (3, 3, 2),
        (3, 3, 3),
        (1024, 1022, 1023),
        (1024, 1023, 0),
        (1024, 1023, 1024),
        (1024, 1024, 1023),
        (1025, 0, 1023),
        (1025, 0, 1024),
        (65535, 1023, 65534),
    ] {
        exchange(out, height, n, m)?;
    }
    Ok(())
}

fn reading(out: &mut impl Write) -> io::Result<()> {
    for (height, depth) in [
        (0, 0),
        (1, 0),
        (1, 1),
        (3, 2),
        (3, 3),
        (1023, 1022),
        (1023, 1023),
        (1024, 1023),
        (1024, 1024),
        (1024, 65535),
        (65535, 1023),
        (65535, 1024),
    ] {
        get_by_depth(out, height, depth)?;
    }
    for height in [0, 1, 1023, 1024, 1025, 65535] {
        look(out, height)?;
    }
    Ok(())
}

fn finding(out: &mut impl Write) -> io::Result<()> {
    for (height, target) in [
        (0, 0),
        (0, 1),
        (1, 0),
        (1, 1),
        (3, 3),
        (3, 4),
        (1024, 1),
        (1024, 1024),
        (1024, 1025),
        (65535, 1024),
    ] {
        find_first(out, height, target)?;
    }
    for (height, target) in [
        (0, 0),
        (1, 0),
        (1, 1),
        (3, 3),
        (3, 4),
        (1024, 1024),
        (1024, 1025),
    ] {
        count(out, height, target)?;
    }
    for height in [0, 1, 1023, 1024, 1025, 65535] {
        count_sevens(out, height)?;
    }
    Ok(())
}

pub(crate) fn run(out: &mut impl Write) -> io::Result<()> {
    making(out)?;
    growing(out)?;
    duplicating(out)?;
    swapping(out)?;
    exchanging(out)?;
    reading(out)?;
    finding(out)
}
