//! The printed form of an operation, and of the numbers in it, as bytes in a lent buffer.
#![tactic(auto)]

ghost use Rattle.std.specs.Prelude.{◌≡◌, ◌++◌, ◌+◌, ◌≤◌, length, leb};
ghost use Rattle.scope.specs.Stack.{decimal, printed};
ghost use Rattle.printing.specs.Promises.{Lays};

use scope::StackOps;

/// Text in a lent buffer: the next byte goes to the place `len`. What does not fit is cut off at the buffer's end.
#[derive(Drop)]
pub struct Text<'a> {
    pub out: &'a mut [u8],
    pub len: usize,
}

/// How many digits a number has in decimal, 20 at most.
#[tactic(auto, using(crate::proofs::Digits::digits))]
pub fn decimal_len(n: u64) -> usize
    ensures { (result ≡ length (decimal n)) × (result ≤ 20) }
{
    itoa::Buffer::new().format(n).len()
}

/// How many bytes an operation prints as, 52 at most.
pub fn printed_len(op: StackOps) -> usize
    ensures { (result ≡ length (printed op)) × (result ≤ 52) }
{
    match op {
        StackOps::Swap(depth) => 6 + decimal_len(depth.into()),
        StackOps::Dup(depth) => 5 + decimal_len(depth.into()),
        StackOps::Pop => 3,
        StackOps::Exchange(n, m) => 12 + decimal_len(n.into()) + decimal_len(m.into()),
        StackOps::Store(id) => 7 + decimal_len(id.into()),
        StackOps::Load(id) => 6 + decimal_len(id.into()),
    }
}

impl Text<'_> {
    /// Do so many bytes fit?
    pub fn fits(&self, len: usize) -> bool
        ensures { result ≡ leb (self.now.len + len) (length self.now.out.now) }
    {
        self.len
            .checked_add(len)
            .is_some_and(|end| end <= self.out.len())
    }

    /// Bytes as they are.
    pub fn put(&mut self, text: &[u8])
        ensures lays { Lays self.old.out.now self.old.len text.now self.new.out.now self.new.len }
        ensures same { self.new.out.ghost_name ≡ self.old.out.ghost_name }
    {
        let Some(room) = self.out.len().checked_sub(self.len) else {
            return;
        };
        let n = text.len().min(room);
        let end = self.len + n;
        self.out[self.len..end].copy_from_slice(&text[..n]);
        self.len = end;
    }

    /// A number in decimal.
    #[tactic(auto, using(crate::proofs::Digits::digits))]
    pub fn number(&mut self, n: u64)
        ensures lays { Lays self.old.out.now self.old.len (decimal n) self.new.out.now self.new.len }
        ensures same { self.new.out.ghost_name ≡ self.old.out.ghost_name }
    {
        let mut digits = itoa::Buffer::new();
        self.put(digits.format(n).as_bytes());
    }

    /// A text and a number after it.
    pub fn label(&mut self, text: &[u8], n: u64)
        ensures lays { Lays self.old.out.now self.old.len (text.now ++ decimal n) self.new.out.now self.new.len }
        ensures same { self.new.out.ghost_name ≡ self.old.out.ghost_name }
    {
        self.put(text);
        self.number(n);
    }

    /// A number between two texts.
    pub fn around(&mut self, before: &[u8], n: u64, after: &[u8])
        ensures lays { Lays self.old.out.now self.old.len (before.now ++ decimal n ++ after.now) self.new.out.now self.new.len }
        ensures same { self.new.out.ghost_name ≡ self.old.out.ghost_name }
    {
        self.label(before, n);
        self.put(after);
    }

    /// An operation as the driver prints it.
    pub fn operation(&mut self, op: StackOps)
        ensures lays { Lays self.old.out.now self.old.len (printed op) self.new.out.now self.new.len }
        ensures same { self.new.out.ghost_name ≡ self.old.out.ghost_name }
    {
        match op {
            StackOps::Swap(depth) => self.around(b"Swap(", depth.into(), b")"),
            StackOps::Dup(depth) => self.around(b"Dup(", depth.into(), b")"),
            StackOps::Pop => self.put(b"Pop"),
            StackOps::Exchange(n, m) => {
                self.around(b"Exchange(", n.into(), b", ");
                self.number(m.into());
                self.put(b")");
            }
            StackOps::Store(id) => self.around(b"store(", id.into(), b")"),
            StackOps::Load(id) => self.around(b"load(", id.into(), b")"),
        }
    }
}
