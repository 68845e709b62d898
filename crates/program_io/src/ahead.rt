// The input of a program, as far as it came: bytes that were passed, and those behind them, which are held.
ghost use Rattle.std.specs.Prelude.{◌≡◌, ◌≤◌, ◌⊎◌, [], ◌++◌, length, take, drop, IfOk, IsTrue};

use std::io;
use std::marker::Model;

// Room of a fixed size, and no Vec: the programs take nothing from the heap, but for a name of a file.
#[derive(Drop)]
pub struct Ahead {
    room: [u8; 790528],
    from: usize,
    held: usize,
}

impl Model for Ahead {
    ghost use Rattle.std.specs.Prelude.{◌+◌, ◌≤◌, take, drop};
    ghost use Rattle.program_io.specs.SoFar.{SoFar};

    ghost Value = { SoFar };

    ghost view = { λ a. record { passed = take a.from a.room; held = take a.held (drop a.from a.room) } };

    ghost invariant = { λ a. a.from + a.held ≤ 790528 };
}

impl Ahead {
    pub fn new() -> Self
        ensures passed { result.passed ≡ [] }
        ensures held { result.held ≡ [] }
    {
        Ahead {
            room: crate::room(),
            from: 0,
            held: 0,
        }
    }

    // Reads on until it holds so many bytes, or until there are no more. What it held stays at the front, where reading fails too.
    pub fn fill(&mut self, rt: &impl Input, want: usize) -> io::Result<()>
        ensures passed { self.new.passed ≡ self.old.passed }
        ensures kept { take (length self.old.held) self.new.held ≡ self.old.held }
        ensures most { (length self.new.held ≤ length self.old.held) ⊎ (length self.new.held ≤ want) }
    {
        let most = crate::least(want, self.room.len() - self.from);
        self.held = crate::filled(rt, &mut self.room[self.from..], self.held, most)?;
        Ok(())
    }

    pub fn passed(&self) -> &[u8]
        ensures { result.now ≡ self.now.passed }
    {
        &self.room[..self.from]
    }

    pub fn held(&self) -> &[u8]
        ensures { result.now ≡ self.now.held }
    {
        &self.room[self.from..self.from + self.held]
    }

    // Passes so many bytes, or all that it holds.
    pub fn pass(&mut self, n: usize)
        ensures passed { self.new.passed ≡ self.old.passed ++ take n self.old.held }
        ensures held { self.new.held ≡ drop n self.old.held }
    {
        let passed = n.min(self.held);
        self.from += passed;
        self.held -= passed;
    }

    // Forgets so many bytes, or all that it holds; those behind them go to their place.
    pub fn use_up(&mut self, n: usize)
        ensures passed { self.new.passed ≡ self.old.passed }
        ensures held { self.new.held ≡ drop n self.old.held }
    {
        let used = n.min(self.held);
        let end = self.from + self.held;
        self.room.copy_within(self.from + used..end, self.from);
        self.held -= used;
    }

    // Whether nothing is held, and nothing comes.
    pub fn is_at_end(&self, rt: &impl Input) -> io::Result<bool>
        ensures { IfOk result (λ yes. IsTrue yes → self.now.held ≡ []) }
    {
        crate::at_end(rt, self.held)
    }
}
