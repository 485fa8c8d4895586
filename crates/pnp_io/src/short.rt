// Calls that move fewer bytes than they could.
ghost use Rattle.std.specs.Prelude.{◌≡◌, ◌≤◌, ◌<◌, min};
ghost use Rattle.pnp_io.specs.Memory.{moved};

use std::marker::Model;

/// A call that moves at most so many bytes, at least one: its number, counted from 1, and the most.
#[derive(Drop)]
pub struct Short {
    call: u64,
    most: u64,
}

impl Model for Short {
    ghost use Rattle.std.specs.Prelude.{ℕ, ◌≤◌};

    ghost Value = { ℕ × ℕ };

    ghost view = { λ s. (s.call, s.most) };

    ghost invariant = { λ s. 1 ≤ s.most };
}

impl Short {
    pub fn make(call: u64, most: u64) -> Short
        requires { 1 ≤ most }
        ensures { result ≡ (call, most) }
    {
        Short { call, most }
    }

    fn call(&self) -> u64
        ensures { result ≡ self.now.0 }
    {
        self.call
    }

    /// At most so many of `n` bytes.
    fn cut(&self, n: usize) -> usize
        ensures least { result ≡ min n self.now.1 }
        ensures within { result ≤ n }
        ensures some { 0 < n → 0 < result }
    {
        n.min(self.most as usize)
    }
}

/// How many of `n` bytes a call moves: at most as many as are listed for its number, by the first that is listed.
pub fn moved(short: &[Short], call: u64, n: usize) -> usize
    ensures moved { result ≡ moved short.now call n }
    ensures within { result ≤ n }
    ensures some { 0 < n → 0 < result }
{
    for listed in short {
        if listed.call() == call {
            return listed.cut(n);
        }
    }
    n
}
