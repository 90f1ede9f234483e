ghost use Rattle.std.specs.Prelude.{◌≡◌, ℕ, ◌<◌, ◌≤◌, List, length, take, Option, IfOk, OnOk, OnErr};
ghost use Rattle.eva_front.specs.Outside.{Appends, HasCause, Takes};

/// A call of a source or a sink that failed. The object's count of faults rose in it.
#[derive(Clone, Copy, Debug, Drop, PartialEq, Eq)]
pub struct Failed;

/// Where files are read: one file is open at a time.
pub trait Source {
    // the bytes of each name, where the source tells them
    ghost content: { Self → List ℕ → Option (List ℕ) };

    // what the open file has left, where the source tells it
    ghost left: { Self → Option (List ℕ) };

    // how many calls failed
    ghost faults: { Self → ℕ };

    // the names that may be opened
    ghost open_to: { Self → List ℕ → Type 0 };

    // a file is open
    ghost is_open: { Self → Type 0 };

    /// Opens a file from its beginning. A name that isn't there is a failure.
    fn open(&mut self, name: &str) -> Result<(), Failed>
        requires { open_to self.old name.now }
        ensures opened { OnOk result (is_open self.new) }
        ensures left { OnOk result (left self.new ≡ content self.old name.now) }
        ensures content { (n : List ℕ) → content self.new n ≡ content self.old n }
        ensures cause { HasCause (faults self.old) (faults self.new) result };

    /// Reads bytes to the front of `to`, and says how many. 0 into a slice that isn't empty is the end.
    fn read(&mut self, to: &mut [u8]) -> Result<usize, Failed>
        requires { is_open self.old }
        ensures within { IfOk result (λ n. n ≤ length to.new) }
        ensures bytes { IfOk result (λ n. Takes (left self.old) (left self.new) n to.new) }
        ensures opened { OnOk result (is_open self.new) }
        ensures content { (n : List ℕ) → content self.new n ≡ content self.old n }
        ensures cause { HasCause (faults self.old) (faults self.new) result };
}

/// Where text is written.
pub trait Sink {
    // the bytes written, where the sink tells them
    ghost written: { Self → Option (List ℕ) };

    // how many calls failed
    ghost faults: { Self → ℕ };

    /// Takes bytes from the front of `piece`, and says how many: at least one, where there is one.
    fn put(&mut self, piece: &[u8]) -> Result<usize, Failed>
        ensures within { IfOk result (λ n. n ≤ length piece.now) }
        ensures some { IfOk result (λ n. 0 < length piece.now → 0 < n) }
        ensures bytes { IfOk result (λ n. Appends (written self.old) (written self.new) (take n piece.now)) }
        ensures kept { OnErr result (written self.new ≡ written self.old) }
        ensures cause { HasCause (faults self.old) (faults self.new) result };
}
