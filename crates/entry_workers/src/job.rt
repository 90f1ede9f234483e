//! What workers are given to do.
ghost use Rattle.std.specs.Prelude.{◌≡◌, ℕ, List, ℤ, Bool, true};
ghost use Rattle.store_api.specs.Tree.{Tree};
ghost use Rattle.store_api.specs.Bag.{Bag, Trades, Rose, none};

use store_api::Store;

/// Work that has an index: a result for each, made over a store.
pub trait Job<S: Store> {
    /// What the work on one index gives.
    type R: Drop;

    /// Whether the work on an index may be done over a store about this list.
    ghost ready: { Self → List ℤ → ℕ → Type 0 };

    /// What is promised of the result for an index, whose holds have these trees.
    ghost promised: { Self → ℕ → Self.R → (ℕ → Tree) → Type 0 };

    /// How many holds of each name the result has.
    ghost held: { Self.R → ℕ → ℕ };

    /// Whether the result says that the work met a stop of the store.
    ghost halted: { Self.R → Bool };

    /// Does the work on an index.
    fn run(&self, s: &mut S, index: u32) -> Self::R
        requires { ready self.now (S.bag s.old).about index }
        ensures bag { Trades (S.bag s.old) (S.bag s.new) none (held result) }
        ensures promise { promised self.now index result (S.bag s.new).tree }
        ensures halted { halted result ≡ true → Rose (S.bag s.old).stops (S.bag s.new).stops };
}

/// The two moments of a worker at an entry.
#[derive(Clone, Copy, Debug, PartialEq, Eq)]
pub enum Moment {
    Drawn,
    Answered,
}

/// What a worker passes at each moment. Nothing depends on what it does.
pub trait Gate {
    fn pass(&self, worker: u32, entry: u32, at: Moment);
}
