//! A list of pairs that stands in contracts and proofs alone. It takes no memory, and its methods do nothing when they run.
ghost use Rattle.std.specs.Prelude.{◌≡◌, List, [], ◌∷◌, ◌++◌};
ghost use Rattle.std.specs.Borrow.{ftrue};

use std::marker::{Model, PhantomData};

/// A list of pairs without a run-time part. A clause reads the pairs as `items`.
#[derive(Drop)]
pub struct ProofPairs<A, B> {
    of: PhantomData<(A, B)>,
    pub ghost items: { List (A × B) },
}

impl<A, B> Model for ProofPairs<A, B> {
    ghost also_owns = { λ _. ftrue };
}

impl<A, B> ProofPairs<A, B> {
    /// The empty list.
    pub fn new() -> ProofPairs<A, B>
        ensures { result.items ≡ [] }
    {
        ProofPairs { of: PhantomData }
    }

    /// The list with one more pair at its end.
    pub fn and(&self, first: &A, second: &B) -> ProofPairs<A, B>
        ensures { result.items ≡ self.now.items ++ (first.now, second.now) ∷ [] }
    {
        ProofPairs { of: PhantomData }
    }
}
