ghost use Rattle.std.specs.Prelude.{◌≡◌, ◌<◌, ◌^◌, ◌⊎◌, ◌++◌, [], ◌∷◌, List, Option, None, Some, length, IfOk, OnOk, OnErr, MatchResult};

/// What one thread could hold: it takes one operation after another, and keeps those that it took in a
/// journal.
pub trait Object {
    /// What it takes.
    type Op;

    /// What it answers.
    type Reply;

    /// Why it refuses.
    type Fault;

    /// What it is between two operations. No value of it is made.
    type State;

    /// What it is.
    ghost state: { Self → Self.State };

    /// The operations that it took, oldest first.
    ghost journal: { Self → List Self.Op };

    /// What an operation is answered in a state.
    ghost reply_to: { Self.State → Self.Op → Self.Reply };

    /// The state after an operation.
    ghost next: { Self.State → Self.Op → Self.State };

    /// Why an operation is refused in a state after these operations, whatever the memory, or none.
    ghost refusal: { Self.State → List Self.Op → Self.Op → Option Self.Fault };

    /// An operation may want memory in a state.
    ghost lacks: { Self.State → Self.Op → Type 0 };

    /// The fault of an operation for which memory was wanting.
    ghost no_memory: { Self.Fault };

    /// What holds of each reply beside what it is.
    ghost fits: { Self.Reply → Type 0 };

    /// Takes one operation, or refuses it and stays as it is.
    fn step(&mut self, op: Self::Op) -> Result<Self::Reply, Self::Fault>
        ensures answered { MatchResult result
            (λ reply. (refusal (state self.old) (journal self.old) op ≡ None)
            × (reply ≡ reply_to (state self.old) op))
            (λ fault. (refusal (state self.old) (journal self.old) op ≡ Some fault)
            ⊎ ((fault ≡ no_memory) × lacks (state self.old) op
            × (refusal (state self.old) (journal self.old) op ≡ None))) }
        ensures fits { IfOk result fits }
        ensures next { OnOk result (state self.new ≡ next (state self.old) op) }
        ensures entered { OnOk result (journal self.new ≡ journal self.old ++ op ∷ []) }
        ensures short { length (journal self.new) < 2 ^ 63 }
        ensures kept { OnErr result (state self.new ≡ state self.old) }
        ensures journal_kept { OnErr result (journal self.new ≡ journal self.old) };
}
