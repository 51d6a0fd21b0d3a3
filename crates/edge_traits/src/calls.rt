ghost use Rattle.std.specs.Prelude.{◌≡◌, ◌↔◌, IsTrue, Contains};
ghost use Rattle.edge_traits.specs.Counts.{next_count};

/// Calls counted from 0, of which those that a list numbers fail.
#[derive(Drop)]
pub(crate) struct Calls {
    failing: Vec<u64>,
    made: u64,
}

impl Calls {
    /// No calls yet, of which those that `failing` numbers will fail.
    pub(crate) fn of(failing: Vec<u64>) -> Calls
        ensures failing { result.failing.items ≡ failing.items }
        ensures made { result.made ≡ 0 }
    {
        Calls { failing, made: 0 }
    }

    /// Counts one call, and tells whether it fails.
    pub(crate) fn next_fails(&mut self) -> bool
        ensures fails { IsTrue result ↔ Contains self.old.failing.items self.old.made }
        ensures made { self.new ≡ record self.old { made = next_count self.old.made } }
    {
        let number = self.made;
        self.made = self.made.saturating_add(1);
        self.failing.contains(&number)
    }
}
