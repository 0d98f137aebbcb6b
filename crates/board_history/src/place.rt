ghost use Rattle.std.specs.Prelude.{◌≡◌};
ghost use Rattle.board_history.specs.Order.{is_before};

/// Where a fragment stands in the order of the queue: first those that can finish, then by fewer columns, then by
/// number.
#[derive(Clone, Copy)]
pub struct Place {
    /// Whether a fragment that it names hasn't ended yet, so that it can't finish.
    pub blocked: bool,
    /// How many distinct columns it reads; 0 for a merge.
    pub width: u32,
    /// Its number.
    pub fragment: u32,
}

impl Place {
    /// Whether this place comes before another one.
    pub fn is_before(&self, other: &Place) -> bool
        ensures { result ≡ is_before self.now other.now }
    {
        if self.blocked != other.blocked {
            return other.blocked;
        }
        if self.width != other.width {
            return self.width < other.width;
        }
        self.fragment < other.fragment
    }
}
