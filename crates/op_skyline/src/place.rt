ghost use Rattle.std.specs.Prelude.{◌≡◌, ◌≤◌, ◌<◌, ◌+◌, ◌*◌, ◌^◌};

/// Where the words of a stored point stand.
#[derive(Clone, Copy)]
pub(crate) struct Place {
    pub dimensions: u32,
    /// The first of its words: its old mark, score and values, hit, and what is computed of them.
    pub base: u32,
    /// Whether the row may still go in here or is dominated.
    pub gate: u32,
    /// The cells that go in.
    pub carry: u32,
    pub key: u32,
    /// The row's oriented values.
    pub values: u32,
    pub score: u32,
}

impl Place {
    /// Where those of the point after this one stand.
    pub(crate) fn next(self) -> Place
        requires few { self.dimensions ≤ 4 }
        requires base { self.base + 32 < 2 ^ 32 }
        ensures { result ≡ record self { base = self.base + 4 * self.dimensions + 9; gate = self.base + 3 * self.dimensions + 5; carry = self.base + 3 * self.dimensions + 6; key = self.base + 4 * self.dimensions + 8 } }
    {
        let (n, base) = (self.dimensions, self.base);
        Place {
            base: base + 4 * n + 9,
            gate: base + 3 * n + 5,
            carry: base + 3 * n + 6,
            key: base + 4 * n + 8,
            ..self
        }
    }
}
