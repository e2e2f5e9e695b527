ghost use Rattle.std.specs.Prelude.{◌≡◌, ◌+◌, ◌*◌, ℕ};
ghost use Rattle.handler_sizes.specs.Capped.{capped, sized};

/// The size of a part of a handler; each count that doesn't fit 64 bits is the largest that does.
#[derive(Clone, Copy)]
pub(crate) struct Size {
    pub(crate) statements: u64,
    pub(crate) literals: u64,
    pub(crate) paths: u64,
}

impl Size {
    /// The size of a part with another part behind it.
    pub(crate) fn then(self, next: Size) -> Size
        ensures { result
            ≡ sized (self.statements + next.statements) (self.literals + next.literals) (self.paths * next.paths) }
    {
        Size {
            statements: self.statements.saturating_add(next.statements),
            literals: self.literals.saturating_add(next.literals),
            paths: self.paths.saturating_mul(next.paths),
        }
    }

    /// The size of a part with another part beside it.
    pub(crate) fn beside(self, other: Size) -> Size
        ensures { result
            ≡ sized (self.statements + other.statements) (self.literals + other.literals) (self.paths + other.paths) }
    {
        Size {
            statements: self.statements.saturating_add(other.statements),
            literals: self.literals.saturating_add(other.literals),
            paths: self.paths.saturating_add(other.paths),
        }
    }
}
