//! Which side of an operator is near.
ghost use Rattle.std.specs.Prelude.{◌≡◌};
ghost use Rattle.op_rows.specs.NearSides.{far_of};

/// The side from which an operator is seen: a mapping takes its rows, auxiliary rows stand beside
/// it. The other side is far.
#[derive(Clone, Copy)]
pub enum NearSide {
    Source,
    Target,
}

impl NearSide {
    /// The far side, as the near one.
    pub fn far(self) -> NearSide
        ensures { result ≡ far_of self }
    {
        match self {
            NearSide::Source => NearSide::Target,
            NearSide::Target => NearSide::Source,
        }
    }
}
