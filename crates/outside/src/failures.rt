//! Which calls on something in memory are to fail, and how many failed.
ghost use Rattle.std.specs.Prelude.{◌≡◌, ◌+◌, ◌-◌, ◌^◌, ◌==◌, min, if◌then◌else◌};
ghost use Rattle.std.specs.List.{list_any};

/// The calls are numbered from 0. The count of faults stops at the greatest `u64`.
#[derive(Drop)]
pub(crate) struct Failures {
    pub(crate) faults: u64,
    calls: u64,
    failing: Vec<u64>,
}

impl Failures {
    pub(crate) fn new(failing: Vec<u64>) -> Failures
        ensures faults { result.faults ≡ 0 }
        ensures calls { result.calls ≡ 0 }
        ensures failing { result.failing ≡ failing }
    {
        Failures {
            faults: 0,
            calls: 0,
            failing,
        }
    }

    /// Counts a call, and a fault where the call is to fail.
    pub(crate) fn is_due(&mut self) -> bool
        ensures due { result ≡ list_any (λ call. call == self.old.calls) self.old.failing.items }
        ensures calls { self.new.calls ≡ min (self.old.calls + 1) (2 ^ 64 - 1) }
        ensures failing { self.new.failing ≡ self.old.failing }
        ensures faults { self.new.faults ≡ (if result then min (self.old.faults + 1)
            (2 ^ 64 - 1) else self.old.faults) }
    {
        let call = self.calls;
        self.calls = call.saturating_add(1);
        let is_due = self.failing.contains(&call);
        if is_due {
            self.count();
        }
        is_due
    }

    /// Counts a fault.
    pub(crate) fn count(&mut self)
        ensures { self.new ≡ record self.old { faults = min (self.old.faults + 1) (2 ^ 64 - 1) } }
    {
        self.faults = self.faults.saturating_add(1);
    }
}
