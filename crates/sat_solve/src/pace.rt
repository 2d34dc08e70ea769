//! When the search starts again.
ghost use Rattle.std.specs.Prelude.{◌≡◌, ◌+◌, ◌≤◌, true, false};

/// How many restarts there were, and at how many lemmas the next may come.
#[derive(Drop)]
pub struct Pace {
    pub restarts: u64,
    due: u64,
}

// No more than one restart comes after so many lemmas.
const UNIT: u64 = 2;

impl Pace {
    /// No restarts yet.
    pub fn new() -> Self
        ensures { result.restarts ≡ 0 }
    {
        Pace {
            restarts: 0,
            due: UNIT,
        }
    }

    /// Whether a restart is due after this many lemmas, in a search that is restless or not. If so, the next one is
    /// due later. There are never more than lemmas.
    pub fn is_due(&mut self, lemmas: u64, restless: bool) -> bool
        ensures kept { result ≡ false → self.new.restarts ≡ self.old.restarts }
        ensures counted { result ≡ true → self.new.restarts ≡ self.old.restarts + 1 }
        ensures few { result ≡ true → self.new.restarts ≤ lemmas }
    {
        if !restless || lemmas < self.due || self.restarts >= lemmas {
            return false;
        }
        self.restarts += 1;
        self.due = lemmas.wrapping_add(UNIT);
        true
    }
}
