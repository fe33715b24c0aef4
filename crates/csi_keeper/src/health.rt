//! Counts the calls that a keeper refused, and records if the keeper is down.

ghost use Rattle.std.specs.Prelude.{◌≡◌, ◌≢◌, ◌+◌, ◌-◌, ◌^◌, min, true, false, Err, OnOk, OnErr};
ghost use Rattle.csi_keeper.specs.Keeper.{count_after};
ghost use Rattle.csi_keeper.specs.Health.{Finishes, Starts, answered};
ghost use Rattle.csi_keeper.specs.declared.change.StoreFault.TheVariants.{Down};

use crate::change::StoreFault;

/// The state of a keeper's service: if the keeper is down, and how many calls it refused.
///
/// A keeper calls `start_call` at the start of each call. At the end of the call it passes the result through
/// `finish_call` for a read, or `finish_change` for a change.
///
/// ```rust
/// self.health.start_call()?;
/// let answer = self.store.next_number();
/// self.health.finish_call(answer)
/// ```
#[derive(Drop)]
pub struct Health {
    /// The number of calls that returned `Refused` or `Down`, at most 2^64 - 1.
    pub refusals: u64,
    /// True if the keeper is down, so that each further read and change returns `Down`.
    pub is_down: bool,
}

impl Health {
    /// Returns the health of a keeper before its first call: the keeper is not down and has refused no call.
    pub fn new() -> Health
        ensures fresh { result.refusals ≡ 0 }
        ensures up { result.is_down ≡ false }
    {
        Health {
            refusals: 0,
            is_down: false,
        }
    }

    fn count_refusal(&mut self)
        ensures { self.new ≡ record self.old { refusals = min (self.old.refusals + 1) (2 ^ 64 - 1) } }
    {
        self.refusals = self.refusals.saturating_add(1);
    }

    /// Starts a call, which is a read or a change.
    ///
    /// # Errors
    ///
    /// `Down` if the keeper is down. The refusal is counted.
    pub fn start_call(&mut self) -> Result<(), StoreFault>
        ensures { Starts self.old self.new result }
    {
        if self.is_down {
            self.count_refusal();
            return Err(StoreFault::Down);
        }
        Ok(())
    }

    /// Finishes a read with its result. A failed read does not bring the keeper down.
    ///
    /// # Errors
    ///
    /// - `NoMemory` if `answer` is `NoMemory`.
    /// - `Refused` if `answer` is `Refused`, or `Down` from a keeper below this keeper. The refusal is
    ///   counted.
    pub fn finish_call<T>(&mut self, answer: Result<T, StoreFault>) -> Result<T, StoreFault>
        ensures { Finishes self.old self.new answer result }
    {
        match answer {
            Ok(value) => Ok(value),
            Err(StoreFault::NoMemory) => Err(StoreFault::NoMemory),
            Err(_) => {
                self.count_refusal();
                Err(StoreFault::Refused)
            }
        }
    }

    /// Finishes a change with its result. After any fault, also `NoMemory`, the keeper is down.
    ///
    /// # Errors
    ///
    /// - `NoMemory` if `answer` is `NoMemory`.
    /// - `Refused` if `answer` is `Refused`, or `Down` from a keeper below this keeper. The refusal is
    ///   counted.
    pub fn finish_change(&mut self, answer: Result<(), StoreFault>) -> Result<(), StoreFault>
        ensures answers { result ≡ answered answer }
        ensures up { result ≢ Err Down }
        ensures count { self.new.refusals ≡ count_after self.old.refusals result }
        ensures stays { OnOk result (self.new.is_down ≡ self.old.is_down) }
        ensures stops { OnErr result (self.new.is_down ≡ true) }
    {
        if answer.is_err() {
            self.is_down = true;
        }
        self.finish_call(answer)
    }
}
