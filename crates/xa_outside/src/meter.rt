ghost use Rattle.std.specs.Prelude.{◌≡◌, ◌-◌, ◌^◌, ◌<◌, ◌≤◌};

/// What a folder counts of the bytes that go through it.
/// Each number stands still at its last value.
#[derive(Clone, Copy, Debug, PartialEq, Eq)]
pub struct Meter {
    /// The bytes that `read_at` gave.
    pulled: u64,
    /// The bytes given since the last `begin`.
    since: u64,
    /// The bytes appended since the last `begin`.
    drafted: u64,
    /// The greatest value of `since` less `drafted` since the last `begin`.
    gap: u64,
    pub ghost pulled_small: { pulled < 2 ^ 64 },
    pub ghost since_small: { since < 2 ^ 64 },
    pub ghost drafted_small: { drafted < 2 ^ 64 },
    pub ghost gap_small: { gap < 2 ^ 64 },
    pub ghost covers: { since - drafted ≤ gap },
}

impl Meter {
    ghost use Rattle.xa_outside.specs.Numbers.{numbers_none, after_pull, after_draft, after_begin};
    ghost use Rattle.xa_outside.specs.Meter.{numbers};

    pub fn new() -> Meter
        ensures { numbers result ≡ numbers_none }
    {
        Meter {
            pulled: 0,
            since: 0,
            drafted: 0,
            gap: 0,
        }
    }

    /// The bytes that `read_at` gave.
    pub fn pulled(&self) -> u64
        ensures { result ≡ (numbers self.now).pulled }
    {
        self.pulled
    }

    /// The bytes given since the last `begin`.
    pub fn since(&self) -> u64
        ensures { result ≡ (numbers self.now).since }
    {
        self.since
    }

    /// The greatest value of `since` less the bytes drafted, since the last `begin`.
    pub fn gap(&self) -> u64
        ensures { result ≡ (numbers self.now).gap }
    {
        self.gap
    }

    pub fn pull(&mut self, count: usize)
        ensures { numbers self.new ≡ after_pull (numbers self.old) count }
    {
        let count = count as u64;
        self.pulled = self.pulled.saturating_add(count);
        self.since = self.since.saturating_add(count);
        self.gap = self.gap.max(self.since.saturating_sub(self.drafted));
    }

    pub fn draft(&mut self, count: usize)
        ensures { numbers self.new ≡ after_draft (numbers self.old) count }
    {
        self.drafted = self.drafted.saturating_add(count as u64);
    }

    pub fn begin(&mut self)
        ensures { numbers self.new ≡ after_begin (numbers self.old) }
    {
        self.since = 0;
        self.drafted = 0;
        self.gap = 0;
    }
}
