// How much memory the pool may use, from the device's recommended working set.
ghost use Rattle.std.specs.Prelude.{◌≡◌};
ghost use Rattle.pool_rules.specs.Budget.{budget_of, resume_below};

// Most bytes of spares on any device. The Rust: not the bound that normally acts, which is SPARE_MAX_IDLE_SUBMITS, but that bound's
// worst case in the busiest measured scene: eight submissions of 134 MiB of retired versions. Versions queued for destruction do
// not count: they leave within a few drains, and counting them would keep the pool turning versions away for as long as that queue
// fed itself.
const VERSION_POOL_CEILING_BYTES: u64 = 1 << 30;

// The working set's divisor that gives the cap below the ceiling. The Rust: an eighth keeps the pool's share of a small machine's
// memory small, while every machine with 8 GiB or more reaches the ceiling.
const VERSION_POOL_WORKING_SET_DIVISOR: u64 = 8;

// Quarters of the working set that the process may allocate before spares go. The Rust: above three quarters Metal is close to paging
// or failing, and spares are the cheapest memory to give back, since nothing names them. Parking resumes only below the line less the
// cap, so that a process that hovers at the line does not park and destroy in turn.
const VERSION_POOL_PRESSURE_QUARTERS: u64 = 3;

// `cap`: most bytes of spares that the pool parks. `line`: allocated bytes above which it gives its spares back.
#[derive(Clone, Copy)]
pub struct VersionBudget {
    pub cap: u64,
    pub line: u64,
}

impl VersionBudget {
    // Returns the budget for a device whose recommended working set is `working` bytes. A working set of 0, which Metal does not report
    // for a real device, leaves the ceiling as the cap and no pressure line.
    pub fn from_working_set(working: u64) -> VersionBudget
        ensures { result ≡ budget_of working }
    {
        if working == 0 {
            return VersionBudget {
                cap: VERSION_POOL_CEILING_BYTES,
                line: u64::MAX,
            };
        }
        let share = working / VERSION_POOL_WORKING_SET_DIVISOR;
        VersionBudget {
            cap: share.min(VERSION_POOL_CEILING_BYTES),
            line: working / 4 * VERSION_POOL_PRESSURE_QUARTERS,
        }
    }

    // Returns the most bytes of spares that the pool parks.
    pub fn spare_cap(self) -> u64
        ensures { result ≡ self.cap }
    {
        self.cap
    }

    // Returns the allocated bytes above which the pool gives its spares back.
    pub fn pressure_above(self) -> u64
        ensures { result ≡ self.line }
    {
        self.line
    }

    // Returns the allocated bytes that the process has to fall below before parking resumes.
    #[tactic(auto, unfolding(crate::specs::Budget::resume_below))]
    pub fn resume_below(self) -> u64
        ensures { result ≡ resume_below self }
    {
        self.line.saturating_sub(self.cap)
    }
}
