//! A set of CPUs, as a number of 64 bits.
ghost use Rattle.std.specs.Prelude.{◌≡◌, ◌==◌, ℕ, ◌+◌, ◌<◌, ◌≤◌, ◌↔◌, ◌&&◌, ◌||◌, not, false, nat_lt, IsTrue, MatchOption, length};

/// CPUs are numbered below this.
pub const MAX_CPUS: u32 = 64;

/// A set of CPUs: bit k is set where CPU k is in it.
#[derive(Clone, Copy, Debug, PartialEq, Eq)]
pub struct Mask {
    pub bits: u64,
}

impl Mask {
    ghost use Rattle.lb_base.specs.Mask.{has, members, no_cpus, first_cpus, only, both, either, without, HasNoneFrom, IsFirstFrom, IsSubset};
    ghost use Rattle.lb_base.specs.Sets.{least, least_above};

    /// No CPU.
    pub fn none() -> Mask
        ensures value { result ≡ no_cpus }
        ensures cpus { (k : ℕ) → has result k ≡ false }
    {
        Mask { bits: 0 }
    }

    /// The CPUs below `cpus`.
    pub fn all(cpus: u32) -> Mask
        requires { cpus ≤ MAX_CPUS }
        ensures value { result ≡ first_cpus cpus }
        ensures cpus { (k : ℕ) → has result k ≡ nat_lt k cpus }
    {
        if cpus == MAX_CPUS {
            Mask { bits: u64::MAX }
        } else {
            Mask {
                bits: (1 << cpus) - 1,
            }
        }
    }

    /// One CPU.
    pub fn one(cpu: u32) -> Mask
        requires { cpu < MAX_CPUS }
        ensures value { result ≡ only cpu }
        ensures cpus { (k : ℕ) → has result k ≡ (k == cpu) }
    {
        Mask { bits: 1 << cpu }
    }

    /// Whether the mask has the CPU.
    pub fn has(self, cpu: u32) -> bool
        requires { cpu < MAX_CPUS }
        ensures { result ≡ has self cpu }
    {
        (self.bits >> cpu) & 1 == 1
    }

    /// The least CPU, or None where there is none.
    pub fn first(self) -> Option<u32>
        ensures value { result ≡ least self }
        ensures cpus { MatchOption result (HasNoneFrom self 0) (λ c. IsFirstFrom self 0 c) }
    {
        if self.bits == 0 {
            None
        } else {
            Some(self.bits.trailing_zeros())
        }
    }

    /// The least CPU above `cpu`, or None where there is none.
    pub fn next_after(self, cpu: u32) -> Option<u32>
        requires { cpu < MAX_CPUS }
        ensures value { result ≡ least_above self cpu }
        ensures cpus { MatchOption result (HasNoneFrom self (cpu + 1)) (λ c. IsFirstFrom self (cpu + 1) c) }
    {
        if cpu == MAX_CPUS - 1 {
            return None;
        }
        let above = self.bits >> (cpu + 1);
        if above == 0 {
            None
        } else {
            Some(above.trailing_zeros() + cpu + 1)
        }
    }

    /// The CPUs of both masks.
    pub fn and(self, o: Mask) -> Mask
        ensures value { result ≡ both self o }
        ensures cpus { (k : ℕ) → has result k ≡ (has self k && has o k) }
    {
        Mask {
            bits: self.bits & o.bits,
        }
    }

    /// The CPUs of either mask.
    pub fn or(self, o: Mask) -> Mask
        ensures value { result ≡ either self o }
        ensures cpus { (k : ℕ) → has result k ≡ (has self k || has o k) }
    {
        Mask {
            bits: self.bits | o.bits,
        }
    }

    /// The CPUs that the other mask lacks.
    pub fn without(self, o: Mask) -> Mask
        ensures value { result ≡ without self o }
        ensures cpus { (k : ℕ) → has result k ≡ (has self k && not (has o k)) }
    {
        Mask {
            bits: self.bits & !o.bits,
        }
    }

    /// How many CPUs there are.
    pub fn weight(self) -> u32
        ensures { result ≡ length (members self) }
    {
        self.bits.count_ones()
    }

    /// Whether the other mask has each of these CPUs.
    pub fn subset(self, of: Mask) -> bool
        ensures { IsTrue result ↔ IsSubset self of }
    {
        self.bits & !of.bits == 0
    }
}
