//! Saturating counts, and the failing calls of the versions in memory.
ghost use Rattle.std.specs.Prelude.{◌≡◌};
ghost use Rattle.m_ports.specs.Counts.{counted_up, is_failing};

/// The count plus one, saturating.
pub fn count_up(count: u64) -> u64
    ensures { result ≡ counted_up count }
{
    count.saturating_add(1)
}

/// Whether the next call fails, after this many counted ones.
pub fn is_failing(failing: &[u64], calls: u64) -> bool
    ensures { result ≡ is_failing failing.now calls }
{
    failing
        .iter()
        .any(|number| *number > calls && *number - calls == 1)
}
