//! How many operators live at once, and how far numbers go.
ghost use Rattle.std.specs.Prelude.{◌≡◌, ◌+◌, ◌<◌, ◌≤◌, None};
ghost use Rattle.version_graph.specs.Edges.{operator_limit};
ghost use Rattle.version_graph.specs.Evolve.{limit_at, number_limit};

/// The most operators that live at once.
pub const MOST_OPERATORS: usize = 1024;

/// The limit that one more operator with so many target tables would pass, where so many operators
/// live and these are the last numbers given.
pub fn passed_limit(live: usize, last_operator: u32, last_table: u32, targets: usize) -> Option<u64>
    ensures limit { result ≡ limit_at live last_operator last_table targets }
    ensures few { result ≡ None → live < operator_limit }
    ensures operator { result ≡ None → last_operator < number_limit }
    ensures table { result ≡ None → last_table + targets ≤ number_limit }
{
    if live >= MOST_OPERATORS {
        return Some(MOST_OPERATORS as u64);
    }
    if last_operator == u32::MAX || targets as u64 > (u32::MAX - last_table) as u64 {
        return Some(u32::MAX as u64);
    }
    None
}
