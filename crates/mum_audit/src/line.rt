//! Numbers of lines.

ghost use Rattle.std.specs.Prelude.{◌≡◌};
ghost use Rattle.mum_audit.specs.Workers.{next_line};

// The number of the line below.
pub(crate) fn next_line(line: u64) -> u64
    ensures { result ≡ next_line line }
{
    line.saturating_add(1)
}
