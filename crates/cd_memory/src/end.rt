ghost use Rattle.std.specs.Prelude.{◌≡◌, slice_index_or};
ghost use Rattle.cd_memory.specs.declared.end.End.TheVariants as ends;

/// How a command ended that could be started.
#[derive(Clone, Copy, Debug)]
pub enum End {
    /// By itself, with this exit status.
    Exit(u8),
    /// By a signal.
    Killed,
}

/// The end of the next command, where so many are used up.
pub fn next_end(set: &[End], used: usize) -> End
    ensures { result ≡ slice_index_or set.now used (ends.Exit 0) }
{
    if used < set.len() {
        set[used]
    } else {
        End::Exit(0)
    }
}
