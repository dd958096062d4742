// The messages of a list.
ghost use Rattle.std.specs.Prelude.{◌*◌, ◌≤◌, length};

// In fixed memory: they lie one after another in the list's buffer, each of k letters.
#[derive(Clone, Copy)]
pub(crate) struct Messages<'a> {
    pub(crate) k: usize,
    pub(crate) count: usize,
    pub(crate) bytes: &'a [u8],
    ghost some: { 1 ≤ k },
    ghost room: { count * k ≤ length bytes.now },
}
