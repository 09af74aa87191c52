// Which lines may come next.
#[derive(Clone, Copy, PartialEq, Eq)]
pub enum Stage {
    // `min` or `vary` in a preference file, `atoms` in a plain program.
    Declaring,
    // `fix`
    Fixing,
    // `rule`
    Ruling,
}
