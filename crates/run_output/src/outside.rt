/// What a command works on.
#[derive(Debug, Drop)]
pub struct Outside<F, K, L, D> {
    /// Files that are read whole.
    pub files: F,
    /// The sink of the lines.
    pub out: K,
    /// The link to a console.
    pub link: L,
    /// The disk of an archive.
    pub disk: D,
    /// The disk of the archive that is copied to.
    pub second: D,
}
