//! What the words of a command name outside. (Its own file, since `paths` has the same letters.)

/// The file and the address that words name.
#[derive(Clone, Copy)]
pub struct Paths<'a> {
    /// The file of the configuration.
    pub conf: &'a str,
    /// The address at which connections are accepted, if they are.
    pub address: Option<&'a str>,
}
