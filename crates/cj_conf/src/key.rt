//! The keys of a configuration.

ghost use Rattle.std.specs.Prelude.{◌≡◌};
ghost use Rattle.cj_conf.specs.Keys.{key_name};

/// A key of the configuration, or of the tables in its lists.
#[derive(Clone, Copy, Debug, PartialEq, Eq)]
pub enum Key {
    Level,
    Policy,
    Cache,
    Seed,
    Connections,
    Backends,
    Tables,
    Users,
    Name,
    Kind,
    Weight,
    Hosts,
    Sha256,
    Logins,
}

impl Key {
    /// The key as it is written.
    pub fn name(self) -> &'static str
        ensures { result.now ≡ key_name self }
    {
        match self {
            Key::Level => "level",
            Key::Policy => "policy",
            Key::Cache => "cache",
            Key::Seed => "seed",
            Key::Connections => "connections",
            Key::Backends => "backends",
            Key::Tables => "tables",
            Key::Users => "users",
            Key::Name => "name",
            Key::Kind => "kind",
            Key::Weight => "weight",
            Key::Hosts => "hosts",
            Key::Sha256 => "sha256",
            Key::Logins => "logins",
        }
    }

    /// Which values the key may have, in plain words for messages.
    pub fn expected(self) -> &'static str {
        match self {
            Key::Level => "\"raidb0\", \"raidb1\" or \"raidb2\"",
            Key::Policy => "\"round-robin\", \"weighted\" or \"least-pending\"",
            Key::Cache => "an integer from 0 to 65536",
            Key::Seed => "an integer from 0 to 9223372036854775807",
            Key::Connections => "an integer from 0 to 9223372036854775807",
            Key::Backends => "a list of rows as { name = \"b0\", kind = \"memory\" }",
            Key::Tables => "a list of rows as { name = \"t\", hosts = [\"b0\"] }",
            Key::Users =>
                "a list of rows as { name = \"ann\", sha256 = \"..\", logins = [\"l0\"] }",
            Key::Name => {
                "1 to 32 of a-z, 0-9 and _, no digit first (backend or table); a text of 1 to 64 bytes (user)"
            }
            Key::Kind => "\"memory\" or \"sqlite\"",
            Key::Weight => "an integer from 1 to 1000",
            Key::Hosts => "a list of names of backends",
            Key::Sha256 => "the SHA-256 of the password, as 64 hexadecimal digits",
            Key::Logins => "a list of texts without byte 0, one for each backend",
        }
    }
}
