//! The sessions of a node.
ghost use Rattle.std.specs.Prelude.{◌≡◌};
ghost use Rattle.cd_protocol.specs.Node as node;
ghost use Rattle.cd_protocol.specs.Rows.{is_newer, is_detached};

use cd_types::Key;

/// The sessions of a node, as the rules ask for them.
pub trait Sessions {
    /// What the rules see of them.
    ghost seen: { Self → node.Sessions };

    /// Whether a newer session holds a key, and is open with it.
    fn is_newer(&self, sid: u64, key: &Key) -> bool
        ensures { result ≡ is_newer (seen self.now) sid key.now ((seen self.now).holder key.now) };

    /// Whether the key under way was taken from a session.
    fn is_detached(&self, sid: u64, key: Option<Key>) -> bool
        ensures { result ≡ is_detached (seen self.now) sid key };
}
