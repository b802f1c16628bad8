//! What a node is set up with.
ghost use Rattle.std.specs.Prelude.{◌≡◌, option_map};
ghost use Rattle.cd_session_rules.specs.NodeView.{seen_waits, partner_in};

use cd_book::same_bytes;
use cd_types::NodeName;

/// How long to wait after a failed connection, in seconds, and how often: first the short time, then the long one.
#[derive(Clone, Copy, Debug, PartialEq, Eq)]
pub struct Waits {
    pub short: u32,
    pub short_attempts: u32,
    pub long: u32,
    pub long_attempts: u32,
}

/// A partner that a node can call.
#[derive(Clone, Copy, Debug, PartialEq, Eq)]
pub struct Partner {
    pub name: NodeName,
    pub waits: Waits,
}

/// The most bytes of a file that a node takes in one frame, and its partners.
#[derive(Debug, Drop)]
pub struct Config {
    pub block: u32,
    pub partners: Vec<Partner>,
}

/// The waits for the first of these partners that has this name.
fn waits_among(partners: &[Partner], name: &NodeName) -> Option<Waits>
    ensures { option_map seen_waits result ≡ partner_in partners.now name.now }
{
    match partners {
        [] => None,
        [first, more @ ..] => {
            if same_bytes(name.as_bytes(), first.name.as_bytes()) {
                Some(first.waits)
            } else {
                waits_among(more, name)
            }
        }
    }
}

/// The waits for a partner, where the node can call it.
pub fn waits_of(config: &Config, name: &NodeName) -> Option<Waits>
    ensures { option_map seen_waits result ≡ partner_in config.now.partners.items name.now }
{
    waits_among(config.partners.as_slice(), name)
}
