#![tactic(auto, unfolding(crate::specs::Text::text_bytes, crate::specs::Text::text_in, crate::specs::Number::number_bytes))]

ghost use Rattle.std.specs.Prelude.{◌≡◌, ⊤};
ghost use Rattle.std.specs.List.{list_all};
ghost use Rattle.cd_types.specs.NodeName.{is_node_byte, is_node_name, IsNodeName, node_name_of};
ghost use Rattle.cd_types.specs.NodeNameLaw.{node_name_law};
ghost use Rattle.cd_types.specs.Text.{text_bytes, text_in};

use crate::short::Short;
use crate::{Field, Small};
use std::marker::Model;

/// A node's name: 1 to 16 letters, digits and `. _ - $ # @`. Names are compared byte by byte.
/// Contracts see it as its bytes. (Connect:Direct for UNIX: node names in the network map.)
#[derive(Clone, Copy, Debug, PartialEq, Eq, PartialOrd, Ord, Hash)]
pub struct NodeName {
    text: Short<16>,
}

impl Model for NodeName {
    ghost use Rattle.std.specs.Prelude.{List, ℕ};
    ghost use Rattle.cd_types.specs.NodeName.{IsNodeName};

    ghost Value = { List ℕ };

    ghost view = { λ name. name.text };

    ghost invariant = { λ name. IsNodeName name.text };

    ghost inverse = { λ bytes. record { text = bytes } };
}

fn is_node_byte(byte: u8) -> bool
    ensures { result ≡ is_node_byte byte }
{
    byte.is_ascii_alphanumeric() || matches!(byte, b'.' | b'_' | b'-' | b'$' | b'#' | b'@')
}

fn are_node_bytes(bytes: &[u8]) -> bool
    ensures { result ≡ list_all is_node_byte bytes.now }
{
    bytes.iter().all(|byte| is_node_byte(*byte))
}

fn is_node_name(bytes: &[u8]) -> bool
    ensures { result ≡ is_node_name bytes.now }
{
    if bytes.is_empty() || bytes.len() > 16 {
        return false;
    }
    are_node_bytes(bytes)
}

impl NodeName {
    /// The name of these bytes; `None` exactly where they aren't of a node name's form.
    #[tactic(auto, using(crate::specs::NodeNameLaw::node_name_is_short))]
    pub fn new(bytes: &[u8]) -> Option<Self>
        ensures { result ≡ node_name_of bytes.now }
    {
        if is_node_name(bytes) {
            Some(NodeName {
                text: Short::new(bytes),
            })
        } else {
            None
        }
    }

    /// Its bytes.
    pub fn as_bytes(&self) -> &[u8]
        ensures value { result.now ≡ self.now }
        ensures form { IsNodeName self.now }
    {
        self.text.as_bytes()
    }
}

/// A length of one byte, and the name.
impl Field for NodeName {
    ghost form = { IsNodeName };

    ghost writable = { λ _. ⊤ };

    ghost longest = { 17 };

    ghost spelled = { text_bytes 1 };

    ghost found_in = { text_in 1 is_node_name };

    ghost law = { node_name_law };

    fn front(bytes: &[u8]) -> Option<(NodeName, &[u8])> {
        let (len, rest) = u8::front(bytes)?;
        if rest.len() < len as usize {
            return None;
        }
        let (text, rest) = rest.split_at(len as usize);
        Some((NodeName::new(text)?, rest))
    }

    #[tactic(auto, using(crate::specs::NodeNameLaw::node_name_is_short), unfolding(crate::specs::Text::text_bytes, crate::specs::Number::number_bytes))]
    fn size(&self) -> usize {
        1 + self.as_bytes().len()
    }

    fn put(&self, into: &mut Vec<u8>) {
        let text = self.as_bytes();
        (text.len() as u8).put(into);
        into.extend_from_slice(text).unwrap();
    }
}

impl Small for NodeName {
    ghost use Rattle.std.proofs.Common.{arith};

    ghost small = { Prim.omega arith };
}
