#![tactic(auto, unfolding(crate::specs::Filed::card_bytes, crate::specs::Filed::card_in))]

ghost use Rattle.std.specs.Prelude.{◌≡◌, ⊤};
ghost use Rattle.cd_types.specs.Filed.{IsCard, card_bytes, card_in};
ghost use Rattle.cd_types.specs.FiledLaw.{card_law};

use crate::{Field, Hold, Label, Moment, NodeName, Retain};

/// The card of a submission: what the queue has to know of a Process.
/// (Process Language Reference: the parameters of PROCESS.)
#[derive(Clone, Copy, Debug, PartialEq, Eq)]
pub struct Filed {
    pub name: Label,
    pub snode: NodeName,
    pub prty: u8,
    pub class: u8,
    pub hold: Hold,
    pub retain: Retain,
    /// The moment before which it doesn't start.
    pub start: Option<Moment>,
}

/// The label, the name, one byte each for priority, class, hold and retain, and the start where there is one.
impl Field for Filed {
    ghost form = { IsCard };

    ghost writable = { λ _. ⊤ };

    ghost longest = { 39 };

    ghost spelled = { card_bytes };

    ghost found_in = { card_in };

    ghost law = { card_law };

    fn front(bytes: &[u8]) -> Option<(Filed, &[u8])> {
        let Some((name, rest)) = Label::front(bytes) else {
            return None;
        };
        let Some((snode, rest)) = NodeName::front(rest) else {
            return None;
        };
        let (prty, rest) = u8::front(rest)?;
        let (class, rest) = u8::front(rest)?;
        let (hold, rest) = Hold::front(rest)?;
        let (retain, rest) = Retain::front(rest)?;
        let Some((start, rest)) = Option::<Moment>::front(rest) else {
            return None;
        };
        let card = Filed {
            name,
            snode,
            prty,
            class,
            hold,
            retain,
            start,
        };
        Some((card, rest))
    }

    fn size(&self) -> usize {
        self.name.size()
            + self.snode.size()
            + self.prty.size()
            + self.class.size()
            + self.hold.size()
            + self.retain.size()
            + self.start.size()
    }

    fn put(&self, into: &mut Vec<u8>) {
        self.name.put(into);
        self.snode.put(into);
        self.prty.put(into);
        self.class.put(into);
        self.hold.put(into);
        self.retain.put(into);
        self.start.put(into);
    }
}
