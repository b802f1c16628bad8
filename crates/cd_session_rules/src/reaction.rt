//! Reactions, made of their effects.
ghost use Rattle.std.specs.Prelude.{◌≡◌, ◌∷◌, [], map, IfOk};
ghost use Rattle.cd_protocol.specs.Node.{Go, only, behind, Reaction as SeenReaction};
ghost use Rattle.cd_protocol.specs.Seen.{seen_frame, seen_effect, seen_reaction};

use cd_protocol::{Continuation, Effect, Outgoing, Phase, Reaction};
use cd_types::NoMemory;
use std::alloc::Global;

/// A reaction with which all is done.
pub fn only<'a>(effects: Vec<Effect<'a>>) -> Reaction<'a>
    ensures { seen_reaction result ≡ only (map seen_effect effects.entry.items) }
{
    Reaction {
        effects,
        later: Continuation::Done,
    }
}

/// A reaction of one effect, with which all is done.
pub fn only_one<'a>(alloc: Global, effect: Effect<'a>) -> Result<Reaction<'a>, NoMemory>
    ensures { IfOk result (λ reaction. seen_reaction reaction ≡ only (seen_effect effect.entry ∷ [])) }
{
    let effects = vec![in alloc; effect]?;
    Ok(only(effects))
}

/// A reaction behind an effect.
pub fn behind<'a>(effect: Effect<'a>, reaction: Reaction<'a>) -> Result<Reaction<'a>, NoMemory>
    ensures { IfOk result (λ made. seen_reaction made ≡ behind (seen_effect effect.entry) (seen_reaction reaction.entry)) }
{
    let Reaction { mut effects, later } = reaction;
    effects.insert(0, effect)?;
    Ok(Reaction { effects, later })
}

/// A reaction without effects, with what comes behind it.
pub fn later<'a>(alloc: Global, then: Continuation) -> Reaction<'a>
    ensures { seen_reaction result ≡ record { effects = []; later = then } }
{
    Reaction {
        effects: Vec::new(alloc),
        later: then,
    }
}

/// The frame at hand is done: one frame is sent.
pub fn go<'a>(alloc: Global, phase: Phase, frame: Outgoing<'a>) -> Result<Effect<'a>, NoMemory>
    ensures { IfOk result (λ effect. seen_effect effect ≡ Go phase (seen_frame frame.entry ∷ [])) }
{
    let frames = vec![in alloc; frame]?;
    Ok(Effect::Go(phase, frames))
}

/// The frame at hand is done: no frame is sent.
pub fn quietly<'a>(alloc: Global, phase: Phase) -> Effect<'a>
    ensures { seen_effect result ≡ Go phase [] }
{
    Effect::Go(phase, Vec::new(alloc))
}
