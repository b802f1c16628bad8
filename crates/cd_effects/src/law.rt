//! What may be recorded can be written.
ghost use Rattle.std.specs.Prelude.{◌≡◌, ℕ, List, true};
ghost use Rattle.cd_entries.specs.declared.entry.Entry.{Entry};
ghost use Rattle.cd_entries.specs.Entry.{IsWritable};
ghost use Rattle.cd_rules.specs.Steps.{Reading};
ghost use Rattle.cd_protocol.specs.Rows.{may_record};
ghost use Rattle.cd_effects.specs.Stands.{HasFormedOrigin};

/// An entry that may be recorded is in its form, where the step that a submission comes of is.
pub fn law_of_records()
    ensures writable { (read : Reading) (now : ℕ) (entries : List Entry) (e : Entry) → may_record read now entries e ≡ true → HasFormedOrigin e → IsWritable e }
{}
