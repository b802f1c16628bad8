ghost use Rattle.std.specs.Prelude.{◌≡◌, List};
ghost use Rattle.cd_types.specs.declared.key.Key.{Key};
ghost use Rattle.cd_entries.specs.declared.entry.Entry.{Entry};
ghost use Rattle.cd_rules.specs.Status.{status, outcome, mark, last_receiving, starts, done_with, Says};

/// The status of a step says what the single questions to it say: its outcome; the last receiving and its mark
/// while a file is being received; and how often its command was started.

pub fn law_of_status()
    ensures ended { (journal : List Entry) (key : Key) → outcome journal key ≡ done_with (status journal key) }
    ensures going { (journal : List Entry) (key : Key)
        → Says (status journal key) (last_receiving journal key) (mark journal key) (starts journal key) }
{}
