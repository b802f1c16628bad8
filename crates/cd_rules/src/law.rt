ghost use Rattle.std.specs.Prelude.{◌≡◌, ℕ, ◌+◌, ◌≤◌, List, ◌∷◌, ◌++◌, true, Option, Some};
ghost use Rattle.cd_types.specs.declared.card.Filed.{Filed};
ghost use Rattle.cd_types.specs.declared.key.Key.{Key};
ghost use Rattle.cd_types.specs.declared.rows.Outcomes.{Outcomes};
ghost use Rattle.cd_types.specs.declared.rows.Receiving.{Receiving};
ghost use Rattle.cd_entries.specs.declared.entry.Entry.{Entry};
ghost use Rattle.cd_entries.specs.declared.entry.Entry.TheVariants as entry;
ghost use Rattle.cd_rules.specs.Openings.{open_on};
ghost use Rattle.cd_rules.specs.Processes.{Submission, submission, submitted};
ghost use Rattle.cd_rules.specs.Status.{Open, status, outcome};
ghost use Rattle.cd_rules.specs.Steps.{Reading, runs_itself};
ghost use Rattle.cd_rules.specs.Legal.{is_legal};
ghost use Rattle.cd_rules.specs.Promises.{Landed, IsMark, HavePriorities, WellPlaced};
ghost use Rattle.cd_rules.specs.Queue.{placing};
ghost use Rattle.cd_types.specs.declared.rows.Placing.{Placing};

/// What a legal journal says of outcomes. A step that has one keeps it, whatever follows; what was received lands
/// whole, with its last mark recorded; and a mark is one interval further than the last one, or 0.
pub fn law_of_outcomes()
    ensures stays { (read : Reading) (more journal : List Entry) (key : Key) (o : Outcomes)
        → is_legal read (more ++ journal) ≡ true → outcome journal key ≡ Some o → outcome (more ++ journal) key ≡ Some o }
    ensures landed { (read : Reading) (journal : List Entry) (key : Key) (o : Outcomes) (moment mark : ℕ) (r : Receiving)
        → is_legal read (entry.Result key o moment ∷ journal) ≡ true → status journal key ≡ Open r mark → Landed r mark o }
    ensures marks { (read : Reading) (journal : List Entry) (key : Key) (offset : ℕ)
        → is_legal read (entry.Mark key offset ∷ journal) ≡ true → IsMark journal key offset }
{}

/// What a legal journal says of numbers. Each submission has the number after those that were given before, up to
/// 99,999; a number that has a submission was given; and its submission stays, whatever follows.
pub fn law_of_numbers()
    ensures next { (read : Reading) (journal : List Entry) (n moment : ℕ) (origin : Option Key) (card : Filed) (text : List ℕ)
        → is_legal read (entry.Submitted n moment origin card text ∷ journal) ≡ true → (n ≡ submitted journal + 1) × (n ≤ 99999) }
    ensures given { (read : Reading) (journal : List Entry) (n : ℕ) (s : Submission)
        → is_legal read journal ≡ true → submission journal n ≡ Some s → (1 ≤ n) × (n ≤ submitted journal) }
    ensures stays { (read : Reading) (more journal : List Entry) (n : ℕ) (s : Submission)
        → is_legal read (more ++ journal) ≡ true → submission journal n ≡ Some s → submission (more ++ journal) n ≡ Some s }
{}

/// What a legal journal says of queues: the priority with which a Process stands is 1 to 15, and one that is kept
/// for its copies stands in Hold.
pub fn law_of_placings()
    ensures { (read : Reading) → HavePriorities read → (journal : List Entry) (n : ℕ) (placed : Placing)
        → is_legal read journal ≡ true → placing journal n ≡ Some placed → WellPlaced (runs_itself journal n) placed }
{}

/// What a legal journal says of the files that are being received. A step whose file is being received has the
/// receiving that is open on that file, so each file has one at most; and what is open on a file is of a step whose
/// file is being received.
pub fn law_of_openings()
    ensures of_step { (read : Reading) (journal : List Entry) (key : Key) (r : Receiving) (mark : ℕ)
        → is_legal read journal ≡ true → status journal key ≡ Open r mark → (r.key ≡ key) × (open_on journal r.name ≡ Some r) }
    ensures of_file { (read : Reading) (journal : List Entry) (name : List ℕ) (r : Receiving)
        → is_legal read journal ≡ true → open_on journal name ≡ Some r
        → (r.name ≡ name) × ((mark : ℕ) × (status journal r.key ≡ Open r mark)) }
{}
