//! What the machine has to do with the grammar, and what the grammar says of texts.
ghost use Rattle.std.specs.Prelude.{◌≡◌, ℕ, ◌*◌, ◌/◌, ◌%◌, ◌<◌, ◌≤◌, ◌⊎◌, List, ◌∷◌, ◌++◌, codes, length, Some, [], Ok, Err, true, false};
ghost use Rattle.std.specs.Fmt.{decimal};
ghost use Rattle.cd_types.specs.declared.choices.Disp.{Disp};
ghost use Rattle.cd_types.specs.declared.choices.Hold.{Hold};
ghost use Rattle.cd_types.specs.declared.choices.Relation.{Relation};
ghost use Rattle.cd_types.specs.declared.choices.Retain.{Retain};
ghost use Rattle.cd_types.specs.declared.choices.Side.{Side};
ghost use Rattle.cd_types.specs.declared.start.Day.TheVariants as day;
ghost use Rattle.cd_ast.specs.Canonical.{two_digits, four_digits, weekday, hold_word, retain_word, disp_word, relation_sign, side_word};
ghost use Rattle.cd_grammar.specs.declared.step.Clock.{Clock};
ghost use Rattle.cd_grammar.specs.declared.token.Token.{Token};
ghost use Rattle.cd_grammar.specs.declared.token.Token.TheVariants.{Mark};
ghost use Rattle.cd_grammar.specs.Given.{side_of};
ghost use Rattle.cd_grammar.specs.Grammar.{relation_of};
ghost use Rattle.cd_grammar.specs.Starts.{clock_in, day_in, plain_time};
ghost use Rattle.cd_grammar.specs.Values.{number_in, interval_in, hold_in, retain_in, disp_in};
ghost use Rattle.cd_grammar.specs.Words.{key_of, sign_of};
ghost use Rattle.cd_grammar.specs.Answers.{Strictness, strict, Fits};
ghost use Rattle.cd_grammar.specs.Reading.{Reading};
ghost use Rattle.cd_ast.specs.Walk.{action_of, is_action, go};
ghost use Rattle.cd_ast.specs.declared.process.Process.{Process};
ghost use Rattle.cd_ast.specs.declared.process.Stmt.{Stmt};
ghost use Rattle.cd_ast.specs.declared.process.What.TheVariants as what;
ghost use Rattle.cd_grammar.specs.Later.{Found, late_faults, IsFirstOf};
ghost use Rattle.cd_grammar.specs.Faults.{IsRead, CanGoOn, Leaves, InGrammar, IsFault, Says, IsFaultOf};
ghost use Rattle.cd_grammar.specs.Tokens.{tokens_of};
ghost use Rattle.cd_automaton.specs.State.{State};
ghost use Rattle.cd_automaton.specs.Machine.{whole};
ghost use Rattle.cd_automaton.specs.Placed.{AreKeyed, Placed};
ghost use Rattle.cd_automaton.specs.Jumps.{LeadWell};
ghost use Rattle.cd_automaton.specs.Ranges.{is_card, are_stmts};
ghost use Rattle.cd_automaton.specs.Reached.{Reached};
ghost use Rattle.cd_automaton.specs.Examples.{examples, EachLeaves};

/// What the machine reads of tokens is what the grammar says of them, however strictly both are taken; where each range is asked
/// for, it reads all that the grammar allows. What it has gone over can go on. The fault that it answers of the tokens of a text
/// is where they leave the grammar, and it answers that where they do.
pub fn law_of_machine()
    ensures sound { (how : Strictness) (len : ℕ) (tokens : List Token) (all : Reading) → whole how len tokens ≡ Ok all → IsRead how tokens all }
    ensures complete { (how : Strictness) (len : ℕ) (tokens : List Token) (all : Reading) → ((at : ℕ) → how.ranges at ≡ true) → AreKeyed tokens → IsRead how tokens all → whole how len tokens ≡ Ok all }
    ensures viable { (how : Strictness) (before : List Token) (r : Reading) (s : State) → Reached how before r s → CanGoOn how before }
    ensures exact { (len : ℕ) (tokens : List Token) (f : Found) → Placed 0 tokens → whole strict len tokens ≡ Err f → Leaves len tokens f }
    ensures first { (len : ℕ) (tokens : List Token) (f : Found) → Placed 0 tokens → Leaves len tokens f → whole strict len tokens ≡ Err f }
{}

/// The tokens of a text have exactly one of a reading and a place where they leave the grammar.
pub fn law_of_reading()
    ensures unique { (tokens : List Token) (one other : Reading) → AreKeyed tokens → IsRead strict tokens one → IsRead strict tokens other → one ≡ other }
    ensures some { (len : ℕ) (tokens : List Token) → Placed 0 tokens → ((all : Reading) × IsRead strict tokens all) ⊎ ((f : Found) × Leaves len tokens f) }
    ensures not_both { (len : ℕ) (tokens : List Token) (all : Reading) (f : Found) → Placed 0 tokens → IsRead strict tokens all → Leaves len tokens f → ⊥ }
    ensures one_fault { (len : ℕ) (tokens : List Token) (one other : Found) → Placed 0 tokens → Leaves len tokens one → Leaves len tokens other → one ≡ other }
{}

/// The tokens of a text stand one behind the other, and their words have their own keys.
pub fn law_of_tokens()
    ensures { (text : List ℕ) → Placed 0 (tokens_of text) }
{}

/// Of the faults in what a reading says there is a first, where there are any, and no other.
pub fn law_of_later_faults()
    ensures some { (r : Reading) → (late_faults r ≡ []) ⊎ ((f : Found) × IsFirstOf (late_faults r) f) }
    ensures none { (r : Reading) (f : Found) → late_faults r ≡ [] → IsFirstOf (late_faults r) f → ⊥ }
    ensures one_fault { (r : Reading) (one other : Found) → IsFirstOf (late_faults r) one → IsFirstOf (late_faults r) other → one ≡ other }
{}

/// A text, read as it stands, has exactly one of a Process and a fault.
pub fn law_of_texts()
    ensures some { (text : List ℕ) → ((process : Process) × InGrammar text process) ⊎ ((f : Found) × IsFault text f) }
    ensures not_both { (text : List ℕ) (process : Process) (f : Found) → InGrammar text process → IsFault text f → ⊥ }
    ensures one_process { (text : List ℕ) (one other : Process) → InGrammar text one → InGrammar text other → one ≡ other }
    ensures one_fault { (text : List ℕ) (one other : Found) → IsFault text one → IsFault text other → one ≡ other }
{}

/// A text that is read after substitution has exactly one of a Process and a fault.
pub fn law_of_resolved_texts()
    ensures some { (text : List ℕ) (overrides : List (List ℕ × List ℕ)) → ((process : Process) × Says text overrides process) ⊎ ((f : Found) × IsFaultOf text overrides f) }
    ensures not_both { (text : List ℕ) (overrides : List (List ℕ × List ℕ)) (process : Process) (f : Found) → Says text overrides process → IsFaultOf text overrides f → ⊥ }
    ensures one_process { (text : List ℕ) (overrides : List (List ℕ × List ℕ)) (one other : Process) → Says text overrides one → Says text overrides other → one ≡ other }
    ensures one_fault { (text : List ℕ) (overrides : List (List ℕ × List ℕ)) (one other : Found) → IsFaultOf text overrides one → IsFaultOf text overrides other → one ≡ other }
{}

/// What a text says is in range: its card, each of its statements, and how many there are.
pub fn law_of_ranges()
    ensures card { (text : List ℕ) (process : Process) → InGrammar text process → is_card process.card ≡ true }
    ensures name { (text : List ℕ) (process : Process) → InGrammar text process → process.card.name ≡ process.name }
    ensures statements { (text : List ℕ) (process : Process) → InGrammar text process → are_stmts process.stmts ≡ true }
    ensures count { (text : List ℕ) (process : Process) → InGrammar text process → length process.stmts ≤ 1024 }
{}

/// A condition of a Process names an action before it. A jump names a label that no statement up to it has, but one behind it.
/// So the condition's action stands before its IF, and whatever isn't an action goes further down.
pub fn law_of_jumps()
    ensures well { (text : List ℕ) (process : Process) → InGrammar text process → LeadWell [] process.stmts }
    ensures back { (text : List ℕ) (process : Process) → InGrammar text process
        → (front : List Stmt) (s : Stmt) (more : List Stmt) (label : List ℕ) (rel : Relation) (n : ℕ) → process.stmts ≡ front ++ s ∷ more → s.what ≡ what.If label rel n
        → (place : ℕ) × (action_of process.stmts label ≡ Some place) × (place < length front) }
    ensures down { (text : List ℕ) (process : Process) → InGrammar text process
        → (codes : List (ℕ × ℕ)) (front : List Stmt) (s : Stmt) (more : List Stmt) → process.stmts ≡ front ++ s ∷ more → is_action s.what ≡ false
        → (length front < go process.stmts codes (length front) s.what) × (go process.stmts codes (length front) s.what ≤ length process.stmts) }
{}

/// What is printed of a value is read as that value.
pub fn law_of_printed_values()
    ensures numbers { (low high n : ℕ) → low ≤ n → n ≤ high → high < 10000000000 → number_in low high (decimal n) ≡ Fits n }
    ensures intervals { (n : ℕ) → 1 ≤ n → n * 1024 ≤ 1099511627776 → interval_in (decimal n ++ codes "K") ≡ Fits (n * 1024) }
    ensures times { (seconds : ℕ) → seconds < 86400 → (clock : Clock) × (clock_in (two_digits (seconds / 3600) ++ codes ":" ++ two_digits (seconds / 60 % 60) ++ codes ":" ++ two_digits (seconds % 60)) ≡ Some clock) × (plain_time clock ≡ Fits seconds) }
    ensures weekdays { (n : ℕ) → n < 7 → day_in (weekday n) ≡ Some (day.Weekday n) }
    ensures dates { (y m d : ℕ) → y < 10000 → m < 100 → d < 100 → day_in (two_digits m ++ codes "/" ++ two_digits d ++ codes "/" ++ four_digits y) ≡ Some (day.Date y m d) }
    ensures holds { (h : Hold) → hold_in (hold_word h) ≡ Some h }
    ensures retains { (r : Retain) → retain_in (retain_word r) ≡ Some r }
    ensures disps { (d : Disp) → disp_in (disp_word d) ≡ Some d }
    ensures sides { (s : Side) → side_of (key_of (side_word s)) ≡ Some s }
    ensures relations { (at : ℕ) (r : Relation) → relation_of (Mark at (sign_of (relation_sign r))) ≡ Some r }
{}

/// Where some texts leave the grammar.
pub fn law_of_examples()
    ensures { EachLeaves examples }
{}
