//! What dividing a deck and reading its crew part are in the format's own terms. The bodies are empty: each law is
//! its clause.
ghost use Rattle.std.specs.Prelude.{◌≡◌, ◌⊎◌, ◌↔◌, ℕ, ◌+◌, true, false, List, Result, take, codes};
ghost use Rattle.std.specs.List.{list_any, count_by};
ghost use Rattle.crew_script.specs.declared.dockets.Crew.{Crew};
ghost use Rattle.crew_script.specs.declared.fault.CrewFault.{CrewFault};
ghost use Rattle.crew_script.specs.Crews.{said, crews_of};
ghost use Rattle.crew_script.specs.CrewsOf.{Answers};
ghost use Rattle.crew_script.specs.declared.deck.CrewsAt.{CrewsAt};
ghost use Rattle.crew_script.specs.declared.deck.Split.{Split};
ghost use Rattle.crew_script.specs.Deck.{is_crews, is_feed, lines_of, split_of};
ghost use Rattle.crew_script.specs.Divides.{without_return, IsDividedAt, Divides};
ghost use Rattle.crew_script.specs.Says.{Says};
ghost use Rattle.crew_script.specs.declared.line.Line.{Line};
ghost use Rattle.crew_script.specs.declared.line.Line.TheVariants.{Bad};

/// A line divides a deck exactly where it is `@crews` once one carriage return at its end is dropped.
pub fn dividing_lines()
    ensures { (line : List ℕ) → (is_crews line ≡ true) ↔ (without_return line ≡ codes "@crews") }
{}

/// What is read as the parts of a deck are those that its first dividing line makes, and it has no others.
pub fn decks_are_divided_once()
    ensures read { (bytes : List ℕ) → Divides bytes (split_of bytes) }
    ensures once { (bytes : List ℕ) (split : Split) → Divides bytes split → split_of bytes ≡ split }
{}

/// No line of the tree part divides the deck. The number of the crew part's first line is 2 and as many more as line
/// feeds stand in the tree part.
pub fn before_the_dividing_line()
    ensures none { (bytes : List ℕ) (tree : ℕ) (crews : CrewsAt) → IsDividedAt bytes tree crews
        → list_any is_crews (lines_of (take tree bytes)) ≡ false }
    ensures number { (bytes : List ℕ) (tree : ℕ) (crews : CrewsAt) → IsDividedAt bytes tree crews
        → crews.line ≡ count_by is_feed (take tree bytes) + 2 }
{}

/// A line says one thing.
pub fn lines_say_one_thing()
    ensures { (line : List ℕ) (other : Line) → Says line other → said line ≡ other }
{}

/// What is read of a line it says, unless it is of no form.
pub fn lines_say_what_is_read()
    ensures { (line : List ℕ) → (said line ≡ Bad) ⊎ Says line (said line) }
{}

/// What is read of a crew part is what its lines stand for: the crews that they say, each with its requests, or else
/// their first fault.
pub fn crews_or_first_fault()
    ensures { (number : ℕ) (bytes : List ℕ) → Answers number (lines_of bytes) (crews_of number bytes) }
{}

/// A crew part has one such answer.
pub fn crew_part_has_one_answer()
    ensures { (number : ℕ) (bytes : List ℕ) (read : Result (List Crew) CrewFault)
        → Answers number (lines_of bytes) read → crews_of number bytes ≡ read }
{}
