//! What holds of the best driver.
ghost use Rattle.std.specs.Prelude.{◌≡◌, List, ℕ, Contains, Some, false};
ghost use Rattle.inf_reader.specs.declared.parts.Inf.{Inf};
ghost use Rattle.driver_rank.specs.Best.{best, given_of, matches, Match, is_better, choice_of};
ghost use Rattle.driver_rank.specs.declared.choice.Choice.{Choice};

/// What is chosen comes from one of the matches, and no match is better. This project's own.
pub fn best_match()
    ensures { (infs : List Inf) (hw compat : List (List ℕ)) (choice : Choice) → best infs hw compat ≡ Some choice → (m : Match) × Contains (matches (given_of hw compat) infs) m × (choice_of m ≡ choice) × ((other : Match) → Contains (matches (given_of hw compat) infs) other → is_better other m ≡ false) }
{}
