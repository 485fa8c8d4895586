//! Laws of what `answer` gives, beside any search: each is the clause of a function that does nothing.

ghost use Rattle.std.specs.Prelude.{◌≡◌, ◌↔◌, ◌≤◌, ℕ, List, Contains};
ghost use Rattle.resource_reqs.specs.Resources.{Res, Reqs, IsAssignment, Fits};
ghost use Rattle.resource_reqs.specs.Spelling.{Coord, Complete, Tried, Numbers, Spells, Answer, assignment, no_fit, IsAnswer};

/// `NoFit` is the answer exactly where no assignment exists and the tried prefixes number at most the budget.
pub fn no_fit_is_exact()
    ensures { (fixed : List Res) (movers : List Reqs) (budget : ℕ)
        → IsAnswer fixed movers budget no_fit ↔ ((¬ Fits fixed movers) × ((n : ℕ) × Numbers (Tried fixed movers) n × (n ≤ budget))) }
{}

/// A plan that is answered is an assignment: whole for each mover, with no clash among all and what is fixed.
pub fn plan_is_assignment()
    ensures { (fixed : List Res) (movers : List Reqs) (budget : ℕ) (plan : List (List Res))
        → IsAnswer fixed movers budget (assignment plan) → IsAssignment fixed movers plan }
{}

/// A problem and a budget have one answer at most.
pub fn one_answer()
    ensures { (fixed : List Res) (movers : List Reqs) (budget : ℕ) (first : Answer) (second : Answer)
        → IsAnswer fixed movers budget first → IsAnswer fixed movers budget second → first ≡ second }
{}

/// Every assignment has a clean complete spelling.
pub fn assignment_is_spelled()
    ensures { (fixed : List Res) (movers : List Reqs) (plan : List (List Res))
        → IsAssignment fixed movers plan → (a : List Coord) × Spells movers a plan × Complete fixed movers a }
{}

/// Every clean complete spelling gives one plan, and that is an assignment.
pub fn spelling_is_assignment()
    ensures some { (fixed : List Res) (movers : List Reqs) (a : List Coord)
        → Complete fixed movers a → (plan : List (List Res)) × Spells movers a plan × IsAssignment fixed movers plan }
    ensures one { (movers : List Reqs) (a : List Coord) (first : List (List Res)) (second : List (List Res))
        → Spells movers a first → Spells movers a second → first ≡ second }
{}

/// The order in which fixed resources are listed makes no difference, nor does it how often each stands there.
pub fn order_of_fixed()
    ensures { (fixed : List Res) (other : List Res) (movers : List Reqs) (budget : ℕ) (x : Answer)
        → ((r : Res) → Contains fixed r ↔ Contains other r) → IsAnswer fixed movers budget x → IsAnswer other movers budget x }
{}
