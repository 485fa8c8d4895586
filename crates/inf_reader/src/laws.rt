//! What holds of every INF.
ghost use Rattle.std.specs.Prelude.{◌≡◌, ◌≤◌, ◌⊎◌, ℕ, List, [], Contains, Err};
ghost use Rattle.inf_reader.specs.declared.parts.InfError.{InfError};
ghost use Rattle.inf_reader.specs.Meaning.{inf, faults_in, place_of};

/// A refusal stands on the first line on which something is wrong; on one line it is the first of: the line
/// is too long, the header has no end, the date is bad, the score is bad. It is one of the faults that the
/// text has, or there is none and the signature is missing. This project's own.
pub fn refusal()
    ensures first { (bytes : List ℕ) (refused fault : InfError) → inf bytes ≡ Err refused → Contains (faults_in bytes) fault → place_of refused ≤ place_of fault }
    ensures real { (bytes : List ℕ) (refused : InfError) → inf bytes ≡ Err refused → Contains (faults_in bytes) refused ⊎ ((refused ≡ InfError.NoSignature) × (faults_in bytes ≡ [])) }
{}
