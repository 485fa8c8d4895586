//! What holds of every machine, whatever happened before.

ghost use Rattle.std.specs.Prelude.{◌≡◌};
ghost use Rattle.pnp_model.specs.Records.{State, Settings};
ghost use Rattle.pnp_model.specs.Machine.{Steps};
ghost use Rattle.pnp_model.specs.Clips.{ClipCountsLaw, ClipLaw, ClipTwiceLaw};
ghost use Rattle.pnp_labels.specs.declared.label.Label.{Label};

/// A state has at most one next step: one label and one new state.
#[tactic(auto, using(crate::proofs::Determined::one_label, crate::proofs::Determined::one_state))]
pub fn one_step()
    ensures label { (settings : Settings) (old : State) (a b : Label) (x y : State) → Steps settings old a x → Steps settings old b y → a ≡ b }
    ensures state { (settings : Settings) (old : State) (a b : Label) (x y : State) → Steps settings old a x → Steps settings old b y → x ≡ y }
{}

/// What is held whole of requirements that were clipped by the rooms below a bridge is what is held whole of the
/// requirements as they were and lies, each resource, in the room of its kind. What was clipped by the same rooms stays as
/// it is, and no list, group or want is gained or lost.
pub fn clipping_leaves_what_fits()
    ensures whole { ClipLaw }
    ensures twice { ClipTwiceLaw }
    ensures counts { ClipCountsLaw }
{}
