ghost use Rattle.std.specs.Prelude.{◌≡◌, position};
ghost use Rattle.pnp_model.specs.Books.{reply, later, fits, path_fits, has_uses, used};
ghost use Rattle.pnp_model.specs.Tests.{minor_number, same_what};

use device_ids::InstancePath;
use pnp_labels::{Answer, Ask, AskWhat, Minor, Rule};

/// The code of a request under IRP_MJ_PNP (the driver kit, "Plug and Play Minor IRPs").
fn minor_code(minor: Minor) -> u8
    ensures { result ≡ minor_number minor }
{
    match minor {
        Minor::Start => 0x00,
        Minor::QueryRemove => 0x01,
        Minor::Remove => 0x02,
        Minor::CancelRemove => 0x03,
        Minor::Stop => 0x04,
        Minor::QueryStop => 0x05,
        Minor::CancelStop => 0x06,
        Minor::SurpriseRemoval => 0x17,
    }
}

/// Whether both ask for the same.
fn same_what(own: AskWhat, what: AskWhat) -> bool
    ensures { result ≡ same_what own what }
{
    match (own, what) {
        (AskWhat::Add, AskWhat::Add) => true,
        (AskWhat::Irp(own), AskWhat::Irp(minor)) => minor_code(own) == minor_code(minor),
        (AskWhat::Add, AskWhat::Irp(_)) => false,
        (AskWhat::Irp(_), AskWhat::Add) => false,
    }
}

/// Whether a rule for this path, or for every path, is for a path.
fn path_fits(own: &Option<InstancePath>, path: &InstancePath) -> bool
    ensures { result ≡ path_fits own.now path.now }
{
    match own {
        None => true,
        Some(own) => own.same(path),
    }
}

/// Whether a rule may still be used.
fn has_uses(uses: Option<u32>) -> bool
    ensures { result ≡ has_uses uses }
{
    match uses {
        None => true,
        Some(count) => count > 0,
    }
}

/// Whether the rule answers the question.
fn fits(rule: &Rule, ask: &Ask) -> bool
    ensures { result ≡ fits ask.now.what ask.now.path.now rule.now }
{
    same_what(rule.what, ask.what) && path_fits(&rule.path, ask.path) && has_uses(rule.uses)
}

/// Takes one use from a rule whose uses are counted.
fn use_once(rule: &mut Rule)
    ensures { rule.new ≡ used rule.old }
{
    if let Some(count) = rule.uses {
        rule.uses = Some(count.saturating_sub(1));
    }
}

/// The place of the first rule that answers the question.
fn first_fit(book: &[Rule], ask: &Ask) -> Option<usize>
    ensures { result ≡ position (fits ask.now.what ask.now.path.now) book.now }
{
    book.iter().position(|rule| fits(rule, ask))
}

/// Answers by the first rule that fits, and uses it once. Cost: the rules.
#[tactic(auto, using(pnp_model::proofs::Keyed::changed_first_at, pnp_model::proofs::Keyed::changed_first_none, pnp_model::proofs::Keyed::find_from_position, pnp_model::proofs::Keyed::find_from_none))]
pub(crate) fn answer_by(book: &mut [Rule], ask: &Ask) -> Answer
    ensures reply { result ≡ reply ask.now.what ask.now.path.now book.old }
    ensures later { book.new ≡ later ask.now.what ask.now.path.now book.old }
{
    match first_fit(book, ask) {
        Some(at) => {
            let rule = &mut book[at];
            let answer = rule.answer;
            use_once(rule);
            answer
        }
        None => Answer::Ok,
    }
}
