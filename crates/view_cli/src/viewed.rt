//! The whole page for a script: the rows of all labels, and the end of the output.
ghost use Rattle.std.specs.Prelude.{◌≡◌, ◌≤◌, ◌++◌, ◌∷◌, [], IfOk, OnOk, length};
ghost use Rattle.notify_front.specs.Desks.{IsAtStart};
ghost use Rattle.notify_front.specs.Fronts.{opening_front};
ghost use Rattle.pnp_cli.specs.Pieces.{answer_by};
ghost use Rattle.pnp_cli.specs.Contents.{events_of};
ghost use Rattle.pnp_cli.specs.Runs.{machine};
ghost use Rattle.pnp_machine.specs.Managers.{settings};
ghost use Rattle.pnp_model.specs.Runs.{opening};
ghost use Rattle.script_play.specs.Playing.{Played};
ghost use Rattle.view_page.specs.Pages.{IsPage};
ghost use Rattle.view_page.specs.declared.words.Part.{Part};
ghost use Rattle.view_page.specs.declared.words.Tag.{Tag as Tags};
ghost use Rattle.view_cli.specs.Viewed.{EndsBy, Finished, IsViewing, ViewsPlay, bad_marks, second_marks, state_marks};

use crate::drawing::draw_all;
use crate::sketch::Sketch;
use device_ids::WantOfMemory;
use driver_rack::Drivers;
use inf_reader::Inf;
use notify_front::Front;
use pnp_cli::Status;
use pnp_labels::push_decimal;
use pnp_machine::Manager;
use script_play::Play;
use std::alloc::Global;
use view_drawings::STYLE;
use view_page::{Attribute, Page, Tag};
use view_states::{POLICY, States};
use view_trace::{Stepping, begin};

/// A page that is to be written, and the answer.
#[derive(Drop)]
pub struct Viewed {
    pub text: Vec<u8>,
    pub status: Status,
}

/// A page that is finished, with this answer. Condition: no element is open.
pub fn finished(page: Page, status: Status) -> Result<Viewed, WantOfMemory>
    requires { page.elements ≡ [] }
    ensures page { IfOk result (λ v. IsPage page.marks v.text.items) }
    ensures status { IfOk result (λ v. v.status ≡ status) }
{
    let text = page.finish()?;
    Ok(Viewed { text, status })
}

/// The answer by the number of the bad line, if there is one.
fn answer(bad: Option<u64>) -> Status
    ensures { result ≡ answer_by bad }
{
    match bad {
        None => Status::Done,
        Some(_) => Status::BadScript,
    }
}

/// Tells of a bad line, if there is one.
fn draw_bad(alloc: Global, bad: Option<u64>, page: &mut Page) -> Result<(), WantOfMemory>
    ensures elements { OnOk result (page.new.elements ≡ page.old.elements) }
    ensures marks { OnOk result (page.new.marks ≡ page.old.marks ++ bad_marks bad) }
{
    match bad {
        Some(line) => {
            let mut words = Vec::from_slice(alloc, b"script error line ")?;
            push_decimal(&mut words, line)?;
            page.marked(Tag::P, &[(Attribute::Class, b"bad")], &words)
        }
        None => Ok(()),
    }
}

/// Where in the end of the output that stands which no drawing shows: what is outstanding, and open handles; its length, where there is
/// nothing of these.
fn place_of_rest(ending: &[u8]) -> usize
    ensures { result ≤ length ending.now }
{
    for at in 0..ending.len() {
        if ending[at..].starts_with(b"\noutstanding\n") && ending.len() - at > 13 {
            return at + 1;
        }
    }
    ending.len()
}

/// The part of the end of the output that is drawn above it too, folded.
fn draw_drawn(ending: &[u8], page: &mut Page) -> Result<(), WantOfMemory>
    ensures elements { OnOk result (page.new.elements ≡ page.old.elements) }
    ensures marks { OnOk result (page.new.marks ≡ page.old.marks ++ (Part.Words Tags.Pre, ending.now) ∷ []) }
{
    page.open(Tag::Details, &[(Attribute::Class, b"ending")])?;
    page.element(
        Tag::Summary,
        &[],
        b"The end of the output, as it is printed",
    )?;
    page.marked(Tag::Pre, &[(Attribute::Tabindex, b"0")], ending)?;
    page.close()
}

/// The part of the end of the output that stands nowhere else, where there is one.
fn draw_second(rest: &[u8], page: &mut Page) -> Result<(), WantOfMemory>
    ensures elements { OnOk result (page.new.elements ≡ page.old.elements) }
    ensures marks { OnOk result (page.new.marks ≡ page.old.marks ++ second_marks rest.now) }
{
    match rest {
        [] => Ok(()),
        [_, ..] => {
            page.element(Tag::H2, &[], b"Outstanding at the end")?;
            page.marked(Tag::Pre, &[(Attribute::Tabindex, b"0")], rest)
        }
    }
}

/// The end of the output.
fn draw_ending(ending: &[u8], page: &mut Page) -> Result<(), WantOfMemory>
    ensures elements { OnOk result (page.new.elements ≡ page.old.elements) }
    ensures marks { OnOk result (EndsBy ending.now page.old.marks page.new.marks) }
{
    let (drawn, rest) = ending.split_at(place_of_rest(ending));
    draw_drawn(drawn, page)?;
    draw_second(rest, page)?;
    Ok(())
}

/// The states behind the rows, where they are wanted.
fn draw_states(steps: bool, states: &States, page: &mut Page) -> Result<(), WantOfMemory>
    ensures elements { OnOk result (page.new.elements ≡ page.old.elements) }
    ensures marks { OnOk result (page.new.marks ≡ page.old.marks ++ state_marks steps states.now) }
{
    if steps { states.draw(page) } else { Ok(()) }
}

/// What the head of a page has that is stepped through.
fn stepping(steps: bool) -> Option<Stepping<'static>> {
    if steps {
        Some(Stepping {
            policy: POLICY,
            style: view_states::style_text(),
        })
    } else {
        None
    }
}

/// All of a play is drawn, and then the end of the output.
fn draw_play<R: Drivers>(
    alloc: Global,
    title: &[u8],
    steps: bool,
    play: &mut Play<R>,
    page: &mut Page,
) -> Result<Status, WantOfMemory>
    requires played { Played play.old [] play.old }
    requires elements { page.old.elements ≡ [] }
    requires marks { page.old.marks ≡ [] }
    ensures finished { IfOk result (λ status. Finished steps play.old page.new.marks play.new) }
    ensures status { IfOk result (λ status. status ≡ answer_by play.new.bad) }
    ensures elements { IfOk result (λ status. page.new.elements ≡ []) }
{
    let mut sketch = Sketch::new(alloc, steps);
    begin(page, title, STYLE, stepping(steps))?;
    draw_all(alloc, play, &mut sketch, page)?;
    sketch.end_rows(alloc, page)?;
    let bad = play.bad_line();
    draw_bad(alloc, bad, page)?;
    sketch.draw_rest(alloc, play.tree(), page)?;
    draw_ending(&play.ending()?, page)?;
    draw_states(steps, &sketch.states, page)?;
    page.close()?;
    Ok(answer(bad))
}

/// The page of a play.
fn page_play<R: Drivers>(
    alloc: Global,
    title: &[u8],
    steps: bool,
    play: &mut Play<R>,
) -> Result<Viewed, WantOfMemory>
    requires { Played play.old [] play.old }
    ensures { IfOk result (λ v. ViewsPlay steps play.old v.text.items v.status) }
{
    let mut page = Page::new(alloc)?;
    match draw_play(alloc, title, steps, play, &mut page) {
        Ok(status) => finished(page, status),
        Err(error) => Err(error),
    }
}

/// The same of a front over a manager to which nothing happened. The play is made here and handed on, since the checker is slow where
/// a function holds one.
fn page_machine<R: Drivers>(
    alloc: Global,
    title: &[u8],
    steps: bool,
    manager: Manager<R>,
    script: &[u8],
) -> Result<Viewed, WantOfMemory>
    requires start { IsAtStart manager }
    requires small { length script.now ≤ 16777216 }
    ensures { IfOk result (λ e. IsViewing steps (settings manager) (opening_front manager.state) (events_of script.now) e.text.items e.status) }
{
    let front = Front::new(alloc, manager);
    match Play::new(alloc, front, script) {
        Ok(mut play) => page_play(alloc, title, steps, &mut play),
        Err(error) => Err(error),
    }
}

/// The page for a script, over a manager that is made of these INFs and this rack. The manager is made here and handed on, for the same
/// reason.
pub fn page_of<R: Drivers>(
    alloc: Global,
    title: &[u8],
    steps: bool,
    script: &[u8],
    infs: Vec<Inf>,
    budget: u64,
    rack: R,
) -> Result<Viewed, WantOfMemory>
    requires infs { length infs.items ≤ 64 }
    requires budget { budget ≤ 1000000 }
    requires small { length script.now ≤ 16777216 }
    ensures { IfOk result (λ e. IsViewing steps (machine infs.items budget) (opening_front (opening (R.rows rack))) (events_of script.now) e.text.items e.status) }
{
    match Manager::new(alloc, infs, rack, budget) {
        Ok(manager) => page_machine(alloc, title, steps, manager, script),
        Err(error) => Err(error),
    }
}
