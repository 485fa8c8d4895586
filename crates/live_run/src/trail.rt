//! What the lines of a run told of its live drivers.
ghost use Rattle.std.specs.Prelude.{◌≡◌, ◌<◌, IfOk, IfSome, OnOk, filter, length, map, not, option_map};
ghost use Rattle.std.specs.List.{position};
ghost use Rattle.pnp_model.specs.Keyed.{without_first};
ghost use Rattle.live_model.specs.Trails.{attach, drivers_of, follow, is_at, is_request, no_trail, request_at, wait};
ghost use Rattle.live_run.specs.Views.{IfWaits, attached_of, lives_of, trail_of, waiting_of};

use crate::answers::is_word;
use crate::live::LiveDrivers;
use device_ids::{Text, WantOfMemory};
use pnp_labels::{Deed, DevState, Label, Minor, Shown, minor_text};
use std::alloc::Global;

/// A live driver that is attached to a device.
struct Attached {
    path: Text,
    driver: Text,
}

impl Drop for Attached {
    fn drop(self) {
        let Attached { path: _, driver: _ } = self;
    }
}

/// A request that waits at a live driver.
struct Waiting {
    path: Text,
    minor: Minor,
    driver: Text,
}

impl Drop for Waiting {
    fn drop(self) {
        let Waiting {
            path: _,
            minor: _,
            driver: _,
        } = self;
    }
}

/// The live drivers that are attached to devices, in the order in which they were, and the requests that wait at live drivers, as the lines
/// told it: a driver is attached by an AddDevice that succeeds, until its device has no drivers; a request waits from where a driver pends it
/// until it is completed.
pub(crate) struct Trail {
    attached: Vec<Attached>,
    waiting: Vec<Waiting>,
}

impl Drop for Trail {
    fn drop(self) {
        let Trail {
            attached: _,
            waiting: _,
        } = self;
    }
}

impl Attached {
    /// Whether it is attached to the device of this path.
    fn is_at(&self, path: &Text) -> bool
        ensures { result ≡ is_at path.now (attached_of self.now) }
    {
        self.path.same(path)
    }
}

impl Waiting {
    /// Whether it is this request of the device of this path.
    fn is_request(&self, path: &Text, minor: Minor) -> bool
        ensures { result ≡ is_request path.now minor (waiting_of self.now) }
    {
        is_word(minor_text(self.minor), minor_text(minor)) && self.path.same(path)
    }
}

/// The place of the first request of this minor for the device of this path.
fn place_of(waiting: &[Waiting], path: &Text, minor: Minor) -> Option<usize>
    ensures place { result ≡ position (λ w. is_request path.now minor (waiting_of w)) waiting.now }
    ensures within { IfSome result (λ at. at < length waiting.now) }
{
    waiting.iter().position(|one| one.is_request(path, minor))
}

/// Takes out what is attached to the device of this path.
fn detach(attached: &mut Vec<Attached>, path: &Text)
    ensures { attached.new.items ≡ filter (λ a. not (is_at path.now (attached_of a))) attached.old.items }
{
    attached.retain(|one| !one.is_at(path));
}

/// Takes out the first request of this minor for the device of this path.
fn complete(waiting: &mut Vec<Waiting>, path: &Text, minor: Minor)
    ensures { waiting.new.items ≡ without_first (λ w. is_request path.now minor (waiting_of w)) waiting.old.items }
{
    if let Some(at) = place_of(waiting, path, minor) {
        waiting.remove(at);
    }
}

impl Trail {
    /// Nothing was told. It takes no memory.
    pub(crate) fn new(alloc: Global) -> Trail
        ensures { trail_of result ≡ no_trail }
    {
        Trail {
            attached: Vec::new(alloc),
            waiting: Vec::new(alloc),
        }
    }

    /// A driver is attached to a device, if it is live.
    fn attach(
        &mut self,
        alloc: Global,
        live: &LiveDrivers,
        path: &Text,
        driver: &Text,
    ) -> Result<(), WantOfMemory>
        ensures { OnOk result (trail_of self.new ≡ attach (lives_of live.now) path.now driver.now (trail_of self.old)) }
    {
        if live.has(driver) {
            let path = path.copy(alloc)?;
            let driver = driver.copy(alloc)?;
            self.attached.push(Attached { path, driver })?;
        }
        Ok(())
    }

    /// A request waits at a driver, if that is live.
    fn wait(
        &mut self,
        alloc: Global,
        live: &LiveDrivers,
        path: &Text,
        minor: Minor,
        driver: &Text,
    ) -> Result<(), WantOfMemory>
        ensures { OnOk result (trail_of self.new ≡ wait (lives_of live.now) path.now minor driver.now (trail_of self.old)) }
    {
        if live.has(driver) {
            let path = path.copy(alloc)?;
            let driver = driver.copy(alloc)?;
            self.waiting.push(Waiting {
                path,
                minor,
                driver,
            })?;
        }
        Ok(())
    }

    /// Follows the line of a label. Cost: the number of live drivers that are attached, and of requests that wait.
    pub(crate) fn follow(
        &mut self,
        alloc: Global,
        live: &LiveDrivers,
        label: &Label,
    ) -> Result<(), WantOfMemory>
        ensures { OnOk result (trail_of self.new ≡ follow (lives_of live.now) label.now (trail_of self.old)) }
    {
        match label {
            Label::Add {
                path,
                driver,
                ok: true,
            } => self.attach(alloc, live, path, driver),
            Label::Asked {
                minor,
                path,
                driver,
                shown: Shown::Pend,
            } => self.wait(alloc, live, path, *minor, driver),
            Label::State {
                path,
                state: DevState::NoStack,
            } => {
                detach(&mut self.attached, path);
                Ok(())
            }
            Label::Did(
                Deed::Completed {
                    path,
                    minor,
                    shown: _,
                },
            ) => {
                complete(&mut self.waiting, path, *minor);
                Ok(())
            }
            _ => Ok(()),
        }
    }

    /// Whether a request waits at a live driver.
    pub(crate) fn waits(&self) -> bool
        ensures { IfWaits result (trail_of self.now) }
    {
        !self.waiting.is_empty()
    }

    /// The live driver at which a request of this minor waits for the device of this path.
    pub(crate) fn driver_at(&self, path: &Text, minor: Minor) -> Option<&Text>
        ensures { option_map (λ d. d.now) result ≡ option_map (λ w. w.driver) (request_at path.now minor (trail_of self.now)) }
    {
        let at = place_of(&self.waiting, path, minor)?;
        Some(&self.waiting[at].driver)
    }

    /// The live drivers that are attached to the device of this path, the lowest first.
    pub(crate) fn drivers_of(&self, alloc: Global, path: &Text) -> Result<Vec<&Text>, WantOfMemory>
        ensures { IfOk result (λ drivers. map (λ d. d.now) drivers.items ≡ drivers_of path.now (trail_of self.now)) }
    {
        let mut drivers = Vec::new(alloc);
        for one in &self.attached {
            if one.is_at(path) {
                drivers.push(&one.driver)?;
            }
        }
        Ok(drivers)
    }
}
