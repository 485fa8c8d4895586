ghost use Rattle.std.specs.Prelude.{◌≡◌, ◌≢◌, ◌<◌, ◌≤◌, ◌^◌, List, length, replicate, position, option_map, slice_get, slice_set, IfOk, OnOk, OnErr, Some, None, true, false};
ghost use Rattle.pnp_model.specs.Books.{name_is};
ghost use Rattle.std.specs.List.Sorted.{IsSearchInRange, IsBinarySearchResult};
ghost use Rattle.driver_rack.specs.Naming.{folded_cmp, name_there};

use device_ids::{Text, WantOfMemory};
use std::alloc::Global;
use std::cmp::Ordering;
use std::marker::Model;

/// Which of two texts comes first, once ASCII letters are folded. It takes no memory. Cost: the shorter length.
fn folded_cmp(own: &Text, other: &Text) -> Ordering
    ensures { result ≡ folded_cmp own.now other.now }
{
    let own = own.bytes().iter().map(|byte| byte.to_ascii_lowercase());
    let other = other.bytes().iter().map(|byte| byte.to_ascii_lowercase());
    own.cmp(other)
}

/// A name, and the number of the driver that has it.
struct Entry {
    name: Text,
    driver: u32,
}

impl Drop for Entry {
    fn drop(self) {
        let Entry { name: _, driver: _ } = self;
    }
}

impl Model for Entry {
    ghost use Rattle.std.specs.Prelude.{List, ℕ};

    ghost Value = { List ℕ × ℕ };

    ghost view = { λ e. (e.name, e.driver) };
}

impl Entry {
    /// Whether its name comes before another.
    fn compare(&self, name: &Text) -> Ordering
        ensures { result ≡ folded_cmp self.now.0 name.now }
    {
        folded_cmp(&self.name, name)
    }
}

/// The place of a name in an index, or the place where it would go. Cost: the logarithm of the number of entries.
fn search(index: &[Entry], name: &Text) -> Result<usize, usize>
    ensures within { IsSearchInRange result (length index.now) }
    ensures place { IsBinarySearchResult (λ e. folded_cmp e.0 name.now) index.now result }
{
    index.binary_search_by(|entry| entry.compare(name))
}

/// The names of drivers, by number. Beside them stands an index in the order of the folded names, so that one is
/// found without folding all. A contract sees the list of the names.
pub(crate) struct Names {
    alloc: Global,
    names: Vec<Option<Text>>,
    index: Vec<Entry>,
}

impl Drop for Names {
    fn drop(self) {
        let Names {
            alloc: _,
            names: _,
            index: _,
        } = self;
    }
}

impl Model for Names {
    ghost use Rattle.std.specs.Prelude.{List, ℕ, Option, ◌<◌, ◌^◌, length};
    ghost use Rattle.driver_rack.specs.Naming.{IsIndexed};

    ghost Value = { List (Option (List ℕ)) };

    ghost view = { λ n. n.names.items };

    ghost invariant = { λ n. IsIndexed n.names.items n.index.items };
}

impl Names {
    /// Drivers without names.
    pub(crate) fn unnamed(alloc: Global, drivers: usize) -> Result<Names, WantOfMemory>
        ensures { IfOk result (λ names. names ≡ replicate drivers None) }
    {
        let mut names = Vec::with_capacity(alloc, drivers)?;
        for _ in 0..drivers {
            names.push(None)?;
        }
        let index = Vec::new(alloc);
        Ok(Names {
            alloc,
            names,
            index,
        })
    }

    /// The number of the driver that has the name up to ASCII case. It takes no memory. Cost: the logarithm of the
    /// number of names, times the length.
    pub(crate) fn find(&self, name: &Text) -> Option<u32>
        ensures { result ≡ position (name_is name.now) self.now }
    {
        match search(&self.index, name) {
            Ok(at) => Some(self.index[at].driver),
            Err(_) => None,
        }
    }

    /// The name of a driver.
    pub(crate) fn get(&self, driver: u32) -> Option<&Text>
        ensures { option_map (λ text. text.now) result ≡ name_there (slice_get self.now driver) }
    {
        match self.names.get(driver as usize) {
            Some(name) => name.as_ref(),
            None => None,
        }
    }

    /// Gives a name that no driver has to a driver without one. After want of memory the names are as before. Cost:
    /// the number of names.
    pub(crate) fn give(&mut self, driver: u32, name: &Text) -> Result<(), WantOfMemory>
        requires without { slice_get self.old driver ≡ Some None }
        requires fresh { position (name_is name.now) self.old ≡ None }
        ensures ok { OnOk result (self.new ≡ slice_set self.old driver (Some name.now)) }
        ensures err { OnErr result (self.new ≡ self.old) }
    {
        if let Err(at) = search(&self.index, name) {
            let own = name.copy(self.alloc)?;
            let entry = Entry {
                name: name.copy(self.alloc)?,
                driver,
            };
            self.index.insert(at, entry)?;
            self.names[driver as usize] = Some(own);
        }
        Ok(())
    }
}
