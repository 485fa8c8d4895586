ghost use Rattle.std.specs.Prelude.{◌≡◌, ◌<◌, ◌==◌, ◌++◌, [], ◌∷◌, true, OnOk, OnErr, length, position};
ghost use Rattle.std.specs.List.{remove};
ghost use Rattle.devnode_tree.specs.Trees.{Ascends};

use device_ids::WantOfMemory;
use std::alloc::Global;
use std::marker::Model;

/// The birth numbers of the nodes, in the order of the nodes, and whether they are known to ascend: they do as long as
/// each device that joins was born after the last one that is there. A contract sees the list.
#[derive(Drop)]
pub(crate) struct Births {
    list: Vec<u64>,
    ascend: bool,
}

impl Model for Births {
    ghost use Rattle.std.specs.Prelude.{◌≡◌, ℕ, List, true};
    ghost use Rattle.devnode_tree.specs.Trees.{Ascends};

    ghost Value = { List ℕ };

    ghost view = { λ b. b.list.items };

    ghost invariant = { λ b. b.ascend ≡ true → Ascends 0 b.list.items };
}

/// The place of a number among ascending ones. The last one is looked at first, since what joined last mostly leaves first. Cost:
/// the logarithm of their number.
pub(crate) fn place_in(list: &[u64], number: u64) -> Option<usize>
    requires { Ascends 0 list.now }
    ensures { result ≡ position (λ n. n == number) list.now }
{
    match list.last() {
        Some(last) if *last == number => Some(list.len() - 1),
        _ => list.binary_search(&number).ok(),
    }
}

/// The first place of a birth number. Cost: their number.
fn first_in(list: &[u64], born: u64) -> Option<usize>
    ensures { result ≡ position (λ b. b == born) list.now }
{
    list.iter().position(|b| *b == born)
}

/// Whether a birth number is above the last one of a list.
fn is_last(list: &[u64], born: u64) -> bool
    ensures { result ≡ true → Ascends 0 list.now → Ascends 0 (list.now ++ born ∷ []) }
{
    list.is_empty() || list[list.len() - 1] < born
}

impl Births {
    /// Of no node. It takes no memory.
    pub(crate) fn new(alloc: Global) -> Births
        ensures { result ≡ [] }
    {
        Births {
            list: Vec::new(alloc),
            ascend: true,
        }
    }

    /// How many there are.
    pub(crate) fn len(&self) -> usize
        ensures { result ≡ length self.now }
    {
        self.list.len()
    }

    /// The first place of a birth number. Cost: the logarithm of their number where they are known to ascend, else their
    /// number.
    pub(crate) fn find(&self, born: u64) -> Option<usize>
        ensures { result ≡ position (λ b. b == born) self.now }
    {
        if self.ascend {
            place_in(&self.list, born)
        } else {
            first_in(&self.list, born)
        }
    }

    /// Appends that of a node.
    pub(crate) fn push(&mut self, born: u64) -> Result<(), WantOfMemory>
        ensures pushed { OnOk result (self.new ≡ self.old ++ born ∷ []) }
        ensures err { OnErr result (self.new ≡ self.old) }
    {
        let ascend = self.ascend && is_last(&self.list, born);
        self.list.push(born)?;
        self.ascend = ascend;
        Ok(())
    }

    /// Takes away that at a place.
    pub(crate) fn remove(&mut self, at: usize)
        requires { at < length self.old }
        ensures { self.new ≡ remove self.old at }
    {
        let _ = self.list.remove(at);
    }
}
