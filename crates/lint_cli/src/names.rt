ghost use Rattle.std.specs.Prelude.{◌≡◌, IfOk};
ghost use Rattle.device_ids.specs.Folding.{folded};

use std::alloc::{AllocError, Global};
use std::collections::BTreeMap;
use std::marker::Model;

/// Names in an order, which are looked up in any letters. A contract sees their list.
#[derive(Drop)]
pub struct Names<'a> {
    names: Vec<&'a [u8]>,
    index: BTreeMap<Vec<u8>, bool>,
}

impl<'a> Model for Names<'a> {
    ghost use Rattle.std.specs.Prelude.{List, ℕ, map};
    ghost use Rattle.lint_cli.specs.Names.{IsIndexOf};

    ghost Value = { List (List ℕ) };

    ghost view = { λ n. map (λ name. name.now) n.names.items };

    ghost invariant = { λ n. IsIndexOf n.index (map (λ name. name.now) n.names.items) };
}

/// The bytes with ASCII letters folded.
fn folded(alloc: Global, bytes: &[u8]) -> Result<Vec<u8>, AllocError>
    ensures { IfOk result (λ text. text.items ≡ folded bytes.now) }
{
    let mut text = Vec::from_slice(alloc, bytes)?;
    text.make_ascii_lowercase();
    Ok(text)
}

impl<'a> Names<'a> {
    ghost use Rattle.std.specs.Prelude.{◌≡◌, ◌++◌, ◌∷◌, [], OnOk, IfOk};
    ghost use Rattle.lint_cli.specs.Warnings.{knows};

    /// No name. It takes no memory.
    pub fn new(alloc: Global) -> Names<'a>
        ensures { result ≡ [] }
    {
        Names {
            names: Vec::new(alloc),
            index: BTreeMap::new(alloc),
        }
    }

    /// Appends a name. Cost: its length for each of a logarithm of names.
    pub fn push(&mut self, alloc: Global, name: &'a [u8]) -> Result<(), AllocError>
        ensures { OnOk result (self.new ≡ self.old ++ name.now ∷ []) }
    {
        let key = folded(alloc, name)?;
        self.names.reserve(1)?;
        self.index.insert(key, true)?;
        let _ = self.names.push(name);
        Ok(())
    }

    /// Whether a name is one of these, in any letters. Cost: its length for each of a logarithm of names.
    pub fn has(&self, alloc: Global, name: &[u8]) -> Result<bool, AllocError>
        ensures { IfOk result (λ found. found ≡ knows self.now name.now) }
    {
        let key = folded(alloc, name)?;
        Ok(self.index.contains_key(key.as_slice()))
    }
}
