ghost use Rattle.std.specs.Prelude.{◌≡◌, ◌<◌, ◌++◌, ◌∷◌, [], not, length, IfOk, OnErr};
ghost use Rattle.vault_inventory.specs.Intake.{has_text};
ghost use Rattle.vault_inventory.specs.Inventories.{credential_at};

use base_moment::Text;
use std::alloc::{AllocError, Global};
use std::collections::BTreeSet;
use std::fmt;
use std::marker::Model;

/// Texts in the order in which they came, with a look-up that tells whether a text came before.
#[derive(Drop)]
pub struct Register {
    texts: Vec<Text>,
    found: BTreeSet<Vec<u8>>,
}

impl Model for Register {
    ghost use Rattle.std.specs.Prelude.{◌≡◌, List, ℕ};
    ghost use Rattle.vault_inventory.specs.Intake.{has_text};
    ghost use Rattle.vault_inventory.specs.Found.{holds_text};

    ghost Value = { List (List ℕ) };

    ghost view = { λ r. r.texts.items };

    ghost invariant = { λ r. (q : List ℕ) → holds_text r.found q ≡ has_text r.texts.items q };
}

impl fmt::Debug for Register {
    /// Shows how many texts there are, and none of them: they are secret.
    fn fmt<W: fmt::Write>(&self, f: &mut fmt::Formatter<W>) -> fmt::Result {
        f.debug_struct("Register")
            .field("len", &self.len())
            .finish_non_exhaustive()
    }
}

impl Register {
    /// No text. It takes no memory.
    pub fn new(alloc: Global) -> Register
        ensures { result ≡ [] }
    {
        Register {
            texts: Vec::new(alloc),
            found: BTreeSet::new(alloc),
        }
    }

    /// The number of texts.
    pub fn len(&self) -> usize
        ensures { result ≡ length self.now }
    {
        self.texts.len()
    }

    /// The text at an index.
    pub fn get(&self, index: usize) -> &[u8]
        requires { index < length self.now }
        ensures { result.now ≡ credential_at self.now index }
    {
        self.texts[index].list()
    }

    /// Appends a text, and says whether it is none of those before it.
    pub fn add(&mut self, alloc: Global, text: Text) -> Result<bool, AllocError>
        ensures fresh { IfOk result (λ fresh. fresh ≡ not (has_text self.old text)) }
        ensures added { IfOk result (λ fresh. self.new ≡ self.old ++ text ∷ []) }
        ensures unchanged { OnErr result (self.new ≡ self.old) }
    {
        let key = Vec::from_slice(alloc, text.list())?;
        self.texts.reserve(1)?;
        let fresh = self.found.insert(key)?;
        self.texts.push(text).unwrap();
        Ok(fresh)
    }
}
