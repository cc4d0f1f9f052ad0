//! Keys that were seen.
ghost use Rattle.std.specs.Prelude.{◌≡◌, ◌||◌, ℕ, List, IfOk, IsTrue, false, not};
ghost use Rattle.std.specs.Str.{bytes_eq};
ghost use Rattle.haya_command.specs.InTurn.{was_seen};

use haya_text::OutOfMemory;
use hayagriva::HashKeys;
use std::alloc::Global;
use std::collections::HashMap;

/// Keys of entries that were seen.
#[derive(Drop)]
pub(crate) struct SeenKeys {
    keys: HashMap<String, (), HashKeys>,
}

impl SeenKeys {
    /// None, in a map that hashes with these keys.
    pub(crate) fn new(alloc: Global, keys: HashKeys) -> SeenKeys
        ensures { (key : List ℕ) → was_seen result key ≡ false }
    {
        SeenKeys {
            keys: HashMap::with_hasher(alloc, keys),
        }
    }

    /// Whether the key wasn't seen before. It is from now on.
    pub(crate) fn is_new(&mut self, alloc: Global, key: &str) -> Result<bool, OutOfMemory>
        ensures new { IfOk result (λ is_new. is_new ≡ not (was_seen self.old key.now)) }
        ensures seen { IfOk result (λ is_new. IsTrue is_new → (other : List ℕ) →
            was_seen self.new other ≡ (bytes_eq key.now other || was_seen self.old other)) }
    {
        if self.keys.get(key).is_some() {
            return Ok(false);
        }
        self.keys.insert(String::from_str(alloc, key)?, ())?;
        Ok(true)
    }
}
