//! The keys that the map of a library hashes with.
ghost use Rattle.std.specs.Prelude.{◌≡◌};
ghost use Rattle.hayagriva.specs.HashKeys.{hasher_of, keyed};

use std::hash::{BuildHasher, DefaultHasher, Hasher};
use std::io;
use std::random::RandomSource;

/// Two numbers that a library's map hashes with. No answer depends on them, only how long it takes:
/// who knows them can make keys that collide.
#[derive(Clone, Copy)]
pub struct HashKeys {
    // A hasher that has taken both numbers in.
    keyed: DefaultHasher,
}

impl HashKeys {
    /// The keys with these two numbers.
    pub fn new(first: u64, second: u64) -> HashKeys
        ensures { hasher_of result ≡ keyed first second }
    {
        let mut keyed = DefaultHasher::new();
        keyed.write_u64(first);
        keyed.write_u64(second);
        HashKeys { keyed }
    }

    /// Keys that nobody knows, where the source is the system's. The error is the source's.
    pub fn random(source: &impl RandomSource) -> io::Result<HashKeys> {
        let (mut first, mut second) = ([0; 8], [0; 8]);
        source.fill_bytes(&mut first)?;
        source.fill_bytes(&mut second)?;
        Ok(HashKeys::new(u64::from_le_bytes(first), u64::from_le_bytes(second)))
    }
}

impl BuildHasher for HashKeys {
    type Hasher = DefaultHasher;

    ghost build_hasher = { hasher_of };

    fn build_hasher(&self) -> DefaultHasher {
        self.keyed
    }
}
