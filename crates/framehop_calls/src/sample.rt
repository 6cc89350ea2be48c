//! What is known of a stack.

ghost use Rattle.std.specs.Prelude.{◌≡◌};
ghost use Rattle.framehop_registers.specs.Callback.{read_answer};
ghost use Rattle.framehop_calls.specs.Samples.{first_unknown, first_unlisted, is_known, place_listed, word_copied, word_listed, words_of};

/// What is known of the word at an address.
#[derive(Clone, Copy)]
#[repr(C)]
pub struct KnownWord {
    /// The address of its first byte.
    pub address: u64,
    /// The word, if it can be read.
    pub word: u64,
    /// 0 if it can't be read.
    pub is_readable: u64,
}

/// What is known of a stack: bytes that were copied, and words beside them, of which the first for an address counts.
#[derive(Clone, Copy)]
#[repr(C)]
pub struct Sample<'a> {
    /// The address of the first byte of the copy.
    pub start: u64,
    /// The bytes of the stack from there on.
    pub bytes: &'a [u8],
    /// What is known of other words.
    pub known: &'a [KnownWord],
    /// Unless 0, a word of which nothing is known is asked for; else it can't be read.
    pub asks: u64,
}

impl Sample<'_> {
    // The word at an address in the copy, the lowest byte first, if all its bytes are there.
    #[inline(always)]
    fn copied(&self, address: u64) -> Option<u64>
        ensures { result ≡ word_copied self.now address }
    {
        if address < self.start {
            return None;
        }
        let offset = address - self.start;
        if offset > self.bytes.len() as u64 {
            return None;
        }
        let bytes = self.bytes[offset as usize..].first_chunk::<8>()?;
        Some(u64::from_le_bytes(*bytes))
    }

    // The place in the list of what is known of the word at an address.
    fn place_of(&self, address: u64) -> Option<usize>
        ensures { result ≡ place_listed self.now address }
    {
        self.known.iter().position(|known| known.address == address)
    }

    /// Whether something is known of the word at an address.
    pub fn knows(&self, address: u64) -> bool
        ensures { result ≡ is_known self.now address }
    {
        self.copied(address).is_some() || self.place_of(address).is_some()
    }

    /// The word at an address, if it is known and can be read.
    #[inline(always)]
    pub fn word(&self, address: u64) -> Result<u64, ()>
        ensures { result ≡ read_answer (words_of self.now address) }
    {
        if let Some(word) = self.copied(address) {
            return Ok(word);
        }
        self.listed(address)
    }

    // What the list says of the word at an address.
    #[cold]
    #[inline(never)]
    fn listed(&self, address: u64) -> Result<u64, ()>
        ensures { result ≡ read_answer (word_listed self.now address) }
    {
        let Some(place) = self.place_of(address) else {
            return Err(());
        };
        let known = &self.known[place];
        if known.is_readable != 0 {
            Ok(known.word)
        } else {
            Err(())
        }
    }
}

/// A sample, and the first address that was asked for and of which nothing is known.
#[derive(Drop)]
pub(crate) struct AskedSample<'a, 'b> {
    pub(crate) sample: &'a Sample<'b>,
    pub(crate) wanted: Option<u64>,
}

impl AskedSample<'_, '_> {
    /// The word at an address. An address of which nothing is known is noted.
    #[inline(always)]
    pub(crate) fn word(&mut self, address: u64) -> Result<u64, ()>
        ensures answer { result ≡ read_answer (words_of self.old.sample.now address) }
        ensures sample { self.new.sample ≡ self.old.sample }
        ensures noted { self.new.wanted ≡ first_unknown self.old.sample.now self.old.wanted address }
    {
        if let Some(word) = self.sample.copied(address) {
            return Ok(word);
        }
        self.listed(address)
    }

    // What the list says of the word at an address. An address that it hasn't is noted.
    #[cold]
    #[inline(never)]
    fn listed(&mut self, address: u64) -> Result<u64, ()>
        ensures answer { result ≡ read_answer (word_listed self.old.sample.now address) }
        ensures sample { self.new.sample ≡ self.old.sample }
        ensures noted { self.new.wanted ≡ first_unlisted self.old.sample.now self.old.wanted address }
    {
        let Some(place) = self.sample.place_of(address) else {
            if self.wanted.is_none() {
                self.wanted = Some(address);
            }
            return Err(());
        };
        let known = &self.sample.known[place];
        if known.is_readable != 0 {
            Ok(known.word)
        } else {
            Err(())
        }
    }
}
