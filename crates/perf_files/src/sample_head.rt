//! The first fields of a sample, and what other records end in.

ghost use Rattle.std.specs.Prelude.{◌≡◌, ◌*◌};
ghost use Rattle.perf_files.specs.Fields.{taken};
ghost use Rattle.perf_files.specs.SampleHeads.{head_of, sample_cpu, sample_thread, sample_word, trailer_fields};

use crate::attributes::Attributes;
use crate::error::FieldError;
use crate::field::{Field, SampleField};
use crate::fields::{Fields, ThreadId};

/// The first fields of a sample, each if there is one.
#[derive(Debug, Clone, Copy, PartialEq, Eq)]
pub struct SampleHead {
    /// Which event it is of.
    pub identifier: Option<u64>,
    /// Where it was taken.
    pub instruction_pointer: Option<u64>,
    /// In which thread.
    pub thread: Option<ThreadId>,
    /// When, in nanoseconds.
    pub time: Option<u64>,
    /// An address that belongs to the event.
    pub address: Option<u64>,
    /// The id of the event, or of the group's leader.
    pub id: Option<u64>,
    /// The id of the event.
    pub stream_id: Option<u64>,
    /// On which processor.
    pub cpu: Option<u32>,
    /// How many events it stands for.
    pub period: Option<u64>,
}

/// What a record that isn't a sample ends in (`struct sample_id`), each if there is one.
#[derive(Debug, Clone, Copy, PartialEq, Eq)]
pub struct Trailer {
    /// The thread that it is of.
    pub thread: Option<ThreadId>,
    /// When it was made, in nanoseconds.
    pub time: Option<u64>,
    /// The id of the event, or of the group's leader.
    pub id: Option<u64>,
    /// The id of the event.
    pub stream_id: Option<u64>,
    /// On which processor.
    pub cpu: Option<u32>,
    /// Which event it is of.
    pub identifier: Option<u64>,
}

impl Fields<'_> {
    // A number of 64 bits, if samples have it.
    #[tactic(auto, unfolding(crate::specs::SampleHeads::sample_word))]
    pub(crate) fn word_if(
        &mut self,
        attributes: &Attributes,
        field: SampleField,
    ) -> Result<Option<u64>, FieldError>
        ensures { taken (λ word. word) result self.new.left.now
            ≡ sample_word attributes.now field self.old.left.now }
    {
        if !attributes.has(field) {
            return Ok(None);
        }
        let word = self.word(Field::Sample(field))?;
        Ok(Some(word))
    }

    // Process and thread, if samples have them.
    #[tactic(auto, unfolding(crate::specs::SampleHeads::sample_thread))]
    fn thread_if(&mut self, attributes: &Attributes) -> Result<Option<ThreadId>, FieldError>
        ensures { taken (λ thread. thread) result self.new.left.now
            ≡ sample_thread attributes.now self.old.left.now }
    {
        if !attributes.has(SampleField::Thread) {
            return Ok(None);
        }
        let thread = self.thread(Field::Sample(SampleField::Thread))?;
        Ok(Some(thread))
    }

    // The processor, which 32 bits follow, if samples have it.
    #[tactic(auto, unfolding(crate::specs::SampleHeads::sample_cpu))]
    fn cpu_if(&mut self, attributes: &Attributes) -> Result<Option<u32>, FieldError>
        ensures { taken (λ cpu. cpu) result self.new.left.now ≡ sample_cpu attributes.now self.old.left.now }
    {
        if !attributes.has(SampleField::Cpu) {
            return Ok(None);
        }
        let cpu = self.half(Field::Sample(SampleField::Cpu))?;
        let _reserved = self.half(Field::Sample(SampleField::Cpu))?;
        Ok(Some(cpu))
    }

    // The first fields of a sample.
    #[tactic(auto, unfolding(crate::specs::SampleHeads::head_of))]
    pub(crate) fn head(&mut self, attributes: &Attributes) -> Result<SampleHead, FieldError>
        ensures { taken (λ head. head) result self.new.left.now ≡ head_of attributes.now self.old.left.now }
    {
        let identifier = self.word_if(attributes, SampleField::Identifier)?;
        let instruction_pointer = self.word_if(attributes, SampleField::InstructionPointer)?;
        let thread = self.thread_if(attributes)?;
        let time = self.word_if(attributes, SampleField::Time)?;
        let address = self.word_if(attributes, SampleField::Address)?;
        let id = self.word_if(attributes, SampleField::Id)?;
        let stream_id = self.word_if(attributes, SampleField::StreamId)?;
        let cpu = self.cpu_if(attributes)?;
        let period = self.word_if(attributes, SampleField::Period)?;
        Ok(SampleHead {
            identifier,
            instruction_pointer,
            thread,
            time,
            address,
            id,
            stream_id,
            cpu,
            period,
        })
    }

    // The fields of a trailer.
    #[tactic(auto, unfolding(crate::specs::SampleHeads::trailer_fields))]
    pub(crate) fn trailer(&mut self, attributes: &Attributes) -> Result<Trailer, FieldError>
        ensures { taken (λ trailer. trailer) result self.new.left.now
            ≡ trailer_fields attributes.now self.old.left.now }
    {
        let thread = self.thread_if(attributes)?;
        let time = self.word_if(attributes, SampleField::Time)?;
        let id = self.word_if(attributes, SampleField::Id)?;
        let stream_id = self.word_if(attributes, SampleField::StreamId)?;
        let cpu = self.cpu_if(attributes)?;
        let identifier = self.word_if(attributes, SampleField::Identifier)?;
        Ok(Trailer {
            thread,
            time,
            id,
            stream_id,
            cpu,
            identifier,
        })
    }
}
