//! Samples.

ghost use Rattle.std.specs.Prelude.{◌≡◌};
ghost use Rattle.perf_files.specs.Fields.{seen, taken};
ghost use Rattle.perf_files.specs.Samples.{aux_of, branches_of, chain_of, entry_words, other_words, others_of, raw_of, read_group, read_values, sample_fields, sample_in, sample_registers, stack_field, stack_of, time_words, weight_of};

use crate::attributes::Attributes;
use crate::error::FieldError;
use crate::field::{Field, SampleField};
use crate::fields::Fields;
use crate::registers::SavedRegisters;
use crate::sample_head::SampleHead;
use crate::words::Words;

/// A sample. What a recording has no field for is empty.
#[derive(Debug, Drop)]
pub struct Sample<'a> {
    /// Its first fields.
    pub head: SampleHead,
    /// The call chain as the kernel recorded it, with its markers of contexts.
    pub call_chain: Words<'a>,
    /// The registers of user code.
    pub user_registers: SavedRegisters<'a>,
    /// The bytes of the user's stack that were copied (`dyn_size`), from the stack pointer on.
    pub user_stack: &'a [u8],
}

// Bits of `read_format`.
const TOTAL_TIME_ENABLED: u64 = 1;

const TOTAL_TIME_RUNNING: u64 = 2;

const FORMAT_ID: u64 = 4;

const FORMAT_GROUP: u64 = 8;

const FORMAT_LOST: u64 = 16;

// Bits of `branch_sample_type`.
const HARDWARE_INDEX: u64 = 0x2_0000;

const COUNTERS: u64 = 0x8_0000;

// The size of a branch, and of its counters.
const BRANCH_SIZE: u64 = 24;

const COUNTERS_SIZE: u64 = 8;

// How many times are read with the values of a counter.
fn time_words(attributes: &Attributes) -> u64
    ensures { result ≡ time_words attributes.now.read_format }
{
    attributes.read_format / TOTAL_TIME_ENABLED % 2
        + attributes.read_format / TOTAL_TIME_RUNNING % 2
}

// How many words there are for each counter.
fn entry_words(attributes: &Attributes) -> u64
    ensures { result ≡ entry_words attributes.now.read_format }
{
    1 + attributes.read_format / FORMAT_ID % 2 + attributes.read_format / FORMAT_LOST % 2
}

impl<'a> Fields<'a> {
    ghost use Rattle.perf_files.specs.SampleViews.{sample_seen};

    // The values of the counters of a group.
    #[tactic(auto, unfolding(crate::specs::Samples::read_group))]
    fn read_group(&mut self, attributes: &Attributes) -> Result<(), FieldError>
        ensures { taken (λ none. none) result self.new.left.now
            ≡ read_group attributes.now.read_format self.old.left.now }
    {
        let field = Field::Sample(SampleField::Read);
        let count = self.word(field)?;
        let _times = self.entries(time_words(attributes), 8, field)?;
        let _values = self.entries(count, 8 * entry_words(attributes), field)?;
        Ok(())
    }

    // The values of counters, if samples have them.
    #[tactic(auto, unfolding(crate::specs::Samples::read_values))]
    fn read_values(&mut self, attributes: &Attributes) -> Result<(), FieldError>
        ensures { taken (λ none. none) result self.new.left.now
            ≡ read_values attributes.now self.old.left.now }
    {
        let field = Field::Sample(SampleField::Read);
        if !attributes.has(SampleField::Read) {
            return Ok(());
        }
        if attributes.read_format / FORMAT_GROUP % 2 == 1 {
            return self.read_group(attributes);
        }
        let _values = self.entries(time_words(attributes) + entry_words(attributes), 8, field)?;
        Ok(())
    }

    // The call chain, if samples have it.
    #[tactic(auto, unfolding(crate::specs::Samples::chain_of))]
    fn chain(&mut self, attributes: &Attributes) -> Result<&'a [u8], FieldError>
        ensures { taken (λ chain. chain.now) result self.new.left.now
            ≡ chain_of attributes.now self.old.left.now }
    {
        let field = Field::Sample(SampleField::CallChain);
        if !attributes.has(SampleField::CallChain) {
            return Ok(&[]);
        }
        let count = self.word(field)?;
        self.entries(count, 8, field)
    }

    // The raw data, if samples have them.
    #[tactic(auto, unfolding(crate::specs::Samples::raw_of))]
    fn raw(&mut self, attributes: &Attributes) -> Result<(), FieldError>
        ensures { taken (λ none. none) result self.new.left.now ≡ raw_of attributes.now self.old.left.now }
    {
        let field = Field::Sample(SampleField::Raw);
        if !attributes.has(SampleField::Raw) {
            return Ok(());
        }
        let size = self.half(field)?;
        let _data = self.bytes(u64::from(size), field)?;
        Ok(())
    }

    // The branch stack, if samples have it.
    #[tactic(auto, unfolding(crate::specs::Samples::branches_of))]
    fn branches(&mut self, attributes: &Attributes) -> Result<(), FieldError>
        ensures { taken (λ none. none) result self.new.left.now
            ≡ branches_of attributes.now self.old.left.now }
    {
        let field = Field::Sample(SampleField::BranchStack);
        if !attributes.has(SampleField::BranchStack) {
            return Ok(());
        }
        let kind = attributes.branch_sample_type;
        let count = self.word(field)?;
        let _index = self.entries(kind / HARDWARE_INDEX % 2, 8, field)?;
        let _branches = self.entries(count, BRANCH_SIZE, field)?;
        let _counters = self.entries(count, COUNTERS_SIZE * (kind / COUNTERS % 2), field)?;
        Ok(())
    }

    // Registers, if samples have them.
    #[tactic(auto, unfolding(crate::specs::Samples::sample_registers))]
    fn registers_if(
        &mut self,
        attributes: &Attributes,
        field: SampleField,
        mask: u64,
    ) -> Result<SavedRegisters<'a>, FieldError>
        ensures { taken (λ registers. registers) result self.new.left.now
            ≡ sample_registers attributes.now field mask self.old.left.now }
    {
        if !attributes.has(field) {
            return Ok(SavedRegisters::none(mask));
        }
        self.registers(mask, Field::Sample(field))
    }

    // Bytes of a stack.
    #[tactic(auto, unfolding(crate::specs::Samples::stack_field))]
    fn stack(&mut self) -> Result<&'a [u8], FieldError>
        ensures { taken (λ stack. stack.now) result self.new.left.now ≡ stack_field self.old.left.now }
    {
        let field = Field::Sample(SampleField::UserStack);
        let size = self.word(field)?;
        let room = self.bytes(size, field)?;
        if size == 0 {
            return Ok(room);
        }
        let copied = self.word(field)?;
        if copied > room.len() as u64 {
            return Err(FieldError::StackTooLarge);
        }
        Ok(&room[..copied as usize])
    }

    // The user's stack, if samples have it.
    #[tactic(auto, unfolding(crate::specs::Samples::stack_of))]
    fn stack_if(&mut self, attributes: &Attributes) -> Result<&'a [u8], FieldError>
        ensures { taken (λ stack. stack.now) result self.new.left.now
            ≡ stack_of attributes.now self.old.left.now }
    {
        if !attributes.has(SampleField::UserStack) {
            return Ok(&[]);
        }
        self.stack()
    }

    // The weight, if samples have it.
    #[tactic(auto, unfolding(crate::specs::Samples::weight_of))]
    fn weight(&mut self, attributes: &Attributes) -> Result<(), FieldError>
        ensures { taken (λ none. none) result self.new.left.now ≡ weight_of attributes.now self.old.left.now }
    {
        if !attributes.has_weight() {
            return Ok(());
        }
        let _weight = self.word(Field::Sample(SampleField::Weight))?;
        Ok(())
    }

    // The data of a trace, if samples have them.
    #[tactic(auto, unfolding(crate::specs::Samples::aux_of))]
    fn aux(&mut self, attributes: &Attributes) -> Result<(), FieldError>
        ensures { taken (λ none. none) result self.new.left.now ≡ aux_of attributes.now self.old.left.now }
    {
        let field = Field::Sample(SampleField::Aux);
        if !attributes.has(SampleField::Aux) {
            return Ok(());
        }
        let size = self.word(field)?;
        let _data = self.bytes(size, field)?;
        Ok(())
    }

    // The fields of one word that come after the interrupted registers.
    #[tactic(auto, unfolding(crate::specs::Samples::other_words))]
    fn other_words(&mut self, attributes: &Attributes) -> Result<(), FieldError>
        ensures { taken (λ none. none) result self.new.left.now
            ≡ other_words attributes.now self.old.left.now }
    {
        let _physical = self.word_if(attributes, SampleField::PhysicalAddress)?;
        let _cgroup = self.word_if(attributes, SampleField::Cgroup)?;
        let _data = self.word_if(attributes, SampleField::DataPageSize)?;
        let _code = self.word_if(attributes, SampleField::CodePageSize)?;
        Ok(())
    }

    // The fields after the stack.
    #[tactic(auto, unfolding(crate::specs::Samples::others_of))]
    fn others(&mut self, attributes: &Attributes) -> Result<(), FieldError>
        ensures { taken (λ none. none) result self.new.left.now ≡ others_of attributes.now self.old.left.now }
    {
        self.weight(attributes)?;
        let _source = self.word_if(attributes, SampleField::DataSource)?;
        let _transaction = self.word_if(attributes, SampleField::Transaction)?;
        let mask = attributes.interrupt_registers;
        let _registers = self.registers_if(attributes, SampleField::InterruptRegisters, mask)?;
        self.other_words(attributes)?;
        self.aux(attributes)
    }

    // The fields of a sample.
    #[tactic(auto, unfolding(crate::specs::Samples::sample_fields))]
    fn sample(&mut self, attributes: &Attributes) -> Result<Sample<'a>, FieldError>
        ensures { taken sample_seen result self.new.left.now ≡ sample_fields attributes.now self.old.left.now }
    {
        let head = self.head(attributes)?;
        self.read_values(attributes)?;
        let chain = self.chain(attributes)?;
        self.raw(attributes)?;
        self.branches(attributes)?;
        let mask = attributes.user_registers;
        let user_registers = self.registers_if(attributes, SampleField::UserRegisters, mask)?;
        let user_stack = self.stack_if(attributes)?;
        self.others(attributes)?;
        Ok(Sample {
            head,
            call_chain: Words::new(chain),
            user_registers,
            user_stack,
        })
    }
}

impl<'a> Sample<'a> {
    ghost use Rattle.perf_files.specs.SampleViews.{sample_seen};

    /// The sample in the payload of a record, by the attributes of its event. Fails with the first field that goes past the end, or
    /// with `StackTooLarge`.
    #[tactic(auto, unfolding(crate::specs::Samples::sample_in))]
    pub fn parse(payload: &'a [u8], attributes: &Attributes) -> Result<Self, FieldError>
        ensures { seen sample_seen result ≡ sample_in attributes.now payload.now }
    {
        let mut fields = Fields { left: payload };
        fields.sample(attributes)
    }
}
