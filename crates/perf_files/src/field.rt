//! The names of fields.

ghost use Rattle.std.specs.Prelude.{◌≡◌, ◌<◌};
ghost use Rattle.perf_files.specs.SampleFields.{sample_bit};

use thiserror::Error;

/// A field of a sample, each with its bit of `sample_type` (`PERF_SAMPLE_*`).
#[derive(Debug, Clone, Copy, PartialEq, Eq, Error)]
pub enum SampleField {
    /// `PERF_SAMPLE_IDENTIFIER`.
    #[error("the identifier")]
    Identifier,
    /// `PERF_SAMPLE_IP`.
    #[error("the instruction pointer")]
    InstructionPointer,
    /// `PERF_SAMPLE_TID`.
    #[error("process and thread")]
    Thread,
    /// `PERF_SAMPLE_TIME`.
    #[error("the time")]
    Time,
    /// `PERF_SAMPLE_ADDR`.
    #[error("the address")]
    Address,
    /// `PERF_SAMPLE_ID`.
    #[error("the id")]
    Id,
    /// `PERF_SAMPLE_STREAM_ID`.
    #[error("the stream's id")]
    StreamId,
    /// `PERF_SAMPLE_CPU`.
    #[error("the processor")]
    Cpu,
    /// `PERF_SAMPLE_PERIOD`.
    #[error("the period")]
    Period,
    /// `PERF_SAMPLE_READ`.
    #[error("the counter's values")]
    Read,
    /// `PERF_SAMPLE_CALLCHAIN`.
    #[error("the call chain")]
    CallChain,
    /// `PERF_SAMPLE_RAW`.
    #[error("the raw data")]
    Raw,
    /// `PERF_SAMPLE_BRANCH_STACK`.
    #[error("the branch stack")]
    BranchStack,
    /// `PERF_SAMPLE_REGS_USER`.
    #[error("the user's registers")]
    UserRegisters,
    /// `PERF_SAMPLE_STACK_USER`.
    #[error("the user's stack")]
    UserStack,
    /// `PERF_SAMPLE_WEIGHT` or `PERF_SAMPLE_WEIGHT_STRUCT`.
    #[error("the weight")]
    Weight,
    /// `PERF_SAMPLE_DATA_SRC`.
    #[error("the data's source")]
    DataSource,
    /// `PERF_SAMPLE_TRANSACTION`.
    #[error("the transaction")]
    Transaction,
    /// `PERF_SAMPLE_REGS_INTR`.
    #[error("the interrupted registers")]
    InterruptRegisters,
    /// `PERF_SAMPLE_PHYS_ADDR`.
    #[error("the physical address")]
    PhysicalAddress,
    /// `PERF_SAMPLE_CGROUP`.
    #[error("the control group")]
    Cgroup,
    /// `PERF_SAMPLE_DATA_PAGE_SIZE`.
    #[error("the size of the data's page")]
    DataPageSize,
    /// `PERF_SAMPLE_CODE_PAGE_SIZE`.
    #[error("the size of the code's page")]
    CodePageSize,
    /// `PERF_SAMPLE_AUX`.
    #[error("the data of a trace")]
    Aux,
}

/// A field of a record, an attribute or a feature.
#[derive(Debug, Clone, Copy, PartialEq, Eq, Error)]
pub enum Field {
    /// A field of a sample.
    #[error("{0}")]
    Sample(SampleField),
    /// What a record that isn't a sample ends in (`sample_id_all`).
    #[error("what the record ends in")]
    Trailer,
    /// Process and thread.
    #[error("process and thread")]
    Process,
    /// The addresses of a mapping, and where in its file they begin.
    #[error("the mapped range")]
    MappedRange,
    /// The device and inode or the build id of a mapped file, and how it may be used.
    #[error("the mapped file")]
    MappedFile,
    /// The time of a start or an end.
    #[error("the time of the task")]
    TaskTime,
    /// How many records or samples were lost.
    #[error("what was lost")]
    LostCount,
    /// The build id of a file.
    #[error("the build id")]
    BuildId,
    /// The members of `struct perf_event_attr` up to its size.
    #[error("the attributes")]
    Attributes,
    /// Where the ids of an event are.
    #[error("the ids")]
    Ids,
    /// Where a feature is.
    #[error("the place of a feature")]
    Feature,
    /// The length of a text, or the text.
    #[error("a text")]
    Text,
    /// The size of the data behind a record.
    #[error("the size of the data")]
    DataSize,
}

impl SampleField {
    // The field's bit in `sample_type`.
    #[tactic(auto, unfolding(crate::specs::SampleFields::sample_bit))]
    pub(crate) fn bit(self) -> u64
        ensures bit { result ≡ sample_bit self }
        ensures some { 0 < result }
    {
        match self {
            SampleField::Identifier => 0x1_0000,
            SampleField::InstructionPointer => 0x1,
            SampleField::Thread => 0x2,
            SampleField::Time => 0x4,
            SampleField::Address => 0x8,
            SampleField::Id => 0x40,
            SampleField::StreamId => 0x200,
            SampleField::Cpu => 0x80,
            SampleField::Period => 0x100,
            SampleField::Read => 0x10,
            SampleField::CallChain => 0x20,
            SampleField::Raw => 0x400,
            SampleField::BranchStack => 0x800,
            SampleField::UserRegisters => 0x1000,
            SampleField::UserStack => 0x2000,
            SampleField::Weight => 0x4000,
            SampleField::DataSource => 0x8000,
            SampleField::Transaction => 0x2_0000,
            SampleField::InterruptRegisters => 0x4_0000,
            SampleField::PhysicalAddress => 0x8_0000,
            SampleField::Cgroup => 0x20_0000,
            SampleField::DataPageSize => 0x40_0000,
            SampleField::CodePageSize => 0x80_0000,
            SampleField::Aux => 0x10_0000,
        }
    }
}
