//! The augmentation of a CIE (LSB 5.0, 10.6.1.1.1).

ghost use Rattle.std.specs.Prelude.{◌≡◌, ◌≤◌, ◌<◌, length, Option, Some, None, option_map, OnOk, OnErr, Ok};
ghost use Rattle.dwarf_readers.specs.Stretch.{ReadsAs};
ghost use Rattle.dwarf_frame_entries.specs.Augmentations.{data_at, encoding_unless_omitted, pointer_unless_omitted, no_letters};
ghost use Rattle.dwarf_frame_entries.specs.LetterViews.{IsAfterStart, ReadsAugmentation, ReadsLetters};
ghost use Rattle.dwarf_frame_entries.specs.PointerViews.{ReadsIn};

use dwarf_constants::constants::DW_EH_PE_omit;
use dwarf_constants::{DwEhPe, Error, Result};
use dwarf_frame_rows::{
    Pointer, PointerEncodingParameters, parse_encoded_pointer, parse_pointer_encoding,
};
use dwarf_readers::{Reader, ReaderOffset};

/// The augmentation of a CIE: what its letters say (LSB 5.0, 10.6.1.1.1).
#[derive(Debug, Clone, Copy, PartialEq, Eq)]
pub struct Augmentation {
    /// The CIE and its FDEs have augmentation data, which begins with its length (`z`).
    pub has_data: bool,
    /// The encoding of an FDE's pointer to language-specific data (`L`), if FDEs have one.
    pub lsda: Option<DwEhPe>,
    /// The pointer to the personality routine, with its encoding (`P`), if there is one.
    pub personality: Option<(DwEhPe, Pointer)>,
    /// The encoding of the addresses of FDEs (`R`), unless they are absolute.
    pub fde_address_encoding: Option<DwEhPe>,
    /// The frame is that of a signal handler (`S`).
    pub is_signal_trampoline: bool,
}

/// An augmentation without letters.
impl Default for Augmentation {
    ghost use Rattle.std.specs.Prelude.{◌≡◌, None};
    ghost use Rattle.dwarf_frame_entries.specs.Augmentations.{no_letters, augmentation_by_letters};

    ghost is_default = { λ augmentation. augmentation ≡ (no_letters None).augmentation };

    fn default() -> Self {
        Augmentation {
            has_data: false,
            lsda: None,
            personality: None,
            fde_address_encoding: None,
            is_signal_trampoline: false,
        }
    }
}

// Reads augmentation data: its length, and as many bytes.
#[inline(always)]
pub(crate) fn read_data<R: Reader>(input: &mut R) -> Result<R>
    ensures { ReadsAs R.stretch result (data_at R.Offset.limit (R.stretch input.old))
        (R.stretch input.new) }
{
    let length = input.read_uleb128()?;
    input.split(R::Offset::from_u64(length)?)
}

// What the letters so far say, and the data that is left for the others, if there is any.
#[derive(Drop)]
struct LettersRead<R: Reader> {
    augmentation: Augmentation,
    left: Option<R>,
}

impl<R: Reader> LettersRead<R> {
    ghost use Rattle.dwarf_frame_entries.specs.LetterViews.{IsAfterStart, ReadsLetter, ReadsLetterData, letters_view};

    // Before any letter.
    fn new(left: Option<R>) -> Self
        ensures { letters_view R.stretch result ≡ no_letters (option_map R.stretch left) }
    {
        let augmentation = Augmentation {
            has_data: left.is_some(),
            ..Augmentation::default()
        };
        LettersRead { augmentation, left }
    }

    // Reads what one more letter says.
    fn read(&mut self, letter: u8, parameters: &PointerEncodingParameters<'_, R>) -> Result<()>
        requires { IsAfterStart (R.stretch parameters.now.section.now)
            (letters_view R.stretch self.old) }
        ensures read { ReadsLetter R.stretch parameters.now letter self.old result self.new }
        ensures placed { OnOk result (IsAfterStart (R.stretch parameters.now.section.now)
            (letters_view R.stretch self.new)) }
    {
        if letter == b'S' {
            self.augmentation.is_signal_trampoline = true;
            return Ok(());
        }
        if letter == b'B' {
            return Ok(());
        }
        match self.left {
            Some(left) => self.read_with_data(letter, left, parameters),
            None => Err(Error::UnknownAugmentation),
        }
    }

    // Reads what a letter says by its data.
    fn read_with_data(
        &mut self,
        letter: u8,
        left: R,
        parameters: &PointerEncodingParameters<'_, R>,
    ) -> Result<()>
        requires { (R.stretch parameters.now.section.now).offset ≤ (R.stretch left).offset }
        ensures read { ReadsLetterData R.stretch parameters.now letter self.old left
            result self.new }
        ensures placed { OnOk result (IsAfterStart (R.stretch parameters.now.section.now)
            (letters_view R.stretch self.new)) }
    {
        let mut left = left;
        match letter {
            b'L' => {
                let encoding = parse_pointer_encoding(&mut left)?;
                self.augmentation.lsda = unless_omitted(encoding);
                self.left = Some(left);
                Ok(())
            }
            b'P' => {
                let encoding = parse_pointer_encoding(&mut left)?;
                self.augmentation.personality = read_pointer(encoding, parameters, &mut left)?;
                self.left = Some(left);
                Ok(())
            }
            b'R' => {
                let encoding = parse_pointer_encoding(&mut left)?;
                self.augmentation.fde_address_encoding = Some(encoding);
                self.left = Some(left);
                Ok(())
            }
            _ => Err(Error::UnknownAugmentation),
        }
    }
}

// The encoding; DW_EH_PE_omit is none.
fn unless_omitted(encoding: DwEhPe) -> Option<DwEhPe>
    ensures { result ≡ encoding_unless_omitted encoding.0 }
{
    if encoding == DW_EH_PE_omit {
        None
    } else {
        Some(encoding)
    }
}

// Reads a pointer of this encoding; there is none at DW_EH_PE_omit.
fn read_pointer<R: Reader>(
    encoding: DwEhPe,
    parameters: &PointerEncodingParameters<'_, R>,
    input: &mut R,
) -> Result<Option<(DwEhPe, Pointer)>>
    requires { (R.stretch parameters.now.section.now).offset ≤ (R.stretch input.old).offset }
    ensures { ReadsIn R.stretch parameters.now
        (λ origins. pointer_unless_omitted origins encoding.0) input.old result input.new }
{
    if encoding == DW_EH_PE_omit {
        return Ok(None);
    }
    let pointer = parse_encoded_pointer(encoding, parameters, input)?;
    Ok(Some((encoding, pointer)))
}

// Reads what these letters say, by their data, if there is any.
fn read_letters<R: Reader>(
    text: R,
    parameters: &PointerEncodingParameters<'_, R>,
    left: Option<R>,
) -> Result<Augmentation>
    requires { IsAfterStart (R.stretch parameters.now.section.now)
        (no_letters (option_map R.stretch left)) }
    ensures { ReadsLetters R.stretch parameters.now text left result }
{
    let mut letters = text;
    let mut read = LettersRead::new(left);
    while !letters.is_empty() {
        let letter = letters.read_u8()?;
        read.read(letter, parameters)?;
    }
    Ok(read.augmentation)
}

// Reads an augmentation by its string, and its data. An empty string is none.
#[inline(always)]
pub(crate) fn parse_augmentation<R: Reader>(
    text: R,
    parameters: &PointerEncodingParameters<'_, R>,
    input: &mut R,
) -> Result<Option<Augmentation>>
    requires { (R.stretch parameters.now.section.now).offset ≤ (R.stretch input.old).offset }
    ensures { ReadsAugmentation R.stretch R.Offset.limit parameters.now text
        input.old result input.new }
{
    if text.is_empty() {
        return Ok(None);
    }
    let mut others = text;
    let first = others.read_u8()?;
    if first == b'z' {
        let data = read_data(input)?;
        let augmentation = read_letters(others, parameters, Some(data))?;
        return Ok(Some(augmentation));
    }
    let augmentation = read_letters(text, parameters, None)?;
    Ok(Some(augmentation))
}
