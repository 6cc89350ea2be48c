//! Instructions by what they do to the stack pointer, the frame pointer x29 and the link register x30.
ghost use Rattle.std.specs.Prelude.{◌≡◌};
ghost use Rattle.framehop_ways.specs.Lost.{nothing_lost, lost_by, lost_by_or_sp, both_lost};

/// A register to which offsets are.
#[derive(Clone, Copy, Debug, PartialEq, Eq, Default)]
pub enum Base {
    #[default]
    StackPointer,
    FramePointer,
}

/// A load or a store of one or two registers relative to a base.
#[derive(Clone, Copy, Debug, PartialEq, Eq)]
pub struct Access {
    pub base: Base,
    /// of the first register's word, in bytes from the base before the instruction
    pub offset: i16,
    /// in bytes, by how many the base goes up
    pub raise: i16,
    /// of the general register, 31 for none
    pub first: u8,
    /// of the general register of the next word, 31 for none
    pub second: u8,
}

/// Which of the three registers may have any value afterwards.
#[derive(Clone, Copy, Debug, PartialEq, Eq)]
pub struct Lost {
    pub sp: bool,
    pub fp: bool,
    pub lr: bool,
}

/// What a word of code does.
#[derive(Clone, Copy, Debug, PartialEq, Eq, Default)]
pub enum Instruction {
    /// registers of 8 bytes are loaded
    Load(Access),
    Store(Access),
    /// `to` is `from` plus a number of bytes
    Move { to: Base, from: Base, bytes: i32 },
    /// the link register is signed, authenticated or stripped
    Sign,
    /// a function is called, which returns
    Call,
    /// a branch, by its distance in bytes
    Branch { distance: i32 },
    /// a branch that may be taken or not
    BranchIf { distance: i32 },
    /// a return by the link register
    Return,
    /// a branch to a register
    BranchAway,
    /// other registers and memory change, and those that are lost
    Plain(Lost),
    /// anything may happen
    #[default]
    Unknown,
}

impl Lost {
    /// None of the three.
    pub const NOTHING: Lost = Lost {
        sp: false,
        fp: false,
        lr: false,
    };

    /// What is lost once a general register is written, where 31 is the zero register.
    pub fn by(number: u32) -> Lost
        ensures { result ≡ lost_by number }
    {
        Lost {
            sp: false,
            fp: number == 29,
            lr: number == 30,
        }
    }

    /// The same, where 31 is the stack pointer.
    pub fn by_or_sp(number: u32) -> Lost
        ensures { result ≡ lost_by_or_sp number }
    {
        Lost {
            sp: number == 31,
            fp: number == 29,
            lr: number == 30,
        }
    }

    /// What either loses.
    pub fn or(self, other: Lost) -> Lost
        ensures { result ≡ both_lost self other }
    {
        Lost {
            sp: self.sp | other.sp,
            fp: self.fp | other.fp,
            lr: self.lr | other.lr,
        }
    }
}
