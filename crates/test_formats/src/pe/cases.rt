//! Steps in files with one function.

/// Lines for the rows of a file, its unwind infos and its code, for the rules by which code is read, and for steps there: the address
/// at which a step looks, whether its frame is the first, IP, SP and BP, and the end of what can be read of the stack; and the caller,
/// with IP, SP, BP and RBX there, or the refusal. Numbers are hexadecimal, but for those of refusals.
pub static CASES: &str = "\
# later frames undo the prolog, also by rows that do not increase
pdata 001000001010000000200000
xdata 0105020005320130
text
step 1008 later 101009 20 20 80 => 100100 100100 50 20 70
pdata 001000001010000000200000000800001008000000200000
step 1008 later 101009 20 20 80 => 100100 100100 50 20 70
# first frames look for the epilog
pdata 001000001010000000200000
text 534883ec2090909090904883c4205bc3
step 1000 first 101000 48 20 80 => 100100 100100 50 20 0
step 100f first 10100f 48 20 80 => 100100 100100 50 20 0
step 1001 first 101001 40 20 80 => 100100 100100 50 20 70
step 100e first 10100e 40 20 80 => 100100 100100 50 20 70
step 1005 first 101005 20 20 80 => 100100 100100 50 20 70
step 100a first 10100a 20 20 80 => 100100 100100 50 20 70
# first frames want the code
text
step 1001 first 101001 40 20 80 => MissingInstructionData(4097)
text 534883ec2090909090904883c4205b
step 1001 first 101001 40 20 80 => MissingInstructionData(4097)
# unwind info elsewhere is missing
pdata 001000001010000000300000
text
step 1008 later 101009 20 20 80 => MissingUnwindInfoData(12288)
# codes without a rule are undone: a push of RBP, and an allocation of 8 before it
pdata 001000001010000000200000
xdata 0102020002500102
step 1008 later 101009 38 20 80 => 100100 101009 50 6 0
step 1008 later 101009 40 40 50 => MissingStackData(Some(80))
# functions without a row are leaves
xdata 0105020005320130
step 1010 first 100500 28 20 80 => 100200 100200 30 20 0
pdata 0010000010100000002000
step 1008 later 100500 28 20 80 => 100200 100200 30 20 0
# frames are set back: RBP is pushed, the stack pointer goes down by 0x20, RBP is set 0x10 above it, and RBX is saved at 0x10 from it
pdata 001000001010000000200000
xdata 010c05150c340200080305320150
step 100c later 10100d 8 30 80 => 100100 10100d 50 70 5
# before the frame is set and RBX is saved there is a rule
step 1005 later 101006 20 7 80 => 100100 100100 50 70 0
# frames below their offset are refused
step 100c later 10100d 8 f 80 => MissingStackData(None)
# machine frames lead to what was interrupted: without and with an error code
xdata 01000100000a
step 1008 later 101009 10 20 80 => 100300 101009 100200 20 0
xdata 01000100001a
step 1008 later 101009 8 20 80 => 100300 101009 100200 20 0
# RBX saved without a frame, and a vector register saved
xdata 010004000834030004680200
step 1008 later 101009 28 20 80 => 100200 101009 30 20 70
# an allocation of 4 bytes more than a multiple of 8
xdata 0100030008110c000000
step 1008 later 101009 1c 20 80 => 100200 101009 30 20 0
# a version of 2, an unknown operation, a frame without a frame register, a save without its operand
xdata 020001000030
step 1008 later 101009 20 20 80 => UnwindInfoParseError
xdata 010001000006
step 1008 later 101009 20 20 80 => UnwindInfoParseError
xdata 010001100003
step 1008 later 101009 20 20 80 => UnwindInfoParseError
xdata 010001000034
step 1008 later 101009 20 20 80 => UnwindInfoParseError
# pushes that cannot be read
xdata 0100020002000102
step 1008 later 101009 80 20 80 => MissingStackData(None)
# lea rsp, [rbp + 0x10]; pop rbp; ret, and the same with -0x10, where the frame register is RBP
xdata 01000005
text 90909090909090909090488d65105dc3
step 100a first 10100a 8 30 80 => 100100 10100a 50 70 0
text 90909090909090909090488d65f05dc3
step 100a first 10100a 8 50 80 => 100100 10100a 50 70 0
step 100a first 10100a 8 f 80 => MissingStackData(None)
# lea rsp, [r12 + 0x48]; ret, where R12 is the frame register and 0
xdata 0100000c
text 90909090909090909090498d642448c3
step 100a first 10100a 8 20 80 => 100100 10100a 50 20 0
# add rsp, 8; jmp, and an add of -8, which is code of the body: its info has no codes
xdata 01000005
text 909090909090909090904883c408eb00
step 100a first 10100a 40 20 80 => 100100 100100 50 20 0
text 909090909090909090904883c4f8c300
step 100a first 10100a 28 20 80 => 100200 100200 30 20 0
# ends of epilogs: add rsp, 8 and a jump to the end of the row, before it, to its begin, into it, and one that is cut
text 909090909090909090904883c408eb00
rules published
step 100a first 10100a 40 20 80 => 100100 100100 50 20 0
rules known
step 100a first 10100a 40 20 80 => 100100 100100 50 20 0
text 909090909090909090904883c408ebef
rules published
step 100a first 10100a 40 20 80 => 100100 100100 50 20 0
rules known
step 100a first 10100a 40 20 80 => 100100 100100 50 20 0
text 909090909090909090904883c408ebf0
rules published
step 100a first 10100a 40 20 80 => 100100 100100 50 20 0
rules known
step 100a first 10100a 40 20 80 => 100100 100100 50 20 0
text 909090909090909090904883c408ebf1
rules published
step 100a first 10100a 40 20 80 => 100100 100100 50 20 0
rules known
step 100a first 10100a 40 20 80 => 70 70 48 20 0
text 909090909090909090904883c408ebff
rules published
step 100a first 10100a 40 20 80 => 100100 100100 50 20 0
rules known
step 100a first 10100a 40 20 80 => 70 70 48 20 0
text 909090909090904883c408e900000000
rules published
step 1007 first 101007 40 20 80 => 100100 100100 50 20 0
rules known
step 1007 first 101007 40 20 80 => 100100 100100 50 20 0
text 909090909090904883c408e9efffffff
rules published
step 1007 first 101007 40 20 80 => 100100 100100 50 20 0
rules known
step 1007 first 101007 40 20 80 => 100100 100100 50 20 0
text 909090909090904883c408e9f0ffffff
rules published
step 1007 first 101007 40 20 80 => 100100 100100 50 20 0
rules known
step 1007 first 101007 40 20 80 => 100100 100100 50 20 0
text 909090909090904883c408e9f1ffffff
rules published
step 1007 first 101007 40 20 80 => 100100 100100 50 20 0
rules known
step 1007 first 101007 40 20 80 => 70 70 48 20 0
text 909090909090904883c408e9ffffffff
rules published
step 1007 first 101007 40 20 80 => 100100 100100 50 20 0
rules known
step 1007 first 101007 40 20 80 => 70 70 48 20 0
text 909090909090909090904883c408e900
rules published
step 100a first 10100a 40 20 80 => 100100 100100 50 20 0
rules known
step 100a first 10100a 40 20 80 => 70 70 48 20 0
text 90909090909090909090904883c408eb
rules published
step 100b first 10100b 40 20 80 => 100100 100100 50 20 0
rules known
step 100b first 10100b 40 20 80 => 70 70 48 20 0
# indirect jumps: through memory at RIP, with REX.W and without, a call, and one that is cut
text 9090909090904883c408ff2500000000
rules published
step 1006 first 101006 40 20 80 => 100100 100100 50 20 0
rules known
step 1006 first 101006 40 20 80 => 100100 100100 50 20 0
text 90909090904883c40848ff2500000000
rules published
step 1005 first 101005 40 20 80 => 100100 100100 50 20 0
rules known
step 1005 first 101005 40 20 80 => 100100 100100 50 20 0
text 9090909090909090904883c40848ffe0
rules published
step 1009 first 101009 40 20 80 => 70 70 48 20 0
rules known
step 1009 first 101009 40 20 80 => 100100 100100 50 20 0
text 9090909090909090904883c40849ffe3
rules published
step 1009 first 101009 40 20 80 => 70 70 48 20 0
rules known
step 1009 first 101009 40 20 80 => 100100 100100 50 20 0
text 90909090909090904883c4084fff6008
rules published
step 1008 first 101008 40 20 80 => 70 70 48 20 0
rules known
step 1008 first 101008 40 20 80 => 100100 100100 50 20 0
text 9090909090909090904883c40848ffd0
rules published
step 1009 first 101009 40 20 80 => 70 70 48 20 0
rules known
step 1009 first 101009 40 20 80 => 70 70 48 20 0
text 909090909090909090904883c40848ff
rules published
step 100a first 10100a 40 20 80 => 70 70 48 20 0
rules known
step 100a first 10100a 40 20 80 => 70 70 48 20 0
text 9090909090909090904883c40847ffe0
rules published
step 1009 first 101009 40 20 80 => 70 70 48 20 0
rules known
step 1009 first 101009 40 20 80 => 70 70 48 20 0
text 9090909090909090904883c40850ffe0
rules published
step 1009 first 101009 40 20 80 => 70 70 48 20 0
rules known
step 1009 first 101009 40 20 80 => 70 70 48 20 0
text 909090909090909090904883c408ffe0
rules published
step 100a first 10100a 40 20 80 => 70 70 48 20 0
rules known
step 100a first 10100a 40 20 80 => 70 70 48 20 0
text 9090909090909090904883c40848fee0
rules published
step 1009 first 101009 40 20 80 => 70 70 48 20 0
rules known
step 1009 first 101009 40 20 80 => 70 70 48 20 0
# returns
xdata 01000005
text 90909090909090909090904883c408c3
rules published
step 100b first 10100b 40 20 80 => 100100 100100 50 20 0
rules known
step 100b first 10100b 40 20 80 => 100100 100100 50 20 0
text 909090909090909090904883c408f3c3
rules published
step 100a first 10100a 40 20 80 => 100100 100100 50 20 0
rules known
step 100a first 10100a 40 20 80 => 100100 100100 50 20 0
# where the info is a chained one no function begins: a jump to the begin of the row is code of the body
xdata 2100000000100000101000001020000001000005
text 909090909090909090904883c408ebef
rules published
step 100a first 10100a 40 20 80 => 100100 100100 50 20 0
rules known
step 100a first 10100a 40 20 80 => 100100 100100 50 20 0
text 909090909090909090904883c408ebf0
rules published
step 100a first 10100a 40 20 80 => 100100 100100 50 20 0
rules known
step 100a first 10100a 40 20 80 => 70 70 48 20 0
text 909090909090909090904883c408ebf1
rules published
step 100a first 10100a 40 20 80 => 100100 100100 50 20 0
rules known
step 100a first 10100a 40 20 80 => 70 70 48 20 0
rules published
xdata 01000005
# pop rax; pop rax; ret has no rule, since RAX isn't callee-saved; its words are told by their addresses
text 9090909090909090909090905858f3c3
step 100c first 10100c 38 20 80 => 100100 10100c 50 20 0
step 100c first 10100c 38 20 40 => MissingStackData(Some(64))
step 100c first 10100c 38 20 48 => MissingStackData(Some(72))
# an info that leads to itself
xdata 21000000001000001010000000200000
text
step 1008 later 101009 10 20 80 => UnwindInfoParseError
# the second info allocates 8 at an offset above the address: only the first one's codes can be yet to run
xdata 2100010010020000001000001010000014200000010001001002
step 1008 later 101009 8 20 80 => 100300 100300 18 20 0
# infos that are cut
xdata
step 1008 later 101009 20 20 80 => UnwindInfoParseError
xdata 01
step 1008 later 101009 20 20 80 => UnwindInfoParseError
xdata 0105
step 1008 later 101009 20 20 80 => UnwindInfoParseError
xdata 010502
step 1008 later 101009 20 20 80 => UnwindInfoParseError
xdata 01050200
step 1008 later 101009 20 20 80 => UnwindInfoParseError
xdata 0105020005
step 1008 later 101009 20 20 80 => UnwindInfoParseError
xdata 010502000532
step 1008 later 101009 20 20 80 => UnwindInfoParseError
xdata 01050200053201
step 1008 later 101009 20 20 80 => UnwindInfoParseError
xdata 210000000010000010100000102000
step 1008 later 101009 20 20 80 => UnwindInfoParseError
";
