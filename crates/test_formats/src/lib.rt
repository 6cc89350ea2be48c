//! Tests of what is read of bytes, by public calls: constants, readers, and tables, strings and addresses of sections; evaluations of
//! expressions by the order of their calls; expressions and compact unwind info of which bytes are missing or wrong; steps by Apple's
//! compact unwind info and by Windows' unwind data, and tables of values by address; ELF files and core files.
//! `cases_dwarf` has those that are rows of bytes and answers.
#![tactic(auto)]

#[cfg(test)]
mod compact;
#[cfg(test)]
mod constants;
#[cfg(test)]
mod cores;
#[cfg(test)]
mod damaged;
#[cfg(test)]
mod elf;
#[cfg(test)]
mod expressions;
#[cfg(test)]
mod pe;
#[cfg(test)]
mod ranges;
#[cfg(test)]
mod readers;
#[cfg(test)]
mod sections;
