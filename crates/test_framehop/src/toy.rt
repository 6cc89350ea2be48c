//! A module that says one thing, and an unwinder and a session that have it.
use crate::tables::{Row, Said, Tables};
use framehop_rules::x86_64::ArchX86_64;
use framehop_unwinder::{
    Generations, Module, ModuleUnwinding, Session, Unwinder, UnwinderInternal,
};
use std::alloc::Global;
use std::process::Abort;

/// x86_64, with modules that are tables.
pub type Toy = Tables<ArchX86_64>;

/// A module from 0x100000 to 0x102000 that says one thing at 0x101000, and nothing elsewhere.
pub fn module(rt: &impl Abort, alloc: Global, said: Said) -> Module<Vec<Row>> {
    let mut rows = Vec::new(alloc);
    let row = Row {
        relative_address: 0x1000,
        said,
    };
    rows.push(row).expect(rt, "memory");
    let name = String::from_str(alloc, "m").expect(rt, "memory");
    Module::new(alloc, name, 0x100000..0x102000, 0x100000, rows).expect(rt, "memory")
}

/// An unwinder that has this module.
pub fn unwinder_of<A: ModuleUnwinding<UnwindData = Vec<Row>>>(
    rt: &impl Abort,
    alloc: Global,
    said: Said,
) -> UnwinderInternal<A> {
    let mut generations = Generations::new();
    let mut unwinder = UnwinderInternal::<A>::new(alloc, &mut generations).expect(rt, "a number");
    let module = module(rt, alloc, said);
    assert!(rt;
        unwinder.add_module(&mut generations, module).is_ok(),
        "OutOfMemory"
    );
    unwinder
}

/// A session of one unwinder, which has this module, and of one cache.
pub fn session_of<A: ModuleUnwinding<UnwindData = Vec<Row>>>(
    rt: &impl Abort,
    alloc: Global,
    said: Said,
) -> Session<A> {
    let mut session: Session<A> = Session::new(alloc, Generations::new());
    session.add_cache(alloc).expect(rt, "memory");
    let unwinder = session.add_unwinder(alloc).expect(rt, "memory");
    let is_loaded = matches!(session.load(unwinder, module(rt, alloc, said)), Ok(Ok(())));
    assert!(rt; is_loaded, "OutOfMemory");
    session
}
