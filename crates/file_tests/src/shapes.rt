// Files of all layouts, with all extras, by their tables.
use crate::rewriting::check_all;
use crate::shape::Tables;
use std::test::Fail;

#[test]
fn linked_files(rt: HostRuntime) -> Result<(), Fail> {
    check_all(&rt, rt.alloc(), Tables::Whole)
}

#[test]
fn files_without_symbols(rt: HostRuntime) -> Result<(), Fail> {
    check_all(&rt, rt.alloc(), Tables::NoSymbols)
}

#[test]
fn files_without_relocations(rt: HostRuntime) -> Result<(), Fail> {
    check_all(&rt, rt.alloc(), Tables::NoRelocations)
}

#[test]
fn stripped_files(rt: HostRuntime) -> Result<(), Fail> {
    check_all(&rt, rt.alloc(), Tables::Stripped)
}

#[test]
fn files_without_names_of_sections(rt: HostRuntime) -> Result<(), Fail> {
    check_all(&rt, rt.alloc(), Tables::NoNames)
}

#[test]
fn copied_files(rt: HostRuntime) -> Result<(), Fail> {
    check_all(&rt, rt.alloc(), Tables::Copied)
}
