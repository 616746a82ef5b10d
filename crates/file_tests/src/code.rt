// The code of each file: the entry point, which calls a function `f` with two paths, and exits with its result.
use std::alloc::Global;
use test_files::BuildError;
use test_files::assembly::push_assembly;

/// The size of the entry point's code, and of the code of `f`, which comes after it.
pub const START_SIZE: u64 = 16;

pub const F_SIZE: u64 = 20;

/// The profile: of the two paths through `f`, the one by its branch is taken.
pub const PROFILE: &[u8] = b"1 f 0 1 f c 0 5\n1 f c 1 f 10 0 5\n";

/// The code. If `is_pair`, the call is the pair of instructions that a compiler writes, which has a relocation;
/// otherwise it is a JAL, which needs none.
pub fn code(alloc: Global, is_pair: bool) -> Result<Vec<u8>, BuildError> {
    let call = if is_pair {
        "auipc ra,0; jalr ra,16(ra)"
    } else {
        "nop; jal ra,12"
    };
    let mut code = Vec::new(alloc);
    push_assembly(&mut code, call)?;
    push_assembly(
        &mut code,
        "exit; beq a0,zero,12; addi a0,a0,3; jal zero,8; addi a0,a0,5; jalr zero,0(ra)",
    )?;
    Ok(code)
}
